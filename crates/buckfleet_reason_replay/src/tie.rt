//! Why a journal isn't that of its stem files.
use crate::posting::Who;
use crate::stems::Difference;
use buck_book_journal::Journal;
use buck_stem::read_stm;
use buckfleet_reason::{Here, Said, Several, Shown, Source};
use std::alloc::Global;

/// A journal that was compared with stem files, if the cuts of a harvester differ from its file.
#[derive(Clone, Copy)]
pub struct Tied<'a> {
    pub source: Source<'a>,
    pub journal: &'a Journal,
    /// Number of the harvester, from 1.
    pub harvester: u32,
    /// Its file, if it has one.
    pub file: Option<Source<'a>>,
    /// Number of stem files.
    pub files: usize,
}

/// A stem of a file, by its place among the stems, counted from 1.
fn stem_of<'a>(file: &Source<'a>, place: usize) -> Here<'a> {
    let item = file.stem_item(place.saturating_sub(1));
    file.here(item.map_or(0, |item| item.at))
}

impl<'a> Tied<'a> {
    /// Whether a posting is a cut of the harvester.
    fn is_cut(&self, who: &Who<'_>) -> bool {
        who.cut()
            .is_some_and(|entry| entry.harvester == self.harvester)
    }

    /// The harvester's cut at a place, counted from 1.
    fn cut(&self, place: usize) -> Option<Who<'a>> {
        let journal = self.journal;
        let mut left = place;
        for at in 0..journal.entries.len() {
            let who = Who::of(journal, at)?;
            if self.is_cut(&who) {
                left = left.saturating_sub(1);
                if left == 0 {
                    return Some(who);
                }
            }
        }
        None
    }

    /// How many cuts the harvester has.
    fn cuts(&self) -> usize {
        let journal = self.journal;
        (0..journal.entries.len())
            .filter(|at| Who::of(journal, *at).is_some_and(|who| self.is_cut(&who)))
            .count()
    }

    /// Says how the harvester's cut at a place, counted from 1, differs from the stem that stands there in its file.
    /// None if it doesn't. Refused as `Memory` alone.
    pub fn other(&self, alloc: Global, place: usize) -> Said {
        let (Some(who), Some(file)) = (self.cut(place), self.file) else {
            return Ok(None);
        };
        let Ok(stems) = read_stm(alloc, file.bytes) else {
            return Ok(None);
        };
        let (Some(entry), Some(stem)) = (who.cut(), stems.get(place.saturating_sub(1))) else {
            return Ok(None);
        };
        let difference = Difference {
            found: &entry.stem,
            wanted: stem,
        };
        let there = stem_of(&file, place);
        who.say(
            alloc,
            &self.source,
            0,
            format_args!("{difference} ({there}, stem at place {place})"),
        )
    }

    /// Says that the stem at a place of the harvester's file, counted from 1, wasn't cut. None if it was.
    /// Refused as `Memory` alone.
    pub fn uncut(&self, alloc: Global, place: usize) -> Said {
        let Some(file) = self.file else {
            return Ok(None);
        };
        let Ok(stems) = read_stm(alloc, file.bytes) else {
            return Ok(None);
        };
        let Some(stem) = stems.get(place.saturating_sub(1)) else {
            return Ok(None);
        };
        let number = stem.number();
        let cuts = Several(self.cuts(), "cut");
        let harvester = self.harvester;
        let name = Shown(self.source.name);
        let all = stems.len();
        stem_of(&file, place).say(
            alloc,
            format_args!(
                "stem {number} (place {place}): {cuts} of harvester {harvester} in {name}, expected {all}"
            ),
        )
    }

    /// Says that the harvester's cut at a place, counted from 1, is one too many. None if it isn't. Refused as
    /// `Memory` alone.
    pub fn surplus(&self, alloc: Global, place: usize) -> Said {
        let Some(who) = self.cut(place) else {
            return Ok(None);
        };
        let Some(file) = self.file else {
            let harvester = self.harvester;
            let are = if self.files == 1 { "is" } else { "are" };
            let files = Several(self.files, "stem file");
            return who.say(
                alloc,
                &self.source,
                0,
                format_args!("expected no cut of harvester {harvester}, there {are} {files}"),
            );
        };
        let stems = file.stems();
        let name = Shown(file.name);
        who.say(
            alloc,
            &self.source,
            0,
            format_args!(
                "cut {place} of its harvester, expected {stems}, the number of stems in {name}"
            ),
        )
    }
}
