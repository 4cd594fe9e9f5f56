//! Postings, and their places in their file.
use buck_book_journal::Journal;
use buck_book_postings::{Entry, Posting};
use buckfleet_reason::{Said, Source};
use std::alloc::Global;
use std::fmt;

/// A posting by its place and whose it is.
#[derive(Clone, Copy)]
pub(crate) struct Who<'a> {
    /// Its place, counted from 0.
    pub(crate) at: usize,
    pub(crate) posting: &'a Posting,
}

impl<'a> Who<'a> {
    /// The posting at a place of a journal, if there is one.
    pub(crate) fn of(journal: &'a Journal, at: usize) -> Option<Who<'a>> {
        let posting = journal.entries.get(at)?;
        Some(Who { at, posting })
    }

    /// The cut that it is, if it is one.
    pub(crate) fn cut(&self) -> Option<&'a Entry> {
        match self.posting {
            Posting::Cut(entry) => Some(entry),
            Posting::Demand(_) => None,
        }
    }

    /// Says words of a part of it, whose items are counted from 0, after its place and whose it is.
    pub(crate) fn say<T: fmt::Display + Drop>(
        &self,
        alloc: Global,
        source: &Source<'_>,
        part: usize,
        words: T,
    ) -> Said {
        let item = source.posting_item(self.at, part);
        let here = source.here(item.map_or(0, |item| item.at));
        here.say(alloc, format_args!("{self}: {words}"))
    }
}

impl fmt::Display for Who<'_> {
    fn fmt<W: fmt::Write>(&self, f: &mut fmt::Formatter<W>) -> fmt::Result {
        let at = self.at;
        let harvester = self.posting.harvester();
        write!(f, "posting {at} (harvester {harvester}, ")?;
        match self.cut() {
            Some(entry) => write!(f, "stem {})", entry.stem.number()),
            None => write!(f, "new targets)"),
        }
    }
}
