//! Why a journal is refused.
use crate::form::{Refused, Seen};
use crate::item::Key;
use crate::placing::headless;
use crate::rows::{Tag, key_of, row_of};
use crate::shown::{Quoted, Several};
use crate::source::{Said, Source};
use crate::whose::Kind;
use buck_book_journal::slots::{CUT, DEMAND, SHEET, WORTH};
use buck_book_journal::{ITEMS, JournalFault};
use buck_book_postings::MOST_POSTINGS;
use buck_record::{Described, Level, Slot};
use std::alloc::Global;
use std::fmt;

/// The items of a posting after its first, which has this head.
fn members_of(key: Key) -> &'static [Described] {
    let all: &'static [Described] = &ITEMS;
    let Some(opener) = all.iter().position(|row| key_of(row) == key) else {
        return &[];
    };
    let rest = &all[opener + 1..];
    let members = rest.iter().position(|row| row.level != Level::Member);
    &rest[..members.unwrap_or(rest.len())]
}

/// What may stand at a place of a journal.
#[derive(Clone, Copy)]
struct Due {
    /// The items that the posting which stands open still lacks.
    lacks: &'static [Described],
    /// How many postings were ended.
    postings: usize,
    /// Whether there was none yet.
    in_sheets: bool,
}

impl Due {
    /// What may follow an item.
    fn after(self, key: Key) -> Due {
        match self.lacks {
            [_] => Due {
                lacks: &[],
                postings: self.postings.saturating_add(1),
                ..self
            },
            [_, rest @ ..] => Due {
                lacks: rest,
                ..self
            },
            [] if key.is(SHEET) => self,
            [] => Due {
                lacks: members_of(key),
                in_sheets: false,
                ..self
            },
        }
    }
}

/// The item of a slot by its name.
#[derive(Clone, Copy)]
struct Named(Slot);

impl fmt::Display for Named {
    fn fmt<W: fmt::Write>(&self, f: &mut fmt::Formatter<W>) -> fmt::Result {
        match row_of(&ITEMS, Key::of(self.0)) {
            Some(row) => write!(f, "{}", Tag(row)),
            None => Ok(()),
        }
    }
}

impl fmt::Display for Due {
    fn fmt<W: fmt::Write>(&self, f: &mut fmt::Formatter<W>) -> fmt::Result {
        match self.lacks {
            [row, ..] => write!(f, "expected {}", Tag(row)),
            [] if self.in_sheets => write!(
                f,
                "expected {}, {} or {}",
                Named(SHEET),
                Named(CUT),
                Named(DEMAND)
            ),
            [] => write!(f, "expected {} or {}", Named(CUT), Named(DEMAND)),
        }
    }
}

/// Where in a journal it is.
#[derive(Clone, Copy)]
struct Inside<'a>(&'a Due);

impl fmt::Display for Inside<'_> {
    fn fmt<W: fmt::Write>(&self, f: &mut fmt::Formatter<W>) -> fmt::Result {
        let postings = self.0.postings;
        if !self.0.lacks.is_empty() {
            return write!(f, "in posting {postings}");
        }
        if postings == 0 {
            return write!(f, "after the prices");
        }
        write!(f, "after {}", Several(postings, "posting"))
    }
}

/// What may stand at a place of a journal, counted from 1.
fn due_at(source: &Source<'_>, place: usize) -> Due {
    let mut due = Due {
        lacks: &[],
        postings: 0,
        in_sheets: true,
    };
    for item in source.items().take(place.saturating_sub(1)).skip(1) {
        if let Some(key) = item.key() {
            due = due.after(key);
        }
    }
    due
}

/// Says that a file is no journal.
fn no_journal(alloc: Global, source: &Source<'_>) -> Said {
    match source.items().next() {
        Some(item) => source.here(item.at).say(
            alloc,
            format_args!("{}, expected 1 2 JRN~", Quoted(item.text)),
        ),
        None => source.whole().say(alloc, "empty, expected 1 2 JRN~"),
    }
}

/// Where the last byte stands that says something.
fn end_of(source: &Source<'_>) -> usize {
    match source.items().last() {
        Some(item) => item.at.saturating_add(item.text.len()),
        None => 0,
    }
}

/// Says that a journal ends too soon, or that another item must stand at a place.
fn misplaced(alloc: Global, source: &Source<'_>, place: usize) -> Said {
    let due = due_at(source, place);
    let Some(item) = source.items().nth(place.saturating_sub(1)) else {
        let posting = due.postings;
        return source.here(end_of(source)).say(
            alloc,
            format_args!("ends within posting {posting}, {due}"),
        );
    };
    let Some(Key { number, kind }) = item.key() else {
        return Ok(None);
    };
    source.here(item.at).say(
        alloc,
        format_args!("item {place}, {number} {kind}, {}: {due}", Inside(&due)),
    )
}

impl<'a> Refused<'a> {
    /// The item at a place, counted from 1, if it has a row.
    fn at(&self, place: usize) -> Option<Seen<'a>> {
        let item = self.source.items().nth(place.saturating_sub(1))?;
        let row = self.row(&item)?;
        Some(Seen {
            file: *self,
            item,
            row,
        })
    }
}

impl Seen<'_> {
    /// Says that a word is no number, or all of a worth.
    fn unnumbered(&self) -> Said {
        if !self.item.is(WORTH) {
            return self.no_number();
        }
        let rest = Quoted(self.item.rest());
        self.place()
            .say(format_args!("{rest}, expected one number"))
    }

    /// Says that it has too few or too many numbers, or is one posting too many.
    fn surplus(&self) -> Said {
        if self.row.level == Level::Opener && self.item.count() == self.row.slots.len() {
            let words = format_args!("expected at most {MOST_POSTINGS} postings");
            return self.place().say(words);
        }
        self.miscounted()
    }

    /// Says that a number is out of its range, or that a zone doesn't start after the one before.
    fn outside(&self) -> Said {
        let said = self.out_of_range()?;
        if said.is_some() {
            return Ok(said);
        }
        self.out_of_order()
    }
}

/// Returns why a journal is refused, in lines of text, given its fault. None if nothing in the journal is as the fault
/// says. Refused as `Memory` alone.
pub fn journal_reason(alloc: Global, source: &Source<'_>, fault: &JournalFault) -> Said {
    let file = Refused {
        alloc,
        source: *source,
        rows: [&ITEMS, &[]],
        kind: Kind::Posting,
    };
    match *fault {
        JournalFault::Head { item } => headless(alloc, source, item),
        JournalFault::NotJournal => no_journal(alloc, source),
        JournalFault::Shape { item } => misplaced(alloc, source, item),
        JournalFault::Digits { item } => file.at(item).map_or(Ok(None), |seen| seen.unnumbered()),
        JournalFault::Count { item } => file.at(item).map_or(Ok(None), |seen| seen.surplus()),
        JournalFault::Range { item } => file.at(item).map_or(Ok(None), |seen| seen.outside()),
        JournalFault::Memory => Ok(None),
    }
}
