//! Items that are missing, that stand twice, or that have no head.
use crate::form::{Refused, Seen};
use crate::item::Item;
use crate::rows::{Tag, key_of};
use crate::shown::Quoted;
use crate::source::{Said, Source};
use buck_record::rules::FILE;
use buck_record::{Described, Level};
use std::alloc::Global;

/// The bytes that some programs put before a text.
const BYTE_MARK: &[u8] = b"\xef\xbb\xbf";

/// Says that a piece has no head.
pub(crate) fn headless(alloc: Global, source: &Source<'_>, place: usize) -> Said {
    let Some(item) = source.items().nth(place.saturating_sub(1)) else {
        return Ok(None);
    };
    let mark = if place == 1 && source.bytes.starts_with(BYTE_MARK) {
        "\n  the file begins with a byte order mark (UTF-8 with BOM): save it without one"
    } else {
        ""
    };
    let text = Quoted(item.text);
    source.here(item.at).say(
        alloc,
        format_args!(
            "item {place}, {text}, expected two numbers from 0 to 65535 and whitespace at its beginning{mark}"
        ),
    )
}

impl Refused<'_> {
    /// Says that it is of another kind than the one of this name.
    pub(crate) fn other_kind(&self, name: &str) -> Said {
        match self.source.first_of(FILE) {
            Some(item) => {
                let kind = Quoted(item.rest());
                let here = self.source.here(item.at);
                here.say(
                    self.alloc,
                    format_args!("kind of file (1 2): {kind}, expected {name}"),
                )
            }
            None => self.source.whole().say(
                self.alloc,
                format_args!("kind of file (1 2): missing, expected 1 2 {name}~"),
            ),
        }
    }

    /// Says that an item is not there at all.
    fn not_there(&self, row: &'static Described) -> Said {
        let words = format_args!("{}: missing, expected one", Tag(row));
        self.source.whole().say(self.alloc, words)
    }

    /// Says that what begins an assortment or a stem is missing, or stands too late.
    fn unopened(&self, row: &'static Described) -> Said {
        match self.first_grouped() {
            Some(
                Seen {
                    item,
                    row: found,
                    ..
                },
            ) if found.level == Level::Member => self.source.here(item.at).say(
                self.alloc,
                format_args!(
                    "{}: comes before the first {}, expected after it",
                    Tag(found),
                    Tag(row)
                ),
            ),
            _ => self.not_there(row),
        }
    }

    /// Whether the group that an item begins has one that is described so.
    fn has_member(&self, opener: &Item<'_>, row: &Described) -> bool {
        match row.slots.first() {
            Some(slot) => self.member(opener, *slot).is_some(),
            None => false,
        }
    }

    /// Says that an item is missing in the first group that doesn't have it.
    fn missing_member(&self, row: &'static Described) -> Said {
        for item in self.source.items() {
            if self.opens(&item) && !self.has_member(&item, row) {
                let seen = Seen {
                    file: *self,
                    item,
                    row,
                };
                return seen.place().say("missing, expected one");
            }
        }
        Ok(None)
    }

    /// Says that an item is missing.
    pub(crate) fn missing(&self, row: &'static Described) -> Said {
        match row.level {
            Level::Head => self.not_there(row),
            Level::Opener => self.unopened(row),
            Level::Member => self.missing_member(row),
        }
    }

    /// Says that an item stands twice: once more in its group, or in the file.
    pub(crate) fn twice(&self, row: &'static Described) -> Said {
        let mut first: Option<Item<'_>> = None;
        for item in self.source.items() {
            if row.level == Level::Member && self.opens(&item) {
                first = None;
            }
            if item.key() != Some(key_of(row)) {
                continue;
            }
            if let Some(before) = first {
                let seen = Seen {
                    file: *self,
                    item,
                    row,
                };
                if self.source.is_line() {
                    return seen.place().say("given twice, expected once");
                }
                let line = self.source.line(before.at);
                return seen.place().say(format_args!(
                    "given twice, first in line {line}, expected once"
                ));
            }
            first = Some(item);
        }
        Ok(None)
    }
}
