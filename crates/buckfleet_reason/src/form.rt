//! Files whose items stand in groups, and what is said of them.
use crate::item::{Item, Key};
use crate::rows::{key_of, row_of};
use crate::source::{Here, Said, Source};
use crate::whose::{Group, Kind};
use buck_record::{Described, Level, Slot};
use std::alloc::Global;
use std::fmt;

/// A file of a form, of which it is said why it is refused.
#[derive(Clone, Copy)]
pub(crate) struct Refused<'a> {
    pub(crate) alloc: Global,
    pub(crate) source: Source<'a>,
    /// Its items, and those that stand in it too.
    pub(crate) rows: [&'static [Described]; 2],
    /// What its groups are.
    pub(crate) kind: Kind,
}

/// An item of a file, and what is said of its kind.
#[derive(Clone, Copy)]
pub(crate) struct Seen<'a> {
    pub(crate) file: Refused<'a>,
    pub(crate) item: Item<'a>,
    pub(crate) row: &'static Described,
}

/// A place in an item of a file: where it stands, and the item's name and head, and whose it is, if it is one's.
#[derive(Clone, Copy)]
pub(crate) struct Place<'a> {
    alloc: Global,
    here: Here<'a>,
    name: &'a str,
    key: Key,
    whose: Option<Group<'a>>,
}

impl<'a> Refused<'a> {
    /// The row of an item, if it has one.
    pub(crate) fn row(&self, item: &Item<'_>) -> Option<&'static Described> {
        self.row_of(item.key()?)
    }

    /// The row of a key, if there is one.
    pub(crate) fn row_of(&self, key: Key) -> Option<&'static Described> {
        let [own, more] = self.rows;
        match row_of(own, key) {
            Some(row) => Some(row),
            None => row_of(more, key),
        }
    }

    /// Whether an item begins a group.
    pub(crate) fn opens(&self, item: &Item<'_>) -> bool {
        match self.row(item) {
            Some(row) => row.level == Level::Opener,
            None => false,
        }
    }

    /// The first item that begins a group, or stands in one.
    pub(crate) fn first_grouped(&self) -> Option<Seen<'a>> {
        for item in self.source.items() {
            match self.row(&item) {
                Some(row) if row.level != Level::Head => {
                    return Some(Seen {
                        file: *self,
                        item,
                        row,
                    });
                }
                _ => {}
            }
        }
        None
    }

    /// The group that is begun last at a byte or before it, if one is.
    fn group_at(&self, at: usize) -> Option<Group<'a>> {
        let mut group: Option<Group<'a>> = None;
        for opener in self.source.items() {
            if at < opener.at {
                break;
            }
            if self.opens(&opener) {
                group = Some(Group {
                    kind: self.kind,
                    place: group.map_or(0, |before| before.place.saturating_add(1)),
                    opener,
                });
            }
        }
        group
    }

    /// The item of a slot between the one that begins a group and the next such one.
    pub(crate) fn member(&self, opener: &Item<'_>, slot: Slot) -> Option<Item<'a>> {
        for item in self.source.items_after(opener) {
            if self.opens(&item) {
                return None;
            }
            if item.is(slot) {
                return Some(item);
            }
        }
        None
    }
}

impl<'a> Seen<'a> {
    /// The item of a slot in its group, if there is one.
    pub(crate) fn sibling(&self, slot: Slot) -> Option<Item<'a>> {
        let group = self.file.group_at(self.item.at)?;
        self.file.member(&group.opener, slot)
    }

    /// A place in it, at a byte.
    pub(crate) fn at(&self, byte: usize) -> Place<'a> {
        let whose = match self.row.level {
            Level::Head => None,
            _ => self.file.group_at(self.item.at),
        };
        Place {
            alloc: self.file.alloc,
            here: self.file.source.here(byte),
            name: self.row.name,
            key: key_of(self.row),
            whose,
        }
    }

    /// Its place, without a byte.
    pub(crate) fn place(&self) -> Place<'a> {
        self.at(self.item.at)
    }
}

impl Place<'_> {
    /// Says what is wrong there, after the place, the name of the item, and whose it is.
    pub(crate) fn say<T: fmt::Display + Drop>(&self, words: T) -> Said {
        let Key { number, kind } = self.key;
        let name = self.name;
        match self.whose {
            Some(group) => self.here.say(
                self.alloc,
                format_args!("{name} ({number} {kind}) of {group}: {words}"),
            ),
            None => self.here.say(
                self.alloc,
                format_args!("{name} ({number} {kind}): {words}"),
            ),
        }
    }
}
