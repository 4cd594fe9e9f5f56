//! The items of files by their number and kind. Their names, ranges and orders stand in the crates of their forms.
use crate::item::Key;
use buck_record::Count::{Any, One, Triples};
use buck_record::Level::{Head, Member};
use buck_record::Order::First;
use buck_record::{Described, Slot, described, slot};
use std::fmt;

/// The harvester that asks.
pub(crate) const HARVESTER: Slot = slot!(950, 1, 1..=64);

/// That the stem of a request is previewed.
const PREVIEW: Slot = slot!(955, 1, 1..=1);

/// The operator's own logs of the stem of a request: their starts, their lengths and their assortments.
const OWN: [Slot; 3] = [
    slot!(956, 1, 0..=40_000),
    slot!(956, 1, 0..=30_000),
    slot!(956, 1, 0..=15),
];

/// The new targets of a request.
pub(crate) const NEW_TARGETS: Slot = slot!(982, 2);

/// The items that stand in a request alone.
pub static REQUEST: [Described; 4] = [
    described!([HARVESTER], "harvester", Head, One, First),
    described!([PREVIEW], "preview", Member, One),
    described!(OWN, "own logs", Member, Triples(80)),
    described!([NEW_TARGETS], "targets", Head, Any),
];

/// The name of an item, with its number and kind.
#[derive(Clone, Copy)]
pub struct Tag(pub &'static Described);

impl fmt::Display for Tag {
    fn fmt<W: fmt::Write>(&self, f: &mut fmt::Formatter<W>) -> fmt::Result {
        let name = self.0.name;
        let Key { number, kind } = key_of(self.0);
        write!(f, "{name} ({number} {kind})")
    }
}

/// Returns the number and the kind of a described item.
pub fn key_of(row: &Described) -> Key {
    match row.slots.first() {
        Some(slot) => Key::of(*slot),
        None => Key { number: 0, kind: 0 },
    }
}

/// The range of an item's number at a place, counted from 1.
pub(crate) fn range_at(row: &Described, place: usize) -> (u32, u32) {
    let before = place.saturating_sub(1);
    match row.slots.get(before % row.slots.len().max(1)) {
        Some(slot) => (slot.low, slot.high),
        None => (0, u32::MAX),
    }
}

/// What is said of an item, if something is.
pub(crate) fn row_of(rows: &'static [Described], key: Key) -> Option<&'static Described> {
    rows.iter().find(|row| key_of(row) == key)
}
