//! The items of instruction files and stem files, as sentences name them.
use buck_record::{Count, Described, Order, Slot};
use buckfleet_reason::{REQUEST, key_of};
use std::fmt;

/// An item of a file, and the part of it that a sentence needs, by its name in the table of sentences.
#[derive(Clone, Copy)]
pub(crate) struct Part<'a> {
    pub(crate) item: &'static Described,
    pub(crate) name: &'a str,
}

/// The item of a kind of file, by its number and its kind. A stem file's may stand in a request alone.
pub(crate) fn item_of(file: &str, number: u16, kind: u16) -> Option<&'static Described> {
    let (own, more): (&'static [Described], &'static [Described]) = if file == "stm" {
        (&buck_stem_shape::ITEMS, &REQUEST)
    } else {
        (&buck_apt_instruction::ITEMS, &[])
    };
    for item in own.iter().chain(more) {
        let key = key_of(item);
        if key.number == number && key.kind == kind {
            return Some(item);
        }
    }
    None
}

impl Part<'_> {
    /// Whether the item has it: some have no order.
    pub(crate) fn is_there(&self) -> bool {
        self.name != "order" || self.item.order != Order::Free
    }

    /// Writes in which range its numbers must be.
    fn write_range<W: fmt::Write>(&self, f: &mut fmt::Formatter<W>) -> fmt::Result {
        match (self.item.count, self.item.slots) {
            (Count::Any, _) => write!(f, "see docs/FORMATS.md"),
            (Count::Text(most), _) => {
                write!(f, "1 to {most} bytes, none of them a control byte, | or ~")
            }
            (_, [Slot { low, high, .. }]) => write!(f, "{low} to {high}"),
            (_, [starts, lengths, assortments]) => write!(
                f,
                "for each log a start of {} to {}, a length of {} to {} and an assortment of {} to {}",
                starts.low,
                starts.high,
                lengths.low,
                lengths.high,
                assortments.low,
                assortments.high
            ),
            (_, [starts, grades, ..]) => write!(
                f,
                "for each zone a start of {} to {} and a grade of {} to {}",
                starts.low, starts.high, grades.low, grades.high
            ),
            (_, []) => Ok(()),
        }
    }

    /// Writes in which order they must stand.
    fn write_order<W: fmt::Write>(&self, f: &mut fmt::Formatter<W>) -> fmt::Result {
        match self.item.order {
            Order::Free => Ok(()),
            Order::Rising(1) => write!(f, "must have each number above the one before"),
            Order::Rising(_) => write!(f, "must have each start above the one before"),
            Order::AboveLower => write!(f, "must be above every lower diameter (915 1)"),
            Order::First => write!(f, "must come before the rest of the request"),
        }
    }

    /// Writes how many there must be.
    fn write_count<W: fmt::Write>(&self, f: &mut fmt::Formatter<W>) -> fmt::Result {
        match self.item.count {
            Count::Names => write!(f, "one number, the number of names (911 1)"),
            Count::UpTo(most) => write!(f, "1 to {most} numbers"),
            Count::Pairs(most) => {
                let most = most.saturating_mul(2);
                write!(
                    f,
                    "at most {most} numbers, a start and a grade for each zone"
                )
            }
            Count::Triples(most) => {
                let most = most.saturating_mul(3);
                write!(
                    f,
                    "at most {most} numbers, a start, a length and an assortment for each log"
                )
            }
            Count::Classes => write!(f, "one number for each lower diameter and length"),
            _ => write!(f, "one number"),
        }
    }
}

impl fmt::Display for Part<'_> {
    fn fmt<W: fmt::Write>(&self, f: &mut fmt::Formatter<W>) -> fmt::Result {
        match self.name {
            "range" => self.write_range(f),
            "order" => self.write_order(f),
            "count" => self.write_count(f),
            _ => {
                let key = key_of(self.item);
                write!(f, "Item {} {} ({})", key.number, key.kind, self.item.name)
            }
        }
    }
}
