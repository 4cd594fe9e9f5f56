//! The items of a file form, as people speak of them.
use crate::slot::Slot;

/// The level of an item in its file.
#[derive(Clone, Copy, Debug, PartialEq, Eq)]
pub enum Level {
    /// It stands once in the file.
    Head,
    /// A part of the file, as an assortment or a stem, begins with it.
    Opener,
    /// It belongs to the part before it.
    Member,
}

/// How many numbers an item has.
#[derive(Clone, Copy, Debug, PartialEq, Eq)]
pub enum Count {
    /// Any, as far as its table says.
    Any,
    /// None: it is a text of 1 to this many bytes.
    Text(usize),
    One,
    /// One, as great as there are names.
    Names,
    /// One for each of its slots.
    Slots,
    /// 1 to this many.
    UpTo(usize),
    /// 0 to this many.
    AtMost(usize),
    /// 0 to this many pairs.
    Pairs(usize),
    /// 0 to this many triples.
    Triples(usize),
    /// One for each row and column of its assortment.
    Classes,
}

/// In which order the numbers of an item are.
#[derive(Clone, Copy, Debug, PartialEq, Eq)]
pub enum Order {
    Free,
    /// Each is above an earlier one, if there is one: how many places before it that stands.
    Rising(usize),
    /// Each is above all lower diameters of its assortment.
    AboveLower,
    /// It may be any, but the item stands before all others.
    First,
}

/// An item of a file form, and what is said of it.
#[derive(Clone, Copy, Debug)]
pub struct Described {
    /// Its slot, once for each place where another range holds: behind the last one the first follows again.
    pub slots: &'static [Slot],
    pub name: &'static str,
    pub level: Level,
    pub count: Count,
    pub order: Order,
}

/// An item that is described by its slots, its name, its level, how many numbers it has and, if they have one, their
/// order: `described!([MODULE], "module", Head, One)`.
#[macro_export]
macro_rules! described {
    ($slots:expr, $name:expr, $level:expr, $count:expr) => {
        $crate::described!($slots, $name, $level, $count, $crate::Order::Free)
    };
    ($slots:expr, $name:expr, $level:expr, $count:expr, $order:expr) => {
        $crate::Described {
            slots: &$slots,
            name: $name,
            level: $level,
            count: $count,
            order: $order,
        }
    };
}
