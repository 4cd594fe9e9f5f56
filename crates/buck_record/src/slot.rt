//! A row of a file form's table.

/// An item of a file form: the number and the kind that its head says, and what each of its numbers may be. An item
/// stands in the slot that its head names.
#[derive(Clone, Copy, Debug, PartialEq, Eq)]
pub struct Slot {
    /// The first word of the head, 0 to 65,535.
    pub number: u16,
    /// The second word of the head, 0 to 65,535.
    pub kind: u16,
    /// The least that each of its numbers may be, in the item's unit.
    pub low: u32,
    /// The greatest that each of its numbers may be, in the item's unit.
    pub high: u32,
}

/// The slot of a number, a kind and a range, in the value of a constant: `slot!(901, 1, 10..=1000)`. With no range its
/// numbers may be any, or it is a text: `slot!(911, 1)`.
#[macro_export]
macro_rules! slot {
    ($number:expr, $kind:expr) => {
        $crate::slot!($number, $kind, 0..=4_294_967_295)
    };
    ($number:expr, $kind:expr, $low:literal ..= $high:literal) => {
        $crate::Slot {
            number: $number,
            kind: $kind,
            low: $low,
            high: $high,
        }
    };
}
