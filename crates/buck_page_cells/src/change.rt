//! What a number changes by.
ghost use Rattle.std.specs.Prelude.{◌<◌, ◌^◌};

/// A number before and after a change.
#[derive(Clone, Copy, Debug, PartialEq, Eq)]
pub struct Change {
    /// The number before, in the unit of the table's column; below 2^100.
    pub from: u128,
    /// The number after, in the unit of the table's column; below 2^100.
    pub to: u128,
    ghost small: { (from < 2 ^ 100) × (to < 2 ^ 100) },
}
