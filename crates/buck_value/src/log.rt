//! Logs.

/// A log of a stem. Any numbers may stand in it; what is allowed of a stem is said at
/// [`class_of`](crate::class_of).
#[derive(Clone, Copy, Debug, PartialEq, Eq)]
pub struct Log {
    /// Start of the log, in mm from the butt.
    pub start: u32,
    /// How long it is, in mm, trim excluded.
    pub length: u32,
    /// Index of its assortment in the instruction, from 0.
    pub assortment: u8,
}
