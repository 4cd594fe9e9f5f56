//! The files of an appraisal, open.
ghost use Rattle.std.specs.Prelude.{◌<◌, ◌≤◌, length};

/// The files of an appraisal, open.
#[derive(Drop)]
pub struct Opened<F> {
    /// The instruction file.
    pub apt: F,
    /// The journals, 1 to 64.
    pub journals: Vec<F>,
    /// The owner's instruction with its number, from 0 for the instruction file: it is the last.
    pub own: (F, u32),
    ghost number: { (0 < length journals.items) × (length journals.items ≤ 64) },
}
