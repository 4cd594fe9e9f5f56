//! Stages.
use buck_book_postings::Plan;

/// The stage of a harvester's call.
#[derive(Drop)]
pub enum Stage {
    /// It has no call going on.
    Idle,
    /// It has read the front.
    Reading,
    /// It has a plan, made under the sheet of the version that it has seen.
    Planned(Plan),
    /// Its posting was added, and the front isn't raised yet.
    Answered,
}
