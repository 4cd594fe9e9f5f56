//! A cutting that someone names: whether it is admissible, what it is worth, and why it can't be cut if it isn't.
#![tactic(auto)]

mod judging;
pub mod laws;
mod reason;

pub use judging::{Judged, judge, reason_of};
pub use reason::Reason;
