//! The replay of a journal: whether it is lawful, or the first fault that stands in it.
#![tactic(auto)]

mod case;
mod checks;
pub mod laws;
mod outvalued;
mod replaying;
mod sheets;

pub use buck_record::Memory;
pub use replaying::{Stop, replay, replay_in_order, replay_in_parts, replay_to_end};
