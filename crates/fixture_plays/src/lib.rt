//! Fleets that tests play, each harvester in a thread of its own: what callers write, stages and turns, and what is
//! expected of a closed fleet.
#![tactic(auto)]

pub mod callers;
pub mod fixtures;
pub mod play;
pub mod stage;
pub mod turns;
