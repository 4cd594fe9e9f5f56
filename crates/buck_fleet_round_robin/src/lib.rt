//! Harvesters that take turns: one stem each, in the order of their numbers, round by round, in a book of one thread.
//!
//! What a fleet of threads cuts depends on which harvester commits first. [`cut_in_turn`] cuts the same lists so that
//! the same history comes out each time.
#![tactic(auto)]

mod turns;

pub use turns::cut_in_turn;
