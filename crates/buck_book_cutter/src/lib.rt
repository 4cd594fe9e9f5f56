//! The book of one thread with its planner: it cuts stem after stem, each under the prices in force, and takes new
//! targets between them.
#![tactic(auto)]

mod cutter;

pub use cutter::Cutter;
