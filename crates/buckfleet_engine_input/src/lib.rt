//! The files of a fleet: an instruction and the stems of each harvester.
#![tactic(auto)]

mod lists;

pub use lists::{Input, number_of_stems, read_input, read_input_with};
