//! Small instructions and stems, worked out by hand, that the tests of all crates share.
#![tactic(auto)]

mod instruction;
mod journal;
mod stem;

pub use instruction::{
    MAX, SAW, SAW_AND_POLE, edited, instruction_of, largest_instruction, saw_instruction,
};
pub use journal::{SHORT_JOURNAL, two_stem_journal};
pub use stem::{stem_of, uniform_stem};
