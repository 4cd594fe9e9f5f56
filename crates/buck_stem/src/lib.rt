//! Felled stems: their diameters and grades along the length, and the files that they are read from.
#![tactic(auto)]

mod draft;
mod fault;
pub mod laws;
mod lines;
mod parallel;
mod plain;
mod reading;
mod rules;

pub use buck_stem_shape::{Grades, ITEMS, Memory, Profile, ProfileLists, Stem, StemFault, slots};
pub use fault::StmFault;
pub use parallel::read_stm_in_parts;
pub use reading::read_stm;
