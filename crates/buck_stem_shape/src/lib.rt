//! Felled stems: their diameters and grades along the length.
#![tactic(auto)]

mod body;
mod described;
mod grades;
mod points;
mod same;
pub mod slots;
mod stem;

pub use buck_record::Memory;
pub use described::ITEMS;
pub use grades::Grades;
pub use points::profile::{Profile, ProfileLists};
pub use stem::{Stem, StemFault};
