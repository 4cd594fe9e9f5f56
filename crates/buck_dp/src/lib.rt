//! The best cutting of one stem: a dynamic programme over cutting positions.
#![tactic(auto)]

mod assortment_sets;
mod bid;
mod cutting;
mod ends;
mod following;
mod judging;
pub mod laws;
mod log_types;
mod offering;
mod planner;
mod planning;
mod pricing;
mod sheet_cache;

pub use buck_record::Memory;
pub use cutting::Cutting;
pub use judging::{admissible, worth, worth_if_admissible};
pub use planner::{Planner, best};
