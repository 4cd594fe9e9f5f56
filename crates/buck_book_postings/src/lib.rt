//! The book of one thread: plans of stems, and the history of what was cut under which prices.
#![tactic(auto)]

mod book;
mod degree;
mod demand;
mod entry;
pub mod laws;
mod parts;
mod plan;
mod posting;
mod pricing;
mod ready;
mod running;
mod targets;
mod walk;

pub use book::Book;
pub use buck_record::Memory;
pub use degree::degree_at;
pub use demand::{DemandRefusal, ReadyDemand};
pub use entry::Entry;
pub use parts::Parts;
pub use plan::Plan;
pub use posting::{Demand, Kept, MOST_POSTINGS, Posting};
pub use ready::{CutFault, Ready, Refusal};
pub use targets::{TargetsFault, check_targets};
pub use walk::Walk;
