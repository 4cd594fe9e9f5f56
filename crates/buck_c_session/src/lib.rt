//! The book of one thread with its planner, kept behind a handle for callers that can hold no value of ours.
#![tactic(auto)]

mod block;
mod felling;
mod handle;
mod kept;
mod looking;

pub use block::Block;
pub use felling::{FellFault, Felled, Zone};
pub use handle::Handle;
pub use kept::KeptBook;
pub use looking::{Appraisal, NamedLog};
