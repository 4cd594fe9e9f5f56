//! What each target of an instruction costs, found by trial before a tree is cut.
//!
//! [`serve_wishes`] makes a run with each target in its turn moved half way to what its class has unsteered, over the
//! files that [`WishesTask`] names; [`run_wishes`] is the same over open files, and [`run_wishes_in_parts`] makes the
//! runs in several threads at once.
#![tactic(auto)]

mod asking;
mod moved;
mod outcome;
mod serving;
mod wish;
mod wishes;

pub use buckfleet_tasks::WishesTask;
pub use serving::serve_wishes;
pub use wishes::{run_wishes, run_wishes_in_parts};
