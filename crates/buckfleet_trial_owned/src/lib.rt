//! A sweep whose lines also say what an owner pays for the runs.
//!
//! [`serve_owned`] makes the table of a trial with more columns, over the files that [`OwnedTask`] names; [`run_owned`]
//! is the same over open files.
#![tactic(auto)]

mod outcome;
mod owned;

pub use buckfleet_tasks::OwnedTask;
pub use owned::{OwnedFiles, run_owned, serve_owned};
