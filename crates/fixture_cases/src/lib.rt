//! Worked cases: the lines of their files, what a case wants, and what is said of those that differ. `run_cases` runs
//! them.
#![tactic(auto)]

mod case;
mod counting;
mod outcome;

pub use case::{Case, Engine, Inputs, Named};
pub use counting::{Count, put_report, read_line};
pub use outcome::Outcome;
