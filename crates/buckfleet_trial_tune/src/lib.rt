//! The base prices that stems ask for: the means of those that were in force while the stems were cut by a rule.
//!
//! [`serve_tune`] writes the instruction with such prices, over the files that [`TuneTask`] names; [`run_tune`] is the
//! same over open files, and [`tuned_prices`] has the prices of a history.
#![tactic(auto)]

mod tune;

pub use buckfleet_tasks::TuneTask;
pub use tune::{run_tune, serve_tune, tuned_prices};
