//! What each command is asked for: its files, its numbers, its options.
//!
//! [`Work`] is that of any command. [`combinations`] says which runs a table of trials has, [`Subject`] which files
//! some work is about.
#![tactic(auto)]

mod combination;
mod harvests;
mod journals;
mod subject;
mod trials;
mod work;

pub use combination::{Combination, combinations};
pub use harvests::{BuckTask, FleetTask, LiveTask, Order};
pub use journals::{AppraiseTask, CheckTask, CompareTask, CrossCheck, Shown, ViewTask};
pub use subject::{DASH, INPUT, Subject};
pub use trials::{OwnedTask, SweepTask, TrialTask, TuneTask, WishesTask};
pub use work::{Task, Work};
