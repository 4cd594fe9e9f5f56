//! What a harvest would come to, found by trial before a tree is cut.
//!
//! [`serve_trial`] compares rules, periods and limits as a sweep does, with other targets than the instruction's, and
//! over orders of the stems that are drawn by chance. [`run_trial`] is the same over open files, [`TrialTask`] what it
//! is asked; [`run_trial_in_parts`] makes its runs in several threads at once. What the runs of other tables are made
//! of is there too: [`read_files`], [`cut_in_order`], [`degrees_of`], [`base_worth`].
#![tactic(auto)]

mod light;
mod parts;
mod reading;
mod serving;
mod table;
mod trial;

pub use buckfleet_engine_files::RunOnlooker;
pub use buckfleet_tasks::TrialTask;
pub use buckfleet_terms_files::TermsFault;
pub use buckfleet_trial_draws::Draws;
pub use light::{base_worth, cut_by_name, cut_in_order, degrees_of, least_of};
pub use parts::{joined, size_of};
pub use reading::{Opened, of_run, open_files, read_files};
pub use serving::serve_trial;
pub use table::{cost_of, open_line, put_first, put_line};
pub use trial::{Drawn, RunsMade, all_starts, made_in_parts, run_trial, run_trial_in_parts};
