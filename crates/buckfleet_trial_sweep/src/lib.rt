//! What a rule, a period and a limit come to on the same stems: a table with a line for each combination of them.
//!
//! [`combinations`] says which runs a table has. [`run_sweep`] makes it from the bytes of an instruction file and stem
//! files, [`run_sweep_in_parts`] with the runs in several threads at once, and [`serve_sweep`] is a whole run, by its
//! [`SweepTask`].
#![tactic(auto)]

mod cutting;
mod figures;
mod running;
mod serving;
mod table;

pub use buck_apt_instruction::Settings;
pub use buckfleet_tasks::{Combination, SweepTask, combinations};
pub use cutting::run_line;
pub use running::{run_sweep, run_sweep_in_parts};
pub use serving::serve_sweep;
pub use table::put_head;
