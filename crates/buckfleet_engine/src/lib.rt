//! Whole runs over files: stems that are bucked, fleets, checks and reports of journals.
#![tactic(auto)]

mod fleet;
mod run;

pub use buck_apt_instruction::Settings;
pub use buckfleet_engine_files::{EngineFault, status, write_fault};
pub use buckfleet_engine_input::{Input, read_input};
pub use buckfleet_engine_text::{TextFault, buck_text};
pub use buckfleet_tasks::{BuckTask, FleetTask, Order, Task};
pub use fleet::closed::{degree, report_text};
pub use fleet::running::run_fleet_files;
pub use fleet::serving::serve_fleet;
pub use fleet::turning::run_in_turn;
pub use run::bucking::{run_bare, run_buck};
pub use run::checking::run_check;
pub use run::parallel::{run_buck_in_parts, serve_buck};
pub use run::reporting::run_report;
pub use run::serving::{conclude, explain, serve};
