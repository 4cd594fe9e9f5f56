//! Journals that are shown: their page, or a table.
#![tactic(auto)]

mod showing;
mod viewing;

pub use buck_apt_instruction::Settings;
pub use buck_page::Files;
pub use buck_page_tables::Table;
pub use buckfleet_tasks::{Shown, ViewTask};
pub use showing::serve_view;
pub use viewing::{run_table, run_view};
