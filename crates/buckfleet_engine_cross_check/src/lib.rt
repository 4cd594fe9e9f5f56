//! A check of a journal that holds it against stem files and a price rule.
#![tactic(auto)]

mod comparing;
mod lists;
mod prices;
mod running;
mod serving;

pub use buckfleet_tasks::{CheckTask, CrossCheck};
pub use running::run_check_with;
pub use serving::serve_check;
