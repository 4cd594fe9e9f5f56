//! How a page begins, and its sections in words and tables.
#![tactic(auto)]

mod degrees;
mod harvesters;
mod head;
mod lacking;
mod list;
mod notes;
mod opening;
mod rates;
mod style;
mod targets;
mod wood;

pub use degrees::{is_steered, write_degrees};
pub use harvesters::{write_costs, write_harvesters};
pub use head::{Files, PAGE_END, SIGN, begin_page};
pub use lacking::write_lacking;
pub use notes::write_notes;
pub use opening::write_opening;
pub use rates::mean_log;
pub use targets::write_targets;
pub use wood::write_wood_section;
