//! The texts of stems that are bucked, and of a history's report; there is one text of each.
#![tactic(auto)]

mod bucking;
mod fault;
pub mod laws;
mod report;

pub use bucking::{buck_text, buck_text_in_parts, put_logs, put_stem};
pub use fault::TextFault;
pub use report::{Ending, put_posting, report_of, report_with};
