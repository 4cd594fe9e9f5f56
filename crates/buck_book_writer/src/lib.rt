//! The text of a journal.
#![tactic(auto)]

mod fours;
mod writing;

pub use buck_record::Memory;
pub use writing::journal_text;
