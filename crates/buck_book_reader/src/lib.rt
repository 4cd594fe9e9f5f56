//! Journals from their bytes, or the first refusal.
#![tactic(auto)]

mod items;
mod journal;
mod listed;
mod lists;
mod made;
mod parallel;
mod parts;
mod plain;
mod postings;

pub use journal::{read_journal, read_journal_in_parts};
