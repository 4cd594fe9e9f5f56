//! The book of one thread, and its journal: histories of cuts and demands, as text and replayed.
//!
//! What is here stands in crates below, so a change of the journal's text or its replay costs the book no proof.
#![tactic(auto)]

pub mod laws;

pub use buck_book_journal::{ITEMS, Journal, JournalFault, ReplayFault, slots};
pub use buck_book_postings::{
    Book, CutFault, Demand, DemandRefusal, Entry, Kept, MOST_POSTINGS, Memory, Parts, Plan,
    Posting, Ready, ReadyDemand, Refusal, TargetsFault, Walk, check_targets, degree_at,
};
pub use buck_book_reader::{read_journal, read_journal_in_parts};
pub use buck_book_replay::{Stop, replay, replay_in_order, replay_in_parts, replay_to_end};
pub use buck_book_writer::journal_text;
