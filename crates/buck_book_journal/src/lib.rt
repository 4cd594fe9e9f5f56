//! Journals of a history: what one holds, the items of its text, and what a reader and a replay find wrong with it.
#![tactic(auto)]

mod call;
mod described;
mod journal;
mod journal_fault;
mod replay_fault;
pub mod slots;

pub use call::Call;
pub use described::ITEMS;
pub use journal::Journal;
pub use journal_fault::JournalFault;
pub use replay_fault::ReplayFault;
