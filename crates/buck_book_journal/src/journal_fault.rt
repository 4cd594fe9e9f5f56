//! Why a file has no journal.
ghost use Rattle.std.specs.Prelude.{◌≡◌};
ghost use Rattle.buck_book_journal.specs.Faults.{journal_numbers};
ghost use Rattle.buck_book_journal.specs.declared.journal_fault.JournalFault.TheVariants.{Memory};

use buck_record::{FaultNumbers, Numbered};
use std::alloc::{AllocError, AllocFailed};
use thiserror::Error;

/// Why a journal file is refused: the first refusal that applies to its bytes. Items of the file count from 1. `Head`
/// and `NotJournal` come first; then the least item that has `Shape`, `Digits`, `Count` or `Range`, and on it the first
/// of these.
#[derive(Clone, Copy, Debug, PartialEq, Eq, Error)]
pub enum JournalFault {
    /// The least item, from 1, without a number and a kind.
    #[error("item {item} has no head")]
    Head { item: usize },
    /// The first item isn't `1 2` with `JRN`.
    #[error("the file is not a journal")]
    NotJournal,
    /// The item, from 1, isn't the one that the sequence wants there. An end in the middle of a posting is at the item
    /// after the last.
    #[error("item {item} is not the one that is wanted there")]
    Shape { item: usize },
    /// A word of the item, from 1, isn't a number.
    #[error("a word of item {item} is not a number")]
    Digits { item: usize },
    /// The item, from 1, has not as many numbers as it should have, or begins a 1,000,001st posting.
    #[error("item {item} has another count of numbers, or begins one posting too many")]
    Count { item: usize },
    /// The item, from 1, has a number out of range, or zones against their order.
    #[error("a number of item {item} is out of range or of order")]
    Range { item: usize },
    /// An allocation failed.
    #[error("out of memory")]
    Memory,
}

impl From<AllocError> for JournalFault {
    ghost from_gives = { λ _ e. e ≡ Memory };

    fn from(_e: AllocError) -> JournalFault {
        JournalFault::Memory
    }
}

impl<T: Drop> From<AllocFailed<T>> for JournalFault {
    ghost from_gives = { λ _ e. e ≡ Memory };

    fn from(_e: AllocFailed<T>) -> JournalFault {
        JournalFault::Memory
    }
}

impl Numbered for JournalFault {
    ghost numbers = { journal_numbers };

    fn numbers(&self) -> FaultNumbers {
        match self {
            JournalFault::Head { item } => FaultNumbers::of(&[1, *item as u64]),
            JournalFault::NotJournal => FaultNumbers::of(&[2]),
            JournalFault::Shape { item } => FaultNumbers::of(&[3, *item as u64]),
            JournalFault::Digits { item } => FaultNumbers::of(&[4, *item as u64]),
            JournalFault::Count { item } => FaultNumbers::of(&[5, *item as u64]),
            JournalFault::Range { item } => FaultNumbers::of(&[6, *item as u64]),
            JournalFault::Memory => FaultNumbers::of(&[]),
        }
    }
}
