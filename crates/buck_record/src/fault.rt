//! Why a file has no items, or a text no numbers.
ghost use Rattle.std.specs.Prelude.{◌≡◌};
ghost use Rattle.buck_record.specs.declared.fault.RecordFault.TheVariants.{Memory};

use std::alloc::{AllocError, AllocFailed};
use thiserror::Error;

/// Why a file or a text of numbers is refused.
#[derive(Clone, Copy, Debug, PartialEq, Eq, Error)]
pub enum RecordFault {
    /// The item, from 1 in file order, is the first that does not begin with two numbers of at most 65,535.
    #[error("item {item} has no head")]
    Head { item: usize },
    /// The word, from 1, is the first that is no number, or one past the limit. If one number is asked for, place 1
    /// stands also for a text of no words, and place 2 for a second word.
    #[error("word {place} is not a number")]
    Digits { place: usize },
    /// An allocation failed. It comes in place of any other answer of a call that takes memory.
    #[error("out of memory")]
    Memory,
}

impl From<AllocError> for RecordFault {
    ghost from_gives = { λ _ e. e ≡ Memory };

    fn from(_e: AllocError) -> RecordFault {
        RecordFault::Memory
    }
}

impl<T: Drop> From<AllocFailed<T>> for RecordFault {
    ghost from_gives = { λ _ e. e ≡ Memory };

    fn from(_e: AllocFailed<T>) -> RecordFault {
        RecordFault::Memory
    }
}
