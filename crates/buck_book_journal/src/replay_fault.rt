//! Why a journal isn't lawful.
ghost use Rattle.std.specs.Prelude.{◌≡◌};
ghost use Rattle.buck_book_journal.specs.Faults.{replay_numbers};
ghost use Rattle.buck_book_journal.specs.declared.replay_fault.ReplayFault.TheVariants.{Memory};

use buck_record::{FaultNumbers, Numbered};
use std::alloc::AllocError;
use thiserror::Error;

/// Why a journal isn't lawful: the first fault in the order of its postings. Versions and places of postings and of
/// classes count from 0. Before a posting that begins a period stand `Sheet` and `Price` of the sheet in force there;
/// then of the posting `Numbering`, `Version`, and of a cut `Cutting`, `Worth`, `Outvalued`, of a demand `Targets`.
/// After the last posting stand `Sheet` of a missing or surplus sheet, and `Sheet` and `Price` of a sheet that no
/// posting was planned under.
#[derive(Clone, Copy, Debug, PartialEq, Eq, Error)]
pub enum ReplayFault {
    /// The sheet of this version, from 0, isn't there, doesn't have one price for each class, or is the first too many.
    #[error("sheet {version} is not there, not complete, or one too many")]
    Sheet { version: u32 },
    /// The price of this class, from 0, in the sheet of this version doesn't keep the price relation; those of the
    /// classes before it do.
    #[error("the price of class {class} in sheet {version} is against the price relation")]
    Price { version: u32, class: usize },
    /// The number of the posting at this index, from 0, isn't its harvester's next one.
    #[error("posting {at} does not have its harvester's next number")]
    Numbering { at: usize },
    /// The version of the posting at this index, from 0, isn't the one in force.
    #[error("posting {at} does not have the version in force")]
    Version { at: usize },
    /// The logs of the cut at this index, from 0, aren't an admissible cutting.
    #[error("the cutting of posting {at} is not admissible")]
    Cutting { at: usize },
    /// The worth of the cut at this index, from 0, isn't that of its logs.
    #[error("the worth of posting {at} is not that of its logs")]
    Worth { at: usize },
    /// Some admissible list of logs is worth more than those of the cut at this index, from 0.
    #[error("the cutting of posting {at} is outvalued")]
    Outvalued { at: usize },
    /// An allocation failed.
    #[error("out of memory")]
    Memory,
    /// The targets of the demand at this index, from 0, aren't valid.
    #[error("the targets of posting {at} are not valid")]
    Targets { at: usize },
}

impl From<AllocError> for ReplayFault {
    ghost from_gives = { λ _ e. e ≡ Memory };

    fn from(_e: AllocError) -> ReplayFault {
        ReplayFault::Memory
    }
}

impl From<buck_record::Memory> for ReplayFault {
    ghost from_gives = { λ _ e. e ≡ Memory };

    fn from(_e: buck_record::Memory) -> ReplayFault {
        ReplayFault::Memory
    }
}

impl Numbered for ReplayFault {
    ghost numbers = { replay_numbers };

    fn numbers(&self) -> FaultNumbers {
        match self {
            ReplayFault::Sheet { version } => FaultNumbers::of(&[1, u64::from(*version)]),
            ReplayFault::Price { version, class } => FaultNumbers::of(&[
                2,
                u64::from(*version),
                *class as u64,
            ]),
            ReplayFault::Numbering { at } => FaultNumbers::of(&[3, *at as u64]),
            ReplayFault::Version { at } => FaultNumbers::of(&[4, *at as u64]),
            ReplayFault::Cutting { at } => FaultNumbers::of(&[5, *at as u64]),
            ReplayFault::Worth { at } => FaultNumbers::of(&[6, *at as u64]),
            ReplayFault::Outvalued { at } => FaultNumbers::of(&[7, *at as u64]),
            ReplayFault::Memory => FaultNumbers::of(&[]),
            ReplayFault::Targets { at } => FaultNumbers::of(&[9, *at as u64]),
        }
    }
}
