//! Why files beside an instruction are refused.
ghost use Rattle.std.specs.Prelude.{◌≡◌};
ghost use Rattle.buckfleet_engine_files.specs.Faults.{status_or};
ghost use Rattle.buckfleet_terms_files.specs.Faults.{no_memory, of_targets, own_numbers, targets_numbers, terms_status};
ghost use Rattle.buckfleet_terms_files.specs.declared.fault.TargetsFault.TheVariants.{Memory};
ghost use Rattle.buckfleet_terms_files.specs.declared.fault.TermsFault.TheVariants.{Run};

use buck_apt::AptFault;
use buck_record::{FaultNumbers, Memory, Numbered};
use buckfleet_engine_files::EngineFault;
use std::alloc::{AllocError, AllocFailed};
use thiserror::Error;

/// Why a file of targets is refused: the first refusal that applies, `Head`, else `Digits`, else the least number.
#[derive(Clone, Copy, Debug, PartialEq, Eq, Error)]
pub enum TargetsFault {
    /// There isn't one list of targets for each assortment, with one number for each class.
    #[error("there is not one target for each class")]
    Count,
    /// The target of this class, counted from 0, is above 1,000,000; none before it is.
    #[error("the target of class {at} is above 1000000")]
    Range { at: usize },
    /// The targets of this assortment, counted from 0, are together above 1,000,000,000; those of none before it are.
    #[error("the targets of assortment {assortment} are together above 1000000000")]
    Sum { assortment: usize },
    /// This item, counted from 1, is the first without a head of two numbers below 65,536.
    #[error("item {item} has no head")]
    Head { item: usize },
    /// In this list of targets, counted from 0, the word at this place, counted from 1, isn't a number below
    /// 4,294,967,296. It is the first in the file.
    #[error("word {place} of list {list} is not a number")]
    Digits { list: usize, place: usize },
    /// An allocation failed. It may come in place of any answer.
    #[error("out of memory")]
    Memory,
}

impl From<AllocError> for TargetsFault {
    ghost from_gives = { λ _ e. e ≡ Memory };

    fn from(_e: AllocError) -> TargetsFault {
        TargetsFault::Memory
    }
}

impl<T: Drop> From<AllocFailed<T>> for TargetsFault {
    ghost from_gives = { λ _ e. e ≡ Memory };

    fn from(_e: AllocFailed<T>) -> TargetsFault {
        TargetsFault::Memory
    }
}

impl Numbered for TargetsFault {
    ghost numbers = { targets_numbers };

    fn numbers(&self) -> FaultNumbers {
        match self {
            TargetsFault::Count => FaultNumbers::of(&[1]),
            TargetsFault::Range { at } => FaultNumbers::of(&[2, *at as u64]),
            TargetsFault::Sum { assortment } => FaultNumbers::of(&[3, *assortment as u64]),
            TargetsFault::Head { item } => FaultNumbers::of(&[4, *item as u64]),
            TargetsFault::Digits { list, place } => {
                FaultNumbers::of(&[5, *list as u64, *place as u64])
            }
            TargetsFault::Memory => FaultNumbers::of(&[]),
        }
    }
}

/// Why an owner's instruction is refused.
#[derive(Clone, Copy, Debug, PartialEq, Eq, Error)]
pub enum OwnFault {
    /// Its bytes are refused.
    #[error("the owner's instruction is refused: {0}")]
    Refused(AptFault),
    /// The item of this number and kind, each 0 to 65,535, isn't that of the other instruction.
    #[error("item {number} {kind} is another")]
    Whole {
        number: u16,
        kind: u16,
    },
    /// The item of this number and kind of the assortment at this index, from 0, isn't that of the other instruction.
    #[error("item {number} {kind} of assortment {assortment} is another")]
    Part {
        number: u16,
        kind: u16,
        assortment: usize,
    },
}

impl Numbered for OwnFault {
    ghost numbers = { own_numbers };

    fn numbers(&self) -> FaultNumbers {
        match self {
            OwnFault::Refused(fault) => fault.numbers(),
            OwnFault::Whole { number, kind } => {
                FaultNumbers::of(&[11, u64::from(*number), u64::from(*kind)])
            }
            OwnFault::Part {
                number,
                kind,
                assortment,
            } => {
                let numbers = [12, u64::from(*number), u64::from(*kind), *assortment as u64];
                FaultNumbers::of(&numbers)
            }
        }
    }
}

/// Why a run over such files gave no answer.
#[derive(Clone, Copy, Debug, PartialEq, Eq, Error)]
pub enum TermsFault {
    /// As any run may fail.
    #[error("{0}")]
    Run(EngineFault),
    /// The file of targets is refused.
    #[error("the targets are refused: {0}")]
    Targets(TargetsFault),
    /// The owner's instruction is refused.
    #[error("the owner's instruction is refused: {0}")]
    Own(OwnFault),
}

impl From<EngineFault> for TermsFault {
    ghost from_gives = { λ fault e. e ≡ Run fault };

    fn from(fault: EngineFault) -> TermsFault {
        TermsFault::Run(fault)
    }
}

impl From<Memory> for TermsFault {
    ghost from_gives = { λ _ e. e ≡ no_memory };

    fn from(_e: Memory) -> TermsFault {
        TermsFault::Run(EngineFault::Memory)
    }
}

impl From<AllocError> for TermsFault {
    ghost from_gives = { λ _ e. e ≡ no_memory };

    fn from(_e: AllocError) -> TermsFault {
        TermsFault::Run(EngineFault::Memory)
    }
}

impl<T: Drop> From<AllocFailed<T>> for TermsFault {
    ghost from_gives = { λ _ e. e ≡ no_memory };

    fn from(_e: AllocFailed<T>) -> TermsFault {
        TermsFault::Run(EngineFault::Memory)
    }
}

impl From<TargetsFault> for TermsFault {
    ghost from_gives = { λ fault e. e ≡ of_targets fault };

    fn from(fault: TargetsFault) -> TermsFault {
        match fault {
            TargetsFault::Memory => TermsFault::Run(EngineFault::Memory),
            _ => TermsFault::Targets(fault),
        }
    }
}

/// The status of a file that is refused, and 3 if memory ran out in the place of a refusal.
fn status_or_memory<F: Numbered>(fault: &F) -> u8
    ensures { result ≡ status_or 1 (F.numbers fault.now) }
{
    match fault.numbers().as_slice() {
        [] => 3,
        [_, ..] => 1,
    }
}

/// The exit status of the program after a fault: 1 if a file beside an instruction is refused, and else as after any
/// run; see [`status`](buckfleet_engine_files::status).
pub fn status(fault: &TermsFault) -> u8
    ensures { result ≡ terms_status fault.now }
{
    match fault {
        TermsFault::Run(fault) => buckfleet_engine_files::status(fault),
        TermsFault::Targets(fault) => status_or_memory(fault),
        TermsFault::Own(fault) => status_or_memory(fault),
    }
}
