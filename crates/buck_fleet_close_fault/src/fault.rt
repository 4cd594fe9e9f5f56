//! The fault of a fleet that doesn't close well.
ghost use Rattle.buck_fleet_close_fault.specs.Faults.{close_numbers};

use buck_record::{FaultNumbers, Numbered};
use thiserror::Error;

/// Why a fleet doesn't close well.
#[derive(Clone, Copy, PartialEq, Eq, Debug, Drop, Error)]
pub enum CloseFault {
    /// The book's instruction isn't the fleet's.
    #[error("the instruction is another")]
    Instruction,
    /// A harvester's postings with their positions and its kept list differ at this number, from 1. No lower
    /// harvester's do, and this one's don't at a lower number.
    #[error("the calls of harvester {harvester} differ at number {number}")]
    Calls { harvester: u32, number: u32 },
}

impl Numbered for CloseFault {
    ghost numbers = { close_numbers };

    fn numbers(&self) -> FaultNumbers {
        match self {
            CloseFault::Instruction => FaultNumbers::of(&[1]),
            CloseFault::Calls { harvester, number } => FaultNumbers::of(&[
                2,
                u64::from(*harvester),
                u64::from(*number),
            ]),
        }
    }
}
