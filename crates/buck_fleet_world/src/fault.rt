//! Why an event is refused.
ghost use Rattle.std.specs.Prelude.{◌≡◌};
ghost use Rattle.buck_fleet_world.specs.declared.fault.StepFault.TheVariants.{Memory};

use buck_book_postings::{DemandRefusal, Refusal, TargetsFault};
use buck_record::Memory;
use std::alloc::AllocError;
use thiserror::Error;

/// Why an event is refused. The world is then as before.
#[derive(Clone, Copy, Debug, PartialEq, Eq, Drop, Error)]
pub enum StepFault {
    /// The event isn't allowed where it stands: no such harvester, or no case of it holds.
    #[error("the event is not allowed here")]
    NotAllowed,
    /// The event is allowed and would try to add a posting, and the history is at its capacity. It comes before a stale
    /// attempt and before `Targets`.
    #[error("the history is at its capacity")]
    Full,
    /// An allocation failed.
    #[error("out of memory")]
    Memory,
    /// The event is allowed below the capacity, and its targets aren't valid.
    #[error("{0}")]
    Targets(TargetsFault),
}

impl From<AllocError> for StepFault {
    ghost from_gives = { λ _ e. e ≡ Memory };

    fn from(_error: AllocError) -> StepFault {
        StepFault::Memory
    }
}

impl From<Memory> for StepFault {
    ghost from_gives = { λ _ e. e ≡ Memory };

    fn from(_error: Memory) -> StepFault {
        StepFault::Memory
    }
}
