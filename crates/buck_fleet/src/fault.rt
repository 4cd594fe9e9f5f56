//! Why the calls of a seat are refused. The history and the kept list are then as before.
ghost use Rattle.std.specs.Prelude.{◌≡◌};
ghost use Rattle.buck_fleet.specs.Refused.{stop_of, retarget_fault_of};

use buck_book_postings::{CutFault, DemandRefusal, Plan, TargetsFault};
use buck_value::Sheet;
use std::fmt::{self, Debug, Formatter};
use std::sync::Arc;
use thiserror::Error;

/// Why a caller's plan wasn't committed. It is given back.
#[derive(Drop, Error)]
pub enum TryFault {
    /// The history is at its capacity.
    #[error("the history is at its capacity")]
    Full { plan: Plan },
    /// The plan was made under another sheet than the one in force.
    #[error("the plan was made under another sheet than the one in force")]
    Stale { in_force: Arc<Sheet>, plan: Plan },
    /// An allocation failed.
    #[error("out of memory")]
    Memory { plan: Plan },
}

impl Debug for TryFault {
    fn fmt<W: fmt::Write>(&self, f: &mut Formatter<W>) -> fmt::Result {
        match self {
            TryFault::Full { .. } => f.write_str("Full"),
            TryFault::Stale { in_force, .. } => {
                write!(f, "Stale {{ version: {} }}", in_force.version())
            }
            TryFault::Memory { .. } => f.write_str("Memory"),
        }
    }
}

/// Why a harvester stopped before the end of its list.
#[derive(Clone, Copy, PartialEq, Eq, Debug, Drop, Error)]
pub enum RunFault {
    /// The history is at its capacity.
    #[error("the history is at its capacity")]
    Full,
    /// An allocation failed.
    #[error("out of memory")]
    Memory,
}

impl From<CutFault> for RunFault {
    ghost from_gives = { λ it e. e ≡ stop_of it };

    fn from(fault: CutFault) -> RunFault {
        match fault {
            CutFault::Full => RunFault::Full,
            CutFault::Memory => RunFault::Memory,
        }
    }
}

/// Why new targets weren't put in force.
#[derive(Clone, Copy, PartialEq, Eq, Debug, Drop, Error)]
pub enum RetargetFault {
    /// The history is at its capacity. It comes before `Targets`.
    #[error("the history is at its capacity")]
    Full,
    /// The targets aren't valid.
    #[error("{0}")]
    Targets(TargetsFault),
    /// An allocation failed.
    #[error("out of memory")]
    Memory,
}

impl From<DemandRefusal> for RetargetFault {
    ghost from_gives = { λ it e. e ≡ retarget_fault_of it };

    fn from(refusal: DemandRefusal) -> RetargetFault {
        match refusal {
            DemandRefusal::Full => RetargetFault::Full,
            DemandRefusal::Targets(fault) => RetargetFault::Targets(fault),
            DemandRefusal::Memory => RetargetFault::Memory,
        }
    }
}
