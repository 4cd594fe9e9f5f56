//! Prepared demands, and why new targets are refused.
ghost use Rattle.std.specs.Prelude.{◌≡◌};
ghost use Rattle.buck_book_postings.specs.declared.demand.DemandRefusal.TheVariants.{Memory};

use crate::targets::TargetsFault;
use buck_record::Memory;
use buck_value::Sheet;
use std::alloc::AllocError;
use std::marker::Model;
use std::sync::Arc;
use thiserror::Error;

/// All that the commit of one demand stores or hands out, made before the commit. Dropping it leaves the book as it is.
#[derive(Drop)]
pub struct ReadyDemand {
    pub(crate) stored: Arc<Vec<u32>>,
    pub(crate) in_force: Arc<Vec<u32>>,
    pub(crate) answered: Arc<Vec<u32>>,
    pub(crate) next: Arc<Sheet>,
}

impl Model for ReadyDemand {
    ghost use Rattle.std.specs.Prelude.{◌≡◌};
    ghost use Rattle.buck_book_postings.specs.Book.{ReadyDemandParts};

    ghost Value = { ReadyDemandParts };

    ghost view = { λ r. record { targets = r.stored.value.items; next = r.next.value } };

    ghost invariant = { λ r. (r.in_force.value.items ≡ r.stored.value.items)
        × (r.answered.value.items ≡ r.stored.value.items) };
}

impl ReadyDemand {
    /// The next sheet: a demand ends the running period.
    pub fn next_sheet(&self) -> &Arc<Sheet>
        ensures { result.now.value ≡ self.now.next }
    {
        &self.next
    }
}

/// Why new targets are refused. The book is then as before.
#[derive(Clone, Copy, Debug, PartialEq, Eq, Drop, Error)]
pub enum DemandRefusal {
    /// The history is at its capacity. It comes before `Targets`.
    #[error("the history is at its capacity")]
    Full,
    /// The targets aren't valid.
    #[error("{0}")]
    Targets(TargetsFault),
    /// An allocation failed.
    #[error("out of memory")]
    Memory,
}

impl From<AllocError> for DemandRefusal {
    ghost from_gives = { λ _ e. e ≡ Memory };

    fn from(_error: AllocError) -> DemandRefusal {
        DemandRefusal::Memory
    }
}

impl From<Memory> for DemandRefusal {
    ghost from_gives = { λ _ e. e ≡ Memory };

    fn from(_error: Memory) -> DemandRefusal {
        DemandRefusal::Memory
    }
}
