//! Prepared commits, and why a plan is refused.
ghost use Rattle.std.specs.Prelude.{◌≡◌};
ghost use Rattle.std.specs.Option.{option_map};
ghost use Rattle.buck_book_postings.specs.declared.ready.Refusal.TheVariants.{Memory};
ghost use Rattle.buck_book_postings.specs.declared.ready.CutFault.TheVariants as cutting;

use buck_dp::Cutting;
use buck_record::Memory;
use buck_stem_shape::Stem;
use buck_value::Sheet;
use std::alloc::AllocError;
use std::fmt::{self, Debug, Formatter};
use std::marker::Model;
use std::sync::Arc;
use thiserror::Error;

/// All that the commit of one plan stores or hands out, made before the commit. Dropping it leaves the book as it is.
#[derive(Drop)]
pub struct Ready {
    pub(crate) stem: Arc<Stem>,
    pub(crate) cutting: Arc<Cutting>,
    pub(crate) next: Option<Arc<Sheet>>,
}

impl Model for Ready {
    ghost use Rattle.std.specs.Option.{option_map};
    ghost use Rattle.buck_book_postings.specs.Book.{ReadyParts};

    ghost Value = { ReadyParts };

    ghost view = { λ r. record {
      stem = r.stem.value;
      logs = r.cutting.value.logs.items;
      next = option_map (λ a. a.value) r.next;
    } };
}

impl Ready {
    /// The next sheet, if the commit ends a period.
    pub fn next_sheet(&self) -> Option<&Arc<Sheet>>
        ensures { option_map (λ a. a.now.value) result ≡ self.now.next }
    {
        self.next.as_ref()
    }
}

/// Why a plan is refused. The book is then as before.
#[derive(Drop, Error)]
pub enum Refusal {
    /// The history is at its capacity. It comes before `Stale`.
    #[error("the history is at its capacity")]
    Full,
    /// The plan was made under another sheet than the one in force, which is given back.
    #[error("the plan was made under another sheet than the one in force")]
    Stale { in_force: Arc<Sheet> },
    /// An allocation failed.
    #[error("out of memory")]
    Memory,
}

impl Debug for Refusal {
    fn fmt<W: fmt::Write>(&self, f: &mut Formatter<W>) -> fmt::Result {
        match self {
            Refusal::Full => f.write_str("Full"),
            Refusal::Stale { in_force } => write!(f, "Stale {{ version: {} }}", in_force.version()),
            Refusal::Memory => f.write_str("Memory"),
        }
    }
}

impl From<AllocError> for Refusal {
    ghost from_gives = { λ _ e. e ≡ Memory };

    fn from(_error: AllocError) -> Refusal {
        Refusal::Memory
    }
}

impl From<Memory> for Refusal {
    ghost from_gives = { λ _ e. e ≡ Memory };

    fn from(_error: Memory) -> Refusal {
        Refusal::Memory
    }
}

/// Why a stem wasn't cut, if its plan can't be stale. The history is then as before.
#[derive(Clone, Copy, PartialEq, Eq, Debug, Drop, Error)]
pub enum CutFault {
    /// The history is at its capacity.
    #[error("the history is at its capacity")]
    Full,
    /// An allocation failed.
    #[error("out of memory")]
    Memory,
}

impl From<AllocError> for CutFault {
    ghost from_gives = { λ _ e. e ≡ cutting.Memory };

    fn from(_error: AllocError) -> CutFault {
        CutFault::Memory
    }
}

impl From<Memory> for CutFault {
    ghost from_gives = { λ _ e. e ≡ cutting.Memory };

    fn from(_error: Memory) -> CutFault {
        CutFault::Memory
    }
}
