//! Why a file has no stems.
ghost use Rattle.std.specs.Prelude.{◌≡◌, ◌∷◌, []};
ghost use Rattle.buck_stem.specs.Faults.{stm_numbers};
ghost use Rattle.buck_stem.specs.declared.fault.StmFault.TheVariants.{Memory, Head, Missing, Twice, Digits, Range, Order, Count};

use buck_record::{FaultNumbers, FormFault, Numbered, Slot};
use std::alloc::{AllocError, AllocFailed};
use thiserror::Error;

/// Why a stem file is refused: the first refusal that applies to its bytes, in this order, and within it the first item
/// in the order of the file's table. `number` and `kind` are those of the item's head, 0 to 65,535.
#[derive(Clone, Copy, Debug, PartialEq, Eq, Error)]
pub enum StmFault {
    /// The first item without a head of two numbers below 65,536: `item` counts from 1 in file order.
    #[error("item {item} has no head")]
    Head {
        item: usize,
    },
    /// There is no item `1 2`, or the first one doesn't say `STM`.
    #[error("the file is not one of stems")]
    NotStm,
    /// The item of this number and kind must be there and isn't. If an item of a stem stands before the first stem
    /// number, it is that number, `951 1`, that is missing.
    #[error("item {number} {kind} is missing")]
    Missing {
        number: u16,
        kind: u16,
    },
    /// The item of this number and kind stands twice, in the file or in its stem.
    #[error("item {number} {kind} stands twice")]
    Twice {
        number: u16,
        kind: u16,
    },
    /// A word of the item of this number and kind isn't a number below 4,294,967,296. `place` is the first such word,
    /// from 1.
    #[error("word {place} of item {number} {kind} is not a number")]
    Digits {
        number: u16,
        kind: u16,
        place: usize,
    },
    /// The item of this number and kind has a number outside its range.
    #[error("a number of item {number} {kind} is out of range")]
    Range {
        number: u16,
        kind: u16,
    },
    /// The item of this number and kind is a list against its order.
    #[error("item {number} {kind} is out of order")]
    Order {
        number: u16,
        kind: u16,
    },
    /// The item of this number and kind has not as many numbers as it should have.
    #[error("item {number} {kind} has another count of numbers")]
    Count {
        number: u16,
        kind: u16,
    },
    /// An allocation failed.
    #[error("out of memory")]
    Memory,
}

impl From<AllocError> for StmFault {
    ghost from_gives = { λ _ e. e ≡ Memory };

    fn from(_e: AllocError) -> StmFault {
        StmFault::Memory
    }
}

impl<T: Drop> From<AllocFailed<T>> for StmFault {
    ghost from_gives = { λ _ e. e ≡ Memory };

    fn from(_e: AllocFailed<T>) -> StmFault {
        StmFault::Memory
    }
}

impl FormFault for StmFault {
    ghost out_of_memory = { Memory };

    ghost headless = { Head };

    ghost missing = { Missing };

    ghost twice = { Twice };

    ghost digits = { Digits };

    ghost range = { Range };

    ghost order = { Order };

    ghost count = { Count };

    fn out_of_memory() -> StmFault {
        StmFault::Memory
    }

    fn headless(item: usize) -> StmFault {
        StmFault::Head { item }
    }

    fn missing(slot: Slot) -> StmFault {
        let Slot { number, kind, .. } = slot;
        StmFault::Missing { number, kind }
    }

    fn twice(slot: Slot) -> StmFault {
        let Slot { number, kind, .. } = slot;
        StmFault::Twice { number, kind }
    }

    fn digits(slot: Slot, place: usize) -> StmFault {
        let Slot { number, kind, .. } = slot;
        StmFault::Digits {
            number,
            kind,
            place,
        }
    }

    fn range(slot: Slot) -> StmFault {
        let Slot { number, kind, .. } = slot;
        StmFault::Range { number, kind }
    }

    fn order(slot: Slot) -> StmFault {
        let Slot { number, kind, .. } = slot;
        StmFault::Order { number, kind }
    }

    fn count(slot: Slot) -> StmFault {
        let Slot { number, kind, .. } = slot;
        StmFault::Count { number, kind }
    }
}

/// A fault's number, and the slot that it names.
fn at(fault: u64, number: u16, kind: u16) -> FaultNumbers
    ensures { result ≡ fault ∷ number ∷ kind ∷ [] }
{
    FaultNumbers::of(&[fault, u64::from(number), u64::from(kind)])
}

impl Numbered for StmFault {
    ghost numbers = { stm_numbers };

    fn numbers(&self) -> FaultNumbers {
        match self {
            StmFault::Head { item } => FaultNumbers::of(&[1, *item as u64]),
            StmFault::NotStm => FaultNumbers::of(&[2]),
            StmFault::Missing { number, kind } => at(3, *number, *kind),
            StmFault::Twice { number, kind } => at(4, *number, *kind),
            StmFault::Digits {
                number,
                kind,
                place,
            } => FaultNumbers::of(&[5, u64::from(*number), u64::from(*kind), *place as u64]),
            StmFault::Range { number, kind } => at(6, *number, *kind),
            StmFault::Order { number, kind } => at(7, *number, *kind),
            StmFault::Count { number, kind } => at(8, *number, *kind),
            StmFault::Memory => FaultNumbers::of(&[]),
        }
    }
}
