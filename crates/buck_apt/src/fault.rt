//! Why a file has no instruction.
ghost use Rattle.std.specs.Prelude.{◌≡◌, ◌∷◌, []};
ghost use Rattle.buck_apt.specs.Faults.{apt_numbers};
ghost use Rattle.buck_apt.specs.declared.fault.AptFault.TheVariants.{Memory, Head, Missing, Twice, Digits, Range, Order, Count};

use buck_record::{FaultNumbers, FormFault, Numbered, Slot};
use std::alloc::AllocError;
use thiserror::Error;

/// Why an instruction file is refused: the first refusal that applies, in this order, and within it the first item in
/// the order of the file's table. `number` and `kind` are those of the item's head, 0 to 65,535.
#[derive(Clone, Copy, Debug, PartialEq, Eq, Error)]
pub enum AptFault {
    /// The first item without a head of two numbers below 65,536: `item` counts from 1 in file order.
    #[error("item {item} has no head")]
    Head {
        item: usize,
    },
    /// The file doesn't say that it is an instruction.
    #[error("the file is not an instruction")]
    NotApt,
    /// The item of this number and kind must be there and isn't. If an item of an assortment stands before the first
    /// name, it is the name that is missing.
    #[error("item {number} {kind} is missing")]
    Missing {
        number: u16,
        kind: u16,
    },
    /// The item of this number and kind stands twice, in the file or in its assortment.
    #[error("item {number} {kind} stands twice")]
    Twice {
        number: u16,
        kind: u16,
    },
    /// A word of the item of this number and kind isn't a number below 4,294,967,296. `place` is the first such word,
    /// from 1.
    #[error("word {place} of item {number} {kind} is not a number")]
    Digits {
        number: u16,
        kind: u16,
        place: usize,
    },
    /// The item of this number and kind has a number outside its range, or is a name outside its rule.
    #[error("item {number} {kind} is out of range")]
    Range {
        number: u16,
        kind: u16,
    },
    /// The item of this number and kind is a list against its order.
    #[error("item {number} {kind} is out of order")]
    Order {
        number: u16,
        kind: u16,
    },
    /// The item of this number and kind has not as many numbers as it should have.
    #[error("item {number} {kind} has another count of numbers")]
    Count {
        number: u16,
        kind: u16,
    },
    /// This length, in mm, isn't a multiple of the module: the least such one of the first assortment that has one.
    #[error("length {length} is not a multiple of the module")]
    Module {
        length: u32,
    },
    /// The targets of the assortment at this index, from 0, are above 1,000,000,000 together.
    #[error("the targets of assortment {assortment} are too many")]
    Targets {
        assortment: usize,
    },
    /// An allocation failed. It may come in place of any answer.
    #[error("out of memory")]
    Memory,
}

impl From<AllocError> for AptFault {
    ghost from_gives = { λ _ e. e ≡ Memory };

    fn from(_e: AllocError) -> AptFault {
        AptFault::Memory
    }
}

impl FormFault for AptFault {
    ghost out_of_memory = { Memory };

    ghost headless = { Head };

    ghost missing = { Missing };

    ghost twice = { Twice };

    ghost digits = { Digits };

    ghost range = { Range };

    ghost order = { Order };

    ghost count = { Count };

    fn out_of_memory() -> AptFault {
        AptFault::Memory
    }

    fn headless(item: usize) -> AptFault {
        AptFault::Head { item }
    }

    fn missing(slot: Slot) -> AptFault {
        let Slot { number, kind, .. } = slot;
        AptFault::Missing { number, kind }
    }

    fn twice(slot: Slot) -> AptFault {
        let Slot { number, kind, .. } = slot;
        AptFault::Twice { number, kind }
    }

    fn digits(slot: Slot, place: usize) -> AptFault {
        let Slot { number, kind, .. } = slot;
        AptFault::Digits {
            number,
            kind,
            place,
        }
    }

    fn range(slot: Slot) -> AptFault {
        let Slot { number, kind, .. } = slot;
        AptFault::Range { number, kind }
    }

    fn order(slot: Slot) -> AptFault {
        let Slot { number, kind, .. } = slot;
        AptFault::Order { number, kind }
    }

    fn count(slot: Slot) -> AptFault {
        let Slot { number, kind, .. } = slot;
        AptFault::Count { number, kind }
    }
}

/// A fault's number, and the slot that it names.
fn at(fault: u64, number: u16, kind: u16) -> FaultNumbers
    ensures { result ≡ fault ∷ number ∷ kind ∷ [] }
{
    FaultNumbers::of(&[fault, u64::from(number), u64::from(kind)])
}

impl Numbered for AptFault {
    ghost numbers = { apt_numbers };

    fn numbers(&self) -> FaultNumbers {
        match self {
            AptFault::Head { item } => FaultNumbers::of(&[1, *item as u64]),
            AptFault::NotApt => FaultNumbers::of(&[2]),
            AptFault::Missing { number, kind } => at(3, *number, *kind),
            AptFault::Twice { number, kind } => at(4, *number, *kind),
            AptFault::Digits {
                number,
                kind,
                place,
            } => FaultNumbers::of(&[5, u64::from(*number), u64::from(*kind), *place as u64]),
            AptFault::Range { number, kind } => at(6, *number, *kind),
            AptFault::Order { number, kind } => at(7, *number, *kind),
            AptFault::Count { number, kind } => at(8, *number, *kind),
            AptFault::Module { length } => FaultNumbers::of(&[9, u64::from(*length)]),
            AptFault::Targets { assortment } => FaultNumbers::of(&[10, *assortment as u64]),
            AptFault::Memory => FaultNumbers::of(&[]),
        }
    }
}
