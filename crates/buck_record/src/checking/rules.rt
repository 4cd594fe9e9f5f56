//! What the readers of files share: items and numbers with faults of their own, and tests of numbers.
ghost use Rattle.std.specs.Prelude.{◌≡◌, ℕ};
ghost use Rattle.buck_record.specs.Reading.{Gives, IsMemory, with_fault};
ghost use Rattle.buck_record.specs.bytes.Record.{items_of};
ghost use Rattle.buck_record.specs.checking.Table.{only_in};
ghost use Rattle.buck_record.specs.checking.Rules.{NamesItem, numbers_in, within, all_within, one_to, all_in_range, counted_to, is_rising};

use crate::bytes::reading::{numbers, pieces, pieces_at};
use crate::checking::check::check;
use crate::checking::table::rest;
use crate::fault::RecordFault;
use crate::form::FormFault;
use crate::item::Piece;
use crate::listed::Listed;
use crate::slot;
use crate::slot::Slot;
use std::alloc::{AllocError, Global};

/// The slot of the item that says the kind of file.
pub const FILE: Slot = slot!(1, 2);

/// The items of a file's bytes, as [`pieces`] has them. Refused by the fault that is made of the place of the first
/// item, counted from 1, that has no head, or by that of a failed allocation.
pub fn items_in<'a, E: From<AllocError>, F: FnOnce(usize) -> E>(
    alloc: Global,
    bytes: &'a [u8],
    fault: F,
) -> Result<Listed<Piece<'a>>, E>
    requires { F.IsAlwaysCallable fault }
    ensures { (m : E) (f : ℕ → E) → IsMemory E.from_gives m → NamesItem (F.post fault) f
        → Gives m result (with_fault f (items_of bytes.now)) }
{
    match pieces(alloc, bytes) {
        Ok(found) => Ok(Listed::of(found)),
        Err(RecordFault::Head { item }) => Err(fault(item)),
        Err(_) => Err(E::from(AllocError)),
    }
}

/// The items of a file's bytes that stand in one of the slots, as [`pieces_at`] has them, with the faults of a form.
#[inline(always)]
pub fn items_at<'a, E: FormFault>(
    alloc: Global,
    bytes: &'a [u8],
    slots: &[Slot],
) -> Result<Listed<Piece<'a>>, E>
    ensures { Gives E.out_of_memory result (with_fault E.headless (only_in slots.now (items_of bytes.now))) }
{
    match pieces_at(alloc, bytes, slots) {
        Ok(found) => Ok(Listed::of(found)),
        Err(RecordFault::Head { item }) => Err(E::headless(item)),
        Err(_) => Err(E::out_of_memory()),
    }
}

/// The numbers of the first item in a slot, as [`numbers`] has them, and none if no item stands there. Refused by
/// the fault that names the slot and the place of the first word, counted from 1, that is no number, or by that of a
/// failed allocation.
#[tactic(auto, unfolding(crate::specs::checking::Rules::numbers_in))]
pub fn numbers_in<'a, E: FormFault>(
    alloc: Global,
    slot: Slot,
    items: &'a [Piece<'a>],
) -> Result<Listed<u32>, E>
    ensures { Gives E.out_of_memory result (numbers_in E.digits slot items.now) }
{
    match numbers(alloc, rest(items, slot)) {
        Ok(found) => Ok(Listed::of(found)),
        Err(RecordFault::Digits { place }) => Err(E::digits(slot, place)),
        Err(_) => Err(E::out_of_memory()),
    }
}

/// The number is from `low` to `high`.
pub fn within(low: usize, high: usize, n: usize) -> bool
    ensures { result ≡ within low high n }
{
    low <= n && n <= high
}

/// Each number is from `low` to `high`. No way leads out of the loop, so that several are compared at once.
pub fn all_within(low: u32, high: u32, numbers: &[u32]) -> bool
    ensures { result ≡ all_within low high numbers.now }
{
    let mut fits = true;
    for number in numbers {
        if !(low <= *number && *number <= high) {
            fits = false;
        }
    }
    fits
}

/// There is one, and there are at most `most`.
pub fn one_to(most: usize, n: usize) -> bool
    ensures { result ≡ one_to most n }
{
    within(1, most, n)
}

/// The fault of a slot, if one of its numbers is out of its range.
pub fn all_in_range<E: FormFault>(slot: Slot, numbers: &[u32]) -> Result<(), E>
    ensures { result ≡ all_in_range E.range slot numbers.now }
{
    check(all_within(slot.low, slot.high, numbers), E::range(slot))
}

/// The fault of a slot, if it has no number or more than `most`.
pub fn counted_to<E: FormFault>(slot: Slot, most: usize, numbers: &[u32]) -> Result<(), E>
    ensures { result ≡ counted_to E.count slot most numbers.now }
{
    check(one_to(most, numbers.len()), E::count(slot))
}

/// Each number is below the next.
#[tactic(auto, using(crate::proofs::RuleLemmas::is_rising_end))]
pub fn is_rising(numbers: &[u32]) -> bool
    ensures { result ≡ is_rising numbers.now }
{
    for i in 1..numbers.len() {
        if numbers[i] <= numbers[i - 1] {
            return false;
        }
    }
    true
}
