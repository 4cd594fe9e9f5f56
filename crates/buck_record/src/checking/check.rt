//! Checks one after the other: the first that fails is the answer.
ghost use Rattle.std.specs.Prelude.{◌≡◌, ◌==◌, nat_lt};
ghost use Rattle.std.specs.List.{list_all};
ghost use Rattle.buck_record.specs.checking.Check.{check, none_of, ChecksEach, MakesEach};
ghost use Rattle.buck_record.specs.checking.Table.{count_in, first_missing, first_twice};

use crate::checking::table::{count, missing, twice};
use crate::form::FormFault;
use crate::item::Piece;
use crate::listed::Listed;
use crate::slot::Slot;
use std::alloc::{AllocError, Global};

/// Nothing if the test holds, and else the fault.
pub fn check<E: Drop>(holds: bool, fault: E) -> Result<(), E>
    ensures { result ≡ check holds fault }
{
    if holds { Ok(()) } else { Err(fault) }
}

/// The fault of the first of the slots that has no item.
pub fn all_there<E: FormFault>(slots: &[Slot], items: &[Piece<'_>]) -> Result<(), E>
    ensures { result ≡ none_of (first_missing slots.now items.now) E.missing }
{
    match missing(items, slots) {
        None => Ok(()),
        Some(slot) => Err(E::missing(slot)),
    }
}

/// The fault of the first of the slots that has more than one item.
pub fn all_single<E: FormFault>(slots: &[Slot], items: &[Piece<'_>]) -> Result<(), E>
    ensures { result ≡ none_of (first_twice slots.now items.now) E.twice }
{
    match twice(items, slots) {
        None => Ok(()),
        Some(slot) => Err(E::twice(slot)),
    }
}

/// The fault of the first element that has one, by the check that the closure answers, or nothing.
pub fn each<T, E, F: Fn(&T) -> Result<(), E>>(xs: &[T], f: F) -> Result<(), E>
    requires { F.IsAlwaysCallable f }
    ensures { ChecksEach (F.post f) xs.now result }
{
    for x in xs {
        f(x)?;
    }
    Ok(())
}

/// Collects the results of a closure for each element, in order, or the fault of the first element that it refuses; or
/// the fault of a failed allocation.
pub fn make_each<T, U: Drop, E: From<AllocError>, F: Fn(&T) -> Result<U, E>>(
    alloc: Global,
    xs: &[T],
    f: F,
) -> Result<Listed<U>, E>
    requires { F.IsAlwaysCallable f }
    ensures { MakesEach E.from_gives (F.post f) xs.now result }
{
    let mut made = Vec::with_capacity(alloc, xs.len())?;
    for x in xs {
        let Ok(()) = made.push(f(x)?) else {
            return Err(E::from(AllocError));
        };
    }
    Ok(Listed::of(made))
}

/// Whether an item stands in the slot.
pub fn is_there(items: &[Piece<'_>], slot: Slot) -> bool
    ensures { result ≡ nat_lt 0 (count_in slot items.now) }
{
    count(items, slot) > 0
}

/// Whether no item stands in any of the slots.
pub fn all_absent(slots: &[Slot], items: &[Piece<'_>]) -> bool
    ensures { result ≡ list_all (λ s. count_in s items.now == 0) slots.now }
{
    slots.iter().all(|slot| count(items, *slot) == 0)
}
