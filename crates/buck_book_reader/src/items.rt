//! The items of a journal, one by one: each is read by its place, which counts from 1, and by what stands there.
ghost use Rattle.std.specs.Prelude.{◌≡◌, ◌<◌, OnOk, option_map};
ghost use Rattle.buck_record.specs.checking.Table.{is_at};
ghost use Rattle.buck_record.specs.Reading.{Gives};
ghost use Rattle.buck_book_journal.specs.declared.journal_fault.JournalFault.TheVariants.{Memory};
ghost use Rattle.buck_book_journal.specs.Reading.{numbers_at, call_at, worth_at, is_first, follows};

use crate::lists::call_in;
use buck_book_journal::slots::{CUT, DEMAND, WORTH};
use buck_book_journal::{Call, JournalFault};
use buck_book_postings::MOST_POSTINGS;
use buck_record::check::check;
use buck_record::{Listed, Piece, RecordFault, Slot, numbers, wide};
use std::alloc::{AllocError, Global};

/// Whether an item stands in a slot.
pub(crate) fn is_at(item: &Piece<'_>, slot: Slot) -> bool
    ensures { result ≡ is_at slot item.now }
{
    item.number == slot.number && item.kind == slot.kind
}

/// The numbers of an item, which has to be in this slot.
#[tactic(auto, unfolding(buck_book_journal::specs::Reading::numbers_at))]
pub(crate) fn numbers_at(
    alloc: Global,
    slot: Slot,
    place: usize,
    item: Option<&Piece<'_>>,
) -> Result<Listed<u32>, JournalFault>
    ensures { Gives Memory result (numbers_at slot place (option_map (λ i. i.now) item.entry)) }
{
    let Some(found) = item else {
        return Err(JournalFault::Shape { item: place });
    };
    if !is_at(found, slot) {
        return Err(JournalFault::Shape { item: place });
    }
    match numbers(alloc, found.rest) {
        Ok(found) => Ok(Listed::of(found)),
        Err(RecordFault::Digits { place: _ }) => Err(JournalFault::Digits { item: place }),
        Err(_) => Err(JournalFault::Memory),
    }
}

/// The worth in an item.
#[tactic(auto, unfolding(buck_book_journal::specs::Reading::worth_at))]
pub(crate) fn worth_at(place: usize, item: Option<&Piece<'_>>) -> Result<u64, JournalFault>
    ensures { result ≡ worth_at place (option_map (λ i. i.now) item.entry) }
{
    let Some(found) = item else {
        return Err(JournalFault::Shape { item: place });
    };
    if !is_at(found, WORTH) {
        return Err(JournalFault::Shape { item: place });
    }
    match wide(found.rest) {
        Ok(worth) => Ok(worth),
        Err(_) => Err(JournalFault::Digits { item: place }),
    }
}

/// What the first item of a posting says, which so many come before.
#[tactic(auto, unfolding(buck_book_journal::specs::Reading::call_at))]
pub(crate) fn call_at(
    alloc: Global,
    slot: Slot,
    before: usize,
    place: usize,
    item: Option<&Piece<'_>>,
) -> Result<Call, JournalFault>
    ensures value { Gives Memory result (call_at slot before place (option_map (λ i. i.now) item.entry)) }
    ensures few { OnOk result (before < MOST_POSTINGS) }
{
    let numbers = numbers_at(alloc, slot, place, item)?;
    if before >= MOST_POSTINGS as usize {
        return Err(JournalFault::Count { item: place });
    }
    call_in(place, numbers.as_slice())
}

/// Whether an item begins a posting.
pub(crate) fn is_first(item: &Piece<'_>) -> bool
    ensures { result ≡ is_first item.now }
{
    is_at(item, CUT) || is_at(item, DEMAND)
}

/// After a posting comes the next one, or the end.
pub(crate) fn follows(place: usize, item: Option<&Piece<'_>>) -> Result<(), JournalFault>
    ensures { result ≡ follows place (option_map (λ i. i.now) item.entry) }
{
    match item {
        Some(next) => check(is_first(next), JournalFault::Shape { item: place }),
        None => Ok(()),
    }
}
