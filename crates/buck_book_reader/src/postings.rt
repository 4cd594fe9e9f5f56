//! The sheets and the postings of a journal's items.
ghost use Rattle.std.specs.Prelude.{◌≡◌, ◌<◌, ◌≤◌, ◌+◌, ◌^◌, IfOk, OnOk, Some, length, drop, map, slice_get};
ghost use Rattle.buck_record.specs.Reading.{Gives, listed};
ghost use Rattle.buck_book_journal.specs.declared.journal_fault.JournalFault.TheVariants.{Memory};
ghost use Rattle.buck_record.specs.checking.Rules.{slot};
ghost use Rattle.buck_book_reader.specs.Limits.{AreSamples, AreZones};
ghost use Rattle.buck_book_reader.specs.inner.Lists.{lists_in};
ghost use Rattle.buck_book_journal.specs.Reading.{item_at, head_form, samples_form, zones_form, logs_form, stem_at, cut_at, demand_at, posting_at, sheet_at, sheets_from, postings_from};
ghost use Rattle.buck_book_postings.specs.declared.posting.TheConstants.{MOST_POSTINGS};

use crate::items::{call_at, follows, is_at, is_first, numbers_at, worth_at};
use crate::lists::{check_list, head_in};
use crate::made::{cut_of, demand_of};
use crate::parts::{logs_in, samples_in, zones_in};
use buck_apt_instruction::slots::TARGETS;
use buck_book_journal::JournalFault;
use buck_book_journal::slots::{
    CUT, CUT_SAMPLES, CUT_ZONES, DEMAND, DEMAND_TARGETS, HEAD, LOGS, SHEET,
};
use buck_book_postings::Posting;
use buck_record::Piece;
use buck_stem_shape::Stem;
use buck_stem_shape::slots::SPECIES;
use buck_value::{HIGHEST_PRICE, Log};
use std::alloc::{AllocError, Global};

/// The number and the species of the stem of a cut that items begin with, so many of the file coming before.
#[tactic(auto, unfolding(buck_book_journal::specs::Reading::item_at))]
fn head_at(alloc: Global, items: &[Piece<'_>], k: usize) -> Result<(u32, u8), JournalFault>
    requires { k + 7 < 2 ^ 64 }
    ensures value { Gives Memory result (item_at (slot 981 2) head_form (k + 2) (slice_get items.now 1)) }
    ensures species { IfOk result (λ head. (SPECIES.low ≤ head.1) × (head.1 ≤ SPECIES.high)) }
{
    let numbers = numbers_at(alloc, HEAD, k + 2, items.get(1))?;
    head_in(k + 2, numbers.as_slice())
}

/// Its diameters.
#[tactic(auto, unfolding(buck_book_journal::specs::Reading::item_at))]
fn samples_at(alloc: Global, items: &[Piece<'_>], k: usize) -> Result<Vec<u16>, JournalFault>
    requires { k + 7 < 2 ^ 64 }
    ensures value { Gives Memory (listed result) (item_at (slot 981 3) samples_form (k + 3) (slice_get items.now 2)) }
    ensures valid { IfOk result (λ samples. AreSamples samples.items) }
{
    let numbers = numbers_at(alloc, CUT_SAMPLES, k + 3, items.get(2))?;
    samples_in(alloc, k + 3, numbers.as_slice())
}

/// Its zones.
#[tactic(auto, unfolding(buck_book_journal::specs::Reading::item_at))]
fn zones_at(alloc: Global, items: &[Piece<'_>], k: usize) -> Result<Vec<(u32, u8)>, JournalFault>
    requires { k + 7 < 2 ^ 64 }
    ensures value { Gives Memory (listed result) (item_at (slot 981 4) zones_form (k + 4) (slice_get items.now 3)) }
    ensures valid { IfOk result (λ zones. AreZones zones.items) }
{
    let numbers = numbers_at(alloc, CUT_ZONES, k + 4, items.get(3))?;
    zones_in(alloc, k + 4, numbers.as_slice())
}

/// The logs of such a cut.
#[tactic(auto, unfolding(buck_book_journal::specs::Reading::item_at))]
fn logs_at(alloc: Global, items: &[Piece<'_>], k: usize) -> Result<Vec<Log>, JournalFault>
    requires { k + 7 < 2 ^ 64 }
    ensures { Gives Memory (listed result) (item_at (slot 981 5) logs_form (k + 5) (slice_get items.now 4)) }
{
    let numbers = numbers_at(alloc, LOGS, k + 5, items.get(4))?;
    logs_in(alloc, k + 5, numbers.as_slice())
}

/// The stem of such a cut.
#[tactic(auto, using(crate::proofs::Limits::is_stem_ok), unfolding(buck_book_journal::specs::Reading::stem_at))]
fn stem_at<'a>(alloc: Global, items: &'a [Piece<'a>], k: usize) -> Result<Stem, JournalFault>
    requires { k + 7 < 2 ^ 64 }
    ensures { Gives Memory result (stem_at items.now k) }
{
    let (number, species) = head_at(alloc, items, k)?;
    let samples = samples_at(alloc, items, k)?;
    let zones = zones_at(alloc, items, k)?;
    let stem = Stem::of_parts(alloc, number, species, samples, zones)?;
    Ok(stem)
}

/// A cut, which so many items and postings come before.
#[tactic(auto, unfolding(buck_book_journal::specs::Reading::cut_at))]
fn cut_at<'a>(
    alloc: Global,
    items: &'a [Piece<'a>],
    k: usize,
    before: usize,
) -> Result<Posting, JournalFault>
    requires { k + 7 < 2 ^ 64 }
    ensures value { Gives Memory result (cut_at items.now k before) }
    ensures few { OnOk result (before < MOST_POSTINGS) }
{
    let call = call_at(alloc, CUT, before, k + 1, items.get(0))?;
    let stem = stem_at(alloc, items, k)?;
    let logs = logs_at(alloc, items, k)?;
    let worth = worth_at(k + 6, items.get(5))?;
    follows(k + 7, items.get(6))?;
    Ok(cut_of(alloc, call, stem, logs, worth)?)
}

/// A demand, which so many items and postings come before.
#[tactic(auto, unfolding(buck_book_journal::specs::Reading::demand_at, buck_book_journal::specs::Reading::item_at))]
fn demand_at<'a>(
    alloc: Global,
    items: &'a [Piece<'a>],
    k: usize,
    before: usize,
) -> Result<Posting, JournalFault>
    requires { k + 7 < 2 ^ 64 }
    ensures value { Gives Memory result (demand_at items.now k before) }
    ensures few { OnOk result (before < MOST_POSTINGS) }
{
    let call = call_at(alloc, DEMAND, before, k + 1, items.get(0))?;
    let targets = numbers_at(alloc, DEMAND_TARGETS, k + 2, items.get(1))?;
    check_list(TARGETS.low, TARGETS.high, k + 2, targets.as_slice())?;
    follows(k + 3, items.get(2))?;
    Ok(demand_of(alloc, call, targets.into_vec())?)
}

/// The posting that items begin with.
#[tactic(auto, unfolding(buck_book_journal::specs::Reading::posting_at))]
fn posting_at<'a>(
    alloc: Global,
    first: &Piece<'_>,
    items: &'a [Piece<'a>],
    k: usize,
    before: usize,
) -> Result<Posting, JournalFault>
    requires { k + 7 < 2 ^ 64 }
    ensures value { Gives Memory result (posting_at first.now items.now k before) }
    ensures few { OnOk result (before < MOST_POSTINGS) }
{
    if is_at(first, CUT) {
        cut_at(alloc, items, k, before)
    } else {
        demand_at(alloc, items, k, before)
    }
}

/// The prices of a sheet.
#[tactic(auto, unfolding(buck_book_journal::specs::Reading::item_at))]
fn sheet_at(alloc: Global, place: usize, item: &Piece<'_>) -> Result<Vec<u32>, JournalFault>
    ensures { Gives Memory (listed result) (sheet_at place (Some item.now)) }
{
    let prices = numbers_at(alloc, SHEET, place, Some(item))?;
    check_list(0, HIGHEST_PRICE, place, prices.as_slice())?;
    Ok(prices.into_vec())
}

/// The prices of the sheets, up to the first posting.
#[tactic(auto, using(crate::proofs::Walk::sheet_more, crate::proofs::Walk::pushed))]
pub(crate) fn sheets_in<'a>(
    alloc: Global,
    items: &'a [Piece<'a>],
) -> Result<Vec<Vec<u32>>, JournalFault>
    ensures { Gives Memory (lists_in result) (sheets_from 1 (drop 1 items.now)) }
{
    let mut sheets = Vec::new(alloc);
    for k in 1..items.len() {
        let item = &items[k];
        if is_first(item) {
            return Ok(sheets);
        }
        let prices = sheet_at(alloc, k + 1, item)?;
        sheets.push(prices)?;
    }
    Ok(sheets)
}

/// The postings.
pub(crate) fn postings_in<'a>(
    alloc: Global,
    items: &'a [Piece<'a>],
) -> Result<Vec<Posting>, JournalFault>
    ensures value { Gives Memory (listed result) (postings_from 0 0 items.now) }
    ensures few { IfOk result (λ postings. length postings.items ≤ MOST_POSTINGS) }
{
    let mut postings = Vec::new(alloc);
    for k in 0..items.len() {
        let item = &items[k];
        if is_first(item) {
            let posting = posting_at(alloc, item, &items[k..], k, postings.len())?;
            postings.push(posting)?;
        }
    }
    Ok(postings)
}
