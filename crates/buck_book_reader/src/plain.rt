//! Journals in one pass, with no list of their items: the kind of file, the sheets, and then the items of each posting.
//! The numbers of an item are read into a room that is kept from item to item.
//!
//! If a text isn't read, the fault says only whether an allocation failed.
ghost use Rattle.std.specs.Prelude.{◌≡◌, ◌≤◌, [], ◌∷◌, IfOk, Ok, length, map};
ghost use Rattle.buck_book_journal.specs.Reading.{journal_of};
ghost use Rattle.buck_book_reader.specs.Plain.{LeadsNumbers, LeadsWorth, LeadsPostings, HasPostings, LeadsSheets, BeginsJournal};

use crate::lists::{call_in, check_list, head_in};
use crate::made::{cut_of, demand_of};
use crate::parts::{logs_in, samples_in, zones_in};
use buck_apt_instruction::slots::TARGETS;
use buck_book_journal::slots::{
    CUT, CUT_SAMPLES, CUT_ZONES, DEMAND, DEMAND_TARGETS, HEAD, LOGS, SHEET, WORTH,
};
use buck_book_journal::{Journal, JournalFault};
use buck_book_postings::{MOST_POSTINGS, Posting};
use buck_record::rules::FILE;
use buck_record::{Slot, is_done, next_in, numbers_into, wide};
use buck_stem_shape::Stem;
use buck_value::HIGHEST_PRICE;
use std::alloc::{AllocError, Global};

/// Reads the numbers of the item that a text begins with, if that stands in this slot, into `room`; and what is left
/// after it.
fn next_numbers<'a>(
    room: &mut Vec<u32>,
    slot: Slot,
    text: &'a [u8],
) -> Result<&'a [u8], JournalFault>
    ensures { IfOk result (λ left. LeadsNumbers slot text.now room.new.items left.now) }
{
    let Some((rest, left)) = next_in(slot, text) else {
        return Err(JournalFault::NotJournal);
    };
    if !numbers_into(rest, room)? {
        return Err(JournalFault::NotJournal);
    }
    Ok(left)
}

/// The worth of a cutting, and what is left after it.
fn next_worth(text: &[u8]) -> Result<(u64, &[u8]), JournalFault>
    ensures { IfOk result (λ w. LeadsWorth text.now w.0 w.1.now) }
{
    let Some((rest, left)) = next_in(WORTH, text) else {
        return Err(JournalFault::NotJournal);
    };
    match wide(rest) {
        Ok(worth) => Ok((worth, left)),
        Err(_) => Err(JournalFault::NotJournal),
    }
}

/// A cut, and what is left after its items.
#[tactic(auto, using(crate::proofs::Limits::is_stem_ok, crate::proofs::OnePass::cut_leads))]
fn next_cut<'a>(
    alloc: Global,
    room: &mut Vec<u32>,
    text: &'a [u8],
) -> Result<(Posting, &'a [u8]), JournalFault>
    ensures { IfOk result (λ w. LeadsPostings text.now (w.0 ∷ []) w.1.now) }
{
    let called = next_numbers(room, CUT, text)?;
    let call = call_in(1, room.as_slice())?;
    let named = next_numbers(room, HEAD, called)?;
    let (number, species) = head_in(1, room.as_slice())?;
    let sampled = next_numbers(room, CUT_SAMPLES, named)?;
    let samples = samples_in(alloc, 1, room.as_slice())?;
    let zoned = next_numbers(room, CUT_ZONES, sampled)?;
    let zones = zones_in(alloc, 1, room.as_slice())?;
    let logged = next_numbers(room, LOGS, zoned)?;
    let logs = logs_in(alloc, 1, room.as_slice())?;
    let (worth, left) = next_worth(logged)?;
    let stem = Stem::of_parts(alloc, number, species, samples, zones)?;
    let cut = cut_of(alloc, call, stem, logs, worth)?;
    Ok((cut, left))
}

/// A demand, and what is left after its items.
#[tactic(auto, using(crate::proofs::OnePass::demand_leads))]
fn next_demand<'a>(
    alloc: Global,
    room: &mut Vec<u32>,
    text: &'a [u8],
) -> Result<(Posting, &'a [u8]), JournalFault>
    ensures { IfOk result (λ w. LeadsPostings text.now (w.0 ∷ []) w.1.now) }
{
    let called = next_numbers(room, DEMAND, text)?;
    let call = call_in(1, room.as_slice())?;
    let left = next_numbers(room, DEMAND_TARGETS, called)?;
    check_list(TARGETS.low, TARGETS.high, 1, room.as_slice())?;
    let targets = Vec::from_slice(alloc, room.as_slice())?;
    let demand = demand_of(alloc, call, targets)?;
    Ok((demand, left))
}

/// A posting, and what is left after its items.
fn next_posting<'a>(
    alloc: Global,
    room: &mut Vec<u32>,
    text: &'a [u8],
) -> Result<(Posting, &'a [u8]), JournalFault>
    ensures { IfOk result (λ w. LeadsPostings text.now (w.0 ∷ []) w.1.now) }
{
    // Nearly all postings are cuts, and a demand fails as one at its first item, so the try costs little.
    match next_cut(alloc, room, text) {
        Ok(cut) => Ok(cut),
        Err(JournalFault::Memory) => Err(JournalFault::Memory),
        Err(_) => next_demand(alloc, room, text),
    }
}

/// The postings of a text, up to its end.
#[tactic(auto, using(crate::proofs::OnePass::steps))]
pub(crate) fn postings_of(alloc: Global, text: &[u8]) -> Result<Vec<Posting>, JournalFault>
    ensures { IfOk result (λ postings. HasPostings text.now postings.items) }
{
    let mut room = Vec::new(alloc);
    let mut postings = Vec::new(alloc);
    let mut rest = text;
    // One turn at least: if no posting is left, the text has ended.
    for _ in 0..text.len().max(1) {
        if is_done(rest) {
            return Ok(postings);
        }
        let (posting, left) = next_posting(alloc, &mut room, rest)?;
        postings.push(posting)?;
        rest = left;
    }
    Err(JournalFault::NotJournal)
}

/// The prices of a sheet, and what is left after them.
#[tactic(auto, using(crate::proofs::OnePass::sheet_leads))]
fn next_sheet<'a>(
    alloc: Global,
    room: &mut Vec<u32>,
    text: &'a [u8],
) -> Result<(Vec<u32>, &'a [u8]), JournalFault>
    ensures { IfOk result (λ w. LeadsSheets text.now (w.0.items ∷ []) w.1.now) }
{
    let left = next_numbers(room, SHEET, text)?;
    check_list(0, HIGHEST_PRICE, 1, room.as_slice())?;
    Ok((Vec::from_slice(alloc, room.as_slice())?, left))
}

/// The sheets that a text begins with, and what is left after them.
#[tactic(auto, using(crate::proofs::OnePass::steps, crate::proofs::Walk::pushed))]
fn sheets_of<'a>(alloc: Global, text: &'a [u8]) -> Result<(Vec<Vec<u32>>, &'a [u8]), JournalFault>
    ensures { IfOk result (λ w. LeadsSheets text.now (map (λ v. v.items) w.0.items) w.1.now) }
{
    let mut room = Vec::new(alloc);
    let mut sheets = Vec::new(alloc);
    let mut rest = text;
    for _ in 0..text.len() {
        match next_sheet(alloc, &mut room, rest) {
            Ok((prices, left)) => {
                sheets.push(prices)?;
                rest = left;
            }
            Err(JournalFault::Memory) => return Err(JournalFault::Memory),
            // An item that isn't a sheet is left to the reader of postings, which refuses it if it isn't one of theirs
            // either.
            Err(_) => return Ok((sheets, rest)),
        }
    }
    Ok((sheets, rest))
}

/// The sheets of a journal's bytes, and what is left after them.
#[tactic(auto, using(crate::proofs::OnePass::plain_journal))]
pub(crate) fn opened<'a>(
    alloc: Global,
    bytes: &'a [u8],
) -> Result<(Vec<Vec<u32>>, &'a [u8]), JournalFault>
    ensures { IfOk result (λ w. BeginsJournal bytes.now (map (λ v. v.items) w.0.items) w.1.now) }
{
    let Some((kind, body)) = next_in(FILE, bytes) else {
        return Err(JournalFault::NotJournal);
    };
    if kind != b"JRN".as_slice() {
        return Err(JournalFault::NotJournal);
    }
    sheets_of(alloc, body)
}

/// The journal of a file's bytes, if all of it is right, with any number of postings.
pub(crate) fn read_plain(alloc: Global, bytes: &[u8]) -> Result<Journal, JournalFault>
    ensures { IfOk result (λ journal.
        length journal.entries ≤ MOST_POSTINGS → journal_of bytes.now ≡ Ok journal) }
{
    let (sheets, rest) = opened(alloc, bytes)?;
    let entries = postings_of(alloc, rest)?;
    Ok(Journal { sheets, entries })
}
