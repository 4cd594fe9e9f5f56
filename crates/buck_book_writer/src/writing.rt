//! The text of a journal.
ghost use Rattle.std.specs.Prelude.{◌≡◌, [], ◌∷◌, ◌++◌, IfOk, OnOk, codes, map};
ghost use Rattle.std.specs.List.{flat_map};
ghost use Rattle.buck_record.specs.writing.Written.{spelled};
ghost use Rattle.buck_book_journal.specs.Written.{item_text, zone_numbers, log_numbers, sheet_text, cut_text, demand_text, posting_text, journal_text};

use crate::fours::{put, put_four};
use buck_book_postings::{Demand, Entry, Posting};
use buck_record::{Memory, put_number};
use buck_stem_shape::Stem;
use buck_value::{Log, Sheet};
use std::alloc::Global;
use std::sync::Arc;

/// Puts numbers, each after a space.
fn put_words(out: &mut Vec<u8>, numbers: &[u32]) -> Result<(), Memory>
    ensures { OnOk result (out.new.items ≡ out.old.items ++ spelled numbers.now) }
{
    let mut rest = numbers;
    while let [a, b, c, d, left @ ..] = rest {
        put_four(out, *a, *b, *c, *d)?;
        rest = left;
    }
    for number in rest {
        put_number(out, u128::from(*number))?;
    }
    Ok(())
}

/// Puts diameters in mm, each after a space.
fn put_samples(out: &mut Vec<u8>, samples: &[u16]) -> Result<(), Memory>
    ensures { OnOk result (out.new.items ≡ out.old.items ++ spelled samples.now) }
{
    let mut rest = samples;
    while let [a, b, c, d, left @ ..] = rest {
        let (a, b) = (u32::from(*a), u32::from(*b));
        put_four(out, a, b, u32::from(*c), u32::from(*d))?;
        rest = left;
    }
    for sample in rest {
        put_number(out, u128::from(*sample))?;
    }
    Ok(())
}

/// Puts the start of each zone and its grade, each after a space.
fn put_zones(out: &mut Vec<u8>, zones: &[(u32, u8)]) -> Result<(), Memory>
    ensures { OnOk result (out.new.items ≡ out.old.items ++ spelled (zone_numbers zones.now)) }
{
    for zone in zones {
        put_number(out, u128::from(zone.0))?;
        put_number(out, u128::from(zone.1))?;
    }
    Ok(())
}

/// Puts the start, the length and the assortment of each log, each after a space.
fn put_logs(out: &mut Vec<u8>, logs: &[Log]) -> Result<(), Memory>
    ensures { OnOk result (out.new.items ≡ out.old.items ++ spelled (log_numbers logs.now)) }
{
    for log in logs {
        put_number(out, u128::from(log.start))?;
        put_number(out, u128::from(log.length))?;
        put_number(out, u128::from(log.assortment))?;
    }
    Ok(())
}

/// Puts an item of a list of numbers.
fn put_list(out: &mut Vec<u8>, head: &[u8], numbers: &[u32]) -> Result<(), Memory>
    ensures { OnOk result (out.new.items ≡ out.old.items ++ item_text head.now numbers.now) }
{
    put(out, head)?;
    put_words(out, numbers)?;
    put(out, b"~\n")
}

/// Puts the items of a stem.
fn put_stem(out: &mut Vec<u8>, stem: &Stem) -> Result<(), Memory>
    ensures { OnOk result (out.new.items ≡ out.old.items ++ (
        item_text (codes "981 2") (stem.now.number ∷ stem.now.species ∷ [])
        ++ item_text (codes "981 3") stem.now.samples
        ++ item_text (codes "981 4") (zone_numbers stem.now.zones))) }
{
    put_list(out, b"981 2", &[stem.number(), u32::from(stem.species())])?;
    put(out, b"981 3")?;
    put_samples(out, stem.samples())?;
    put(out, b"~\n981 4")?;
    put_zones(out, stem.zones())?;
    put(out, b"~\n")
}

/// Puts the item of a worth.
fn put_worth(out: &mut Vec<u8>, worth: u64) -> Result<(), Memory>
    ensures { OnOk result (out.new.items ≡ out.old.items ++ item_text (codes "981 6") (worth ∷ [])) }
{
    put(out, b"981 6")?;
    put_number(out, u128::from(worth))?;
    put(out, b"~\n")
}

/// Puts the items of an entry.
#[tactic(auto, unfolding(buck_book_journal::specs::Written::cut_text))]
fn put_entry(out: &mut Vec<u8>, entry: &Entry) -> Result<(), Memory>
    ensures { OnOk result (out.new.items ≡ out.old.items ++ cut_text entry.now) }
{
    put_list(
        out,
        b"981 1",
        &[entry.harvester, entry.number, entry.version],
    )?;
    put_stem(out, &entry.stem)?;
    put(out, b"981 5")?;
    put_logs(out, entry.cutting.logs.as_slice())?;
    put(out, b"~\n")?;
    put_worth(out, entry.worth)
}

/// Puts the items of a demand.
#[tactic(auto, unfolding(buck_book_journal::specs::Written::demand_text))]
fn put_demand(out: &mut Vec<u8>, demand: &Demand) -> Result<(), Memory>
    ensures { OnOk result (out.new.items ≡ out.old.items ++ demand_text demand.now) }
{
    put_list(
        out,
        b"982 1",
        &[demand.harvester, demand.number, demand.version],
    )?;
    put_list(out, b"982 2", demand.targets.as_slice())
}

fn put_posting(out: &mut Vec<u8>, posting: &Posting) -> Result<(), Memory>
    ensures { OnOk result (out.new.items ≡ out.old.items ++ posting_text posting.now) }
{
    match posting {
        Posting::Cut(entry) => put_entry(out, entry),
        Posting::Demand(demand) => put_demand(out, demand),
    }
}

fn put_sheets(out: &mut Vec<u8>, sheets: &[Arc<Sheet>]) -> Result<(), Memory>
    ensures { OnOk result (out.new.items
        ≡ out.old.items ++ flat_map sheet_text (map (λ s. s.value.prices) sheets.now)) }
{
    for sheet in sheets {
        put_list(out, b"971 1", sheet.prices())?;
    }
    Ok(())
}

fn put_postings(out: &mut Vec<u8>, postings: &[Posting]) -> Result<(), Memory>
    ensures { OnOk result (out.new.items ≡ out.old.items ++ flat_map posting_text postings.now) }
{
    for posting in postings {
        put_posting(out, posting)?;
    }
    Ok(())
}

/// A number of bytes, and so many more for each of some things.
fn with_each(bytes: usize, things: usize, each: usize) -> usize {
    bytes.saturating_add(things.saturating_mul(each))
}

/// How many bytes the items of a posting take at most, with all numbers at their greatest.
fn room_of(posting: &Posting) -> usize {
    match posting {
        Posting::Cut(entry) => {
            let samples = with_each(100, entry.stem.samples().len(), 5);
            let zones = with_each(samples, entry.stem.zones().len(), 8);
            with_each(zones, entry.cutting.logs.len(), 15)
        }
        Posting::Demand(demand) => with_each(40, demand.targets.len(), 8),
    }
}

/// How many bytes the text of a journal takes at most, so that its room is made once.
fn room_for(sheets: &[Arc<Sheet>], postings: &[Posting]) -> usize {
    let mut room = 9usize;
    for sheet in sheets {
        room = room.saturating_add(with_each(7, sheet.prices().len(), 9));
    }
    for posting in postings {
        room = room.saturating_add(room_of(posting));
    }
    room
}

/// The text of a journal: an item that says the kind of file, one for each sheet with its prices, in the order of the
/// versions, and then the items of each posting, in their order. Each item is its number, a space, its kind, then a
/// space before each number, in decimal without leading zeros, then a tilde and a line feed. Refused as [`Memory`]
/// alone.
#[tactic(auto, unfolding(buck_book_journal::specs::Written::journal_text))]
pub fn journal_text(
    alloc: Global,
    sheets: &[Arc<Sheet>],
    postings: &[Posting],
) -> Result<Vec<u8>, Memory>
    ensures { IfOk result (λ text.
        text.items ≡ journal_text (map (λ s. s.value.prices) sheets.now) postings.now) }
{
    let mut out = Vec::with_capacity(alloc, room_for(sheets, postings))?;
    put(&mut out, b"1 2 JRN~\n")?;
    put_sheets(&mut out, sheets)?;
    put_postings(&mut out, postings)?;
    Ok(out)
}
