//! Files in the plain order, in one pass: the kind of file, and then the number, the species, the diameters and perhaps
//! the zones of each stem. Items of no slot of the table are passed over. No list is made for an item: its numbers are
//! read into lists that are kept from stem to stem.
//!
//! If a text isn't read, the fault says only whether an allocation failed.
ghost use Rattle.std.specs.Prelude.{◌≡◌, ℕ, List, [], ◌∷◌, IfOk, OnOk, Ok, true};
ghost use Rattle.buck_record.specs.bytes.Record.{numbers_of};
ghost use Rattle.buck_record.specs.pass.Cursor.{item_in};
ghost use Rattle.buck_record.specs.checking.Table.{is_in};
ghost use Rattle.buck_stem.specs.Stm.{table, stm_of};
ghost use Rattle.buck_stem_shape.specs.declared.slots.TheConstants.{STEM};
ghost use Rattle.buck_stem.specs.inner.Plain.{LeadsItems, LeadsNumbers, LeadsZones, LeadsStems, HasStems, IsBodyOf};

use crate::draft::Draft;
use crate::fault::StmFault;
use crate::lines::ready;
use crate::reading::stem_from;
use buck_record::rules::FILE;
use buck_record::{Listed, Slot, next_of, numbers_into};
use buck_stem_shape::Stem;
use buck_stem_shape::slots::{SAMPLES, SPECIES, STEM, TABLE, ZONES};
use std::alloc::Global;

/// The longest text of an item, in bytes, that is read here: nearly nine times that of the most samples. A longer one
/// is nearly always refused, and would be read twice before that.
const LONGEST: usize = 65_536;

/// Reads the numbers of an item's text into `room`.
fn read_numbers(room: &mut Vec<u32>, text: &[u8]) -> Result<(), StmFault>
    ensures { OnOk result (numbers_of text.now ≡ Ok room.new.items) }
{
    if text.len() > LONGEST {
        return Err(StmFault::NotStm);
    }
    if !numbers_into(text, room)? {
        return Err(StmFault::NotStm);
    }
    Ok(())
}

/// Reads the numbers of the first item of the table that a text has, if that stands in this slot, into `room`; and what
/// is left after it.
fn next_numbers<'a>(room: &mut Vec<u32>, slot: Slot, text: &'a [u8]) -> Result<&'a [u8], StmFault>
    requires { is_in table (item_in slot []) ≡ true }
    ensures { IfOk result (λ left. LeadsNumbers slot text.now room.new.items left.now) }
{
    let Ok(Some((rest, left))) = next_of(slot, &TABLE, text) else {
        return Err(StmFault::NotStm);
    };
    read_numbers(room, rest)?;
    Ok(left)
}

/// The same of the zones' numbers: none, and the whole text is left, if that is no item of zones.
fn next_zones<'a>(room: &mut Vec<u32>, text: &'a [u8]) -> Result<&'a [u8], StmFault>
    ensures { IfOk result (λ left. LeadsZones text.now room.new.items left.now) }
{
    room.clear();
    let Ok(next) = next_of(ZONES, &TABLE, text) else {
        return Ok(text);
    };
    let Some((rest, left)) = next else {
        return Ok(text);
    };
    read_numbers(room, rest)?;
    Ok(left)
}

/// The stem whose first item has this text, the lists that its numbers are read into, which are those of the stem
/// before, and what is left after it of the text that stands behind that item.
fn next_stem<'a>(
    alloc: Global,
    draft: Draft,
    first: &[u8],
    text: &'a [u8],
) -> Result<(Stem, Draft, &'a [u8]), StmFault>
    ensures { IfOk result (λ w. (whole : List ℕ) → LeadsItems whole (item_in STEM first.now ∷ []) text.now
        → LeadsStems whole (w.0 ∷ []) w.2.now) }
{
    let mut number = draft.number.into_vec();
    let mut species = draft.species.into_vec();
    let mut samples = draft.samples.into_vec();
    let mut zones = draft.zones.into_vec();
    read_numbers(&mut number, first)?;
    let named = next_numbers(&mut species, SPECIES, text)?;
    let sampled = next_numbers(&mut samples, SAMPLES, named)?;
    let left = next_zones(&mut zones, sampled)?;
    let read = Draft {
        number: Listed::of(number),
        species: Listed::of(species),
        samples: Listed::of(samples),
        zones: Listed::of(zones),
    };
    ready(&read)?;
    let stem = stem_from(alloc, &read)?;
    Ok((stem, read, left))
}

/// The stems of a text in the plain order, up to its end.
pub(crate) fn stems_of(alloc: Global, body: &[u8]) -> Result<Vec<Stem>, StmFault>
    ensures { IfOk result (λ stems. HasStems body.now stems.items) }
{
    let mut draft = Draft::empty(alloc);
    let mut stems = Vec::new(alloc);
    let mut rest = body;
    // Each stem takes bytes off the text, so there is a turn for each, and one for the end.
    for _ in 0..body.len() {
        let Ok(next) = next_of(STEM, &TABLE, rest) else {
            return Err(StmFault::NotStm);
        };
        let Some((first, behind)) = next else {
            return Ok(stems);
        };
        let (stem, read, left) = next_stem(alloc, draft, first, behind)?;
        stems.push(stem)?;
        draft = read;
        rest = left;
    }
    Err(StmFault::NotStm)
}

/// What stands behind the item with which a stem file begins.
pub(crate) fn body_of(bytes: &[u8]) -> Result<&[u8], StmFault>
    ensures { IfOk result (λ body. IsBodyOf bytes.now body.now) }
{
    let Ok(next) = next_of(FILE, &TABLE, bytes) else {
        return Err(StmFault::NotStm);
    };
    let Some((kind, body)) = next else {
        return Err(StmFault::NotStm);
    };
    if kind != b"STM".as_slice() {
        return Err(StmFault::NotStm);
    }
    Ok(body)
}

/// The stems of a file's bytes, if they are in the plain order and all is right.
pub(crate) fn read_plain(alloc: Global, bytes: &[u8]) -> Result<Vec<Stem>, StmFault>
    ensures { IfOk result (λ stems. stm_of bytes.now ≡ Ok stems.items) }
{
    let body = body_of(bytes)?;
    Ok(stems_of(alloc, body)?)
}
