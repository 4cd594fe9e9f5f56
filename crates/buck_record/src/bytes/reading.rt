//! The items of a file, and the numbers of a text.
ghost use Rattle.std.specs.Prelude.{◌≡◌, ◌≤◌, IfOk};
ghost use Rattle.buck_record.specs.declared.fault.RecordFault.TheVariants.{Memory, Head, Digits};
ghost use Rattle.buck_record.specs.Reading.{Gives, listed, with_fault};
ghost use Rattle.buck_record.specs.bytes.Record.{item_of, items_of, numbers_of, number_of};
ghost use Rattle.buck_record.specs.checking.Table.{only_in};
ghost use Rattle.buck_record.specs.inner.Front.{kept};

use crate::bytes::digits::cut_head;
use crate::bytes::white::{trim, trim_start};
use crate::checking::table::is_in;
use crate::fault::RecordFault;
use crate::item::{Item, Piece};
use crate::pass::cursor::cut_piece;
use crate::pass::kept_numbers::numbers_into;
use crate::slot::Slot;
use std::alloc::{AllocError, Global};

/// The item of a piece, if it has a head.
#[tactic(auto, unfolding(crate::specs::bytes::Record::item_of))]
#[inline(always)]
pub(crate) fn read_piece<'a>(piece: &'a [u8]) -> Option<Piece<'a>>
    ensures { result ≡ item_of piece.now }
{
    let Some((number, after)) = cut_head(65535, piece) else {
        return None;
    };
    let Some((kind, after)) = cut_head(65535, trim(after)) else {
        return None;
    };
    Some(Piece {
        number: number as u16,
        kind: kind as u16,
        rest: trim(after),
    })
}

/// The items of a file's bytes, as [`pieces`] has them: every one, or those that stand in one of the slots. All others
/// are read and left out.
// Inlined, as its callers are: the slots of a table are constants then, and one comparison passes over most items of no
// table.
#[tactic(auto, using(crate::proofs::EachLemmas::piece_steps))]
#[inline(always)]
fn pieces_kept<'a>(
    alloc: Global,
    bytes: &'a [u8],
    every: bool,
    slots: &[Slot],
) -> Result<Vec<Piece<'a>>, RecordFault>
    ensures { Gives Memory (listed result)
        (with_fault (λ k. Head k) (kept every slots.now (items_of bytes.now))) }
{
    let mut held = Vec::new(alloc);
    let mut read = 0usize;
    let mut rest = bytes;
    while let Some((piece, left)) = cut_piece(rest) {
        read += 1;
        let Some(item) = read_piece(piece) else {
            return Err(RecordFault::Head { item: read });
        };
        if every | is_in(&item, slots) {
            held.push(item)?;
        }
        rest = left;
    }
    Ok(held)
}

/// The items of a file's bytes, in file order, each with its rest borrowed from them.
///
/// The bytes are cut at each tilde. Each piece is trimmed of whitespace (space, tab, line feed, carriage return) at
/// both ends, and empty pieces are left out. Every other piece is an item, and begins with its head: two words of
/// digits separated by whitespace, a number and a kind of at most 65,535 each. What follows, trimmed, is its rest.
///
/// Refused as `Head` with the least item, counted from 1, that has no head, and as `Memory` if memory runs out.
pub fn pieces<'a>(alloc: Global, bytes: &'a [u8]) -> Result<Vec<Piece<'a>>, RecordFault>
    ensures { Gives Memory (listed result) (with_fault (λ k. Head k) (items_of bytes.now)) }
{
    pieces_kept(alloc, bytes, true, &[])
}

/// The items of a file's bytes that stand in one of the slots, as [`pieces`] has them. All others are read and left
/// out, and take no memory.
///
/// Refused as [`pieces`] refuses: as `Head` with the least item, counted from 1 among all, that has no head.
#[inline(always)]
pub fn pieces_at<'a>(
    alloc: Global,
    bytes: &'a [u8],
    slots: &[Slot],
) -> Result<Vec<Piece<'a>>, RecordFault>
    ensures { Gives Memory (listed result) (with_fault (λ k. Head k) (only_in slots.now (items_of bytes.now))) }
{
    pieces_kept(alloc, bytes, false, slots)
}

fn to_item(alloc: Global, piece: &Piece<'_>) -> Result<Item, AllocError>
    ensures { IfOk result (λ item. item ≡ piece.now) }
{
    Ok(Item {
        number: piece.number,
        kind: piece.kind,
        rest: Vec::from_slice(alloc, piece.rest)?,
    })
}

fn to_items(alloc: Global, pieces: &[Piece<'_>]) -> Result<Vec<Item>, AllocError>
    ensures { IfOk result (λ items. items.items ≡ pieces.now) }
{
    let mut held = Vec::with_capacity(alloc, pieces.len())?;
    for piece in pieces {
        held.push(to_item(alloc, piece)?)?;
    }
    Ok(held)
}

/// The items of a file's bytes, as [`pieces`] has them and with its refusals, each with a rest of its own.
pub fn items(alloc: Global, bytes: &[u8]) -> Result<Vec<Item>, RecordFault>
    ensures { Gives Memory (listed result) (with_fault (λ k. Head k) (items_of bytes.now)) }
{
    let found = pieces(alloc, bytes)?;
    Ok(to_items(alloc, found.as_slice())?)
}

/// The numbers of a text: its words, separated by whitespace, each of one or more digits and at most 4,294,967,295.
/// Leading zeros are accepted, and a text of no words gives no numbers. The list may have room for more.
///
/// Refused as `Digits` with the place of the first word, counted from 1, that is no such number, and as `Memory`
/// if memory runs out.
pub fn numbers(alloc: Global, text: &[u8]) -> Result<Vec<u32>, RecordFault>
    ensures { Gives Memory (listed result) (with_fault (λ k. Digits k) (numbers_of text.now)) }
{
    let mut held = Vec::new(alloc);
    if !numbers_into(text, &mut held)? {
        return Err(RecordFault::Digits {
            place: held.len() + 1,
        });
    }
    Ok(held)
}

/// The one number of a text, if it is at most `most`.
#[tactic(auto, using(crate::proofs::RecordLemmas::one_word))]
fn number_in(most: u64, text: &[u8]) -> Result<u64, RecordFault>
    ensures value { result ≡ with_fault (λ k. Digits k) (number_of most text.now) }
    ensures small { IfOk result (λ n. n ≤ most) }
{
    let Some((number, after)) = cut_head(most, trim_start(text)) else {
        return Err(RecordFault::Digits { place: 1 });
    };
    if !trim_start(after).is_empty() {
        return Err(RecordFault::Digits { place: 2 });
    }
    Ok(number)
}

/// The one number of a text: its only word, of digits and at most 4,294,967,295. It takes no memory.
///
/// Refused as `Digits`, with place 1 if there is no word or the first is no such number, and else with place 2
/// if there are more words.
pub fn number(text: &[u8]) -> Result<u32, RecordFault>
    ensures { result ≡ with_fault (λ k. Digits k) (number_of 4294967295 text.now) }
{
    Ok(number_in(4294967295, text)? as u32)
}

/// The one number of a text, as [`number`] has it and with its refusals, of at most 18,446,744,073,709,551,615.
pub fn wide(text: &[u8]) -> Result<u64, RecordFault>
    ensures { result ≡ with_fault (λ k. Digits k) (number_of 18446744073709551615 text.now) }
{
    number_in(u64::MAX, text)
}
