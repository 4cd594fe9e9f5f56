//! Items, one after the other, with no list of them.
ghost use Rattle.std.specs.Prelude.{◌≡◌, ◌<◌, [], ◌∷◌, List, length, position, true, IfOk, IfSome, IfNone, IsTrue};
ghost use Rattle.std.specs.List.{before_first, after_first};
ghost use Rattle.buck_record.specs.Item.{ItemParts};
ghost use Rattle.buck_record.specs.bytes.Record.{is_tilde, pieces};
ghost use Rattle.buck_record.specs.pass.Cursor.{HasItems, HasItemsIn, Leads, item_in};
ghost use Rattle.buck_record.specs.checking.Table.{is_in};
ghost use Rattle.buck_record.specs.inner.Front.{IsCut};

use crate::bytes::reading::read_piece;
use crate::bytes::white::trim;
use crate::checking::table::{is_at, is_in};
use crate::item::Piece;
use crate::slot::Slot;
use memchr::memchr;

#[tactic(auto, using(crate::proofs::CursorLemmas::first_found))]
fn first_tilde(text: &[u8]) -> Option<usize>
    ensures { result ≡ position is_tilde text.now }
{
    memchr(b'~', text)
}

/// The bytes up to the first tilde, and those after it.
fn cut_part(text: &[u8]) -> (&[u8], &[u8])
    ensures part { result.0.now ≡ before_first is_tilde text.now }
    ensures left { result.1.now ≡ after_first is_tilde text.now }
{
    match first_tilde(text) {
        None => (text, &text[text.len()..]),
        Some(end) => (&text[..end], &text[end + 1..]),
    }
}

/// The first part of a text, up to its first tilde and trimmed, and the bytes after that tilde.
fn cut_trimmed(text: &[u8]) -> (&[u8], &[u8])
    ensures { IsCut text.now result.0.now result.1.now }
{
    let (part, left) = cut_part(text);
    (trim(part), left)
}

/// The first piece of a text, and what is left of the text after the tilde that ends it. `None` if there is none.
#[tactic(auto, using(crate::proofs::WordLemmas::pieces_none))]
pub(crate) fn cut_piece(text: &[u8]) -> Option<(&[u8], &[u8])>
    ensures first { IfSome result (λ w. pieces text.now ≡ w.0.now ∷ pieces w.1.now) }
    ensures shorter { IfSome result (λ w. length w.1.now < length text.now) }
    ensures none { IfNone result (pieces text.now ≡ []) }
{
    let mut rest = text;
    while !rest.is_empty() {
        let (piece, left) = cut_trimmed(rest);
        if !piece.is_empty() {
            return Some((piece, left));
        }
        rest = left;
    }
    None
}

/// The item that a text begins with, and what is left after it. `None` if there is none, or a piece with no head.
fn next_item(text: &[u8]) -> Option<(Piece<'_>, &[u8])>
    ensures { IfSome result (λ w. Leads text.now w.0 w.1.now) }
{
    let Some((piece, left)) = cut_piece(text) else {
        return None;
    };
    let Some(item) = read_piece(piece) else {
        return None;
    };
    Some((item, left))
}

/// The rest of the item that a text begins with, if that item stands in this slot, and what is left of the text
/// after the tilde that ends it: whatever is left, the text is read as this item and then that. `None` if there is
/// no item, or another.
pub fn next_in(slot: Slot, text: &[u8]) -> Option<(&[u8], &[u8])>
    ensures { IfSome result (λ w. Leads text.now (item_in slot w.0.now) w.1.now) }
{
    let Some((item, left)) = next_item(text) else {
        return None;
    };
    if !is_at(&item, slot) {
        return None;
    }
    Some((item.rest, left))
}

/// A text isn't in the order that it was read in, so its items have to be listed.
#[derive(Drop)]
pub struct OutOfOrder;

/// How many items in none of the slots may stand in a row. More are listed at once: a file of nothing but these would
/// be gone over twice.
const MOST_OTHERS: usize = 250;

/// The rest of the first item of a text that stands in one of the slots, and what is left of the text after the tilde
/// that ends it; `None` if no item of the text stands in one. `OutOfOrder` if the item stands in another slot than this
/// one, a piece before it has no head, or too many other items stand before it.
pub fn next_of<'a>(
    slot: Slot,
    slots: &[Slot],
    text: &'a [u8],
) -> Result<Option<(&'a [u8], &'a [u8])>, OutOfOrder>
    requires { is_in slots.now (item_in slot []) ≡ true }
    ensures next { IfOk result (λ found. IfSome found (λ w. (items : List ItemParts)
        → HasItemsIn slots.now w.1.now items → HasItemsIn slots.now text.now (item_in slot w.0.now ∷ items))) }
    ensures done { IfOk result (λ found. IfNone found (HasItemsIn slots.now text.now [])) }
{
    let mut rest = text;
    for _ in 0..MOST_OTHERS {
        let Some((piece, left)) = cut_piece(rest) else {
            return Ok(None);
        };
        let Some(item) = read_piece(piece) else {
            return Err(OutOfOrder);
        };
        if is_at(&item, slot) {
            return Ok(Some((item.rest, left)));
        }
        if is_in(&item, slots) {
            return Err(OutOfOrder);
        }
        rest = left;
    }
    Err(OutOfOrder)
}

/// Whether a text has no item: nothing but whitespace and tildes.
#[tactic(auto, unfolding(crate::specs::Reading::each_from))]
pub fn is_done(text: &[u8]) -> bool
    ensures { IsTrue result → HasItems text.now [] }
{
    cut_piece(text).is_none()
}
