//! A text in two parts that are read side by side.
ghost use Rattle.std.specs.Prelude.{◌≡◌, ◌<◌, ◌≤◌, length, slice_index, IfSome, true};
ghost use Rattle.buck_record.specs.bytes.Record.{is_tilde};
ghost use Rattle.buck_record.specs.pass.Cursor.{Joins};

use crate::pass::cursor::next_in;
use crate::slot::Slot;
use memchr::memchr;

/// The fewest bytes that are worth a second thread.
const FEWEST: usize = 131_072;

/// How many tildes are tried from a place on.
const TRIES: usize = 64;

/// The place of the first tilde from a place on.
fn next_tilde(text: &[u8], from: usize) -> Option<usize>
    requires { from ≤ length text.now }
    ensures within { IfSome result (λ k. k < length text.now) }
    ensures tilde { IfSome result (λ k. is_tilde (slice_index text.now k) ≡ true) }
{
    let Some(found) = memchr(b'~', &text[from..]) else {
        return None;
    };
    Some(from + found)
}

/// The texts before and behind the first tilde, from a place on, behind which an item of this slot stands.
#[tactic(auto, using(crate::proofs::PartLemmas::joins_at))]
fn cut_before(slot: Slot, text: &[u8], near: usize) -> Option<(&[u8], &[u8])>
    requires { near ≤ length text.now }
    ensures { IfSome result (λ w. Joins text.now w.0.now w.1.now) }
{
    let mut from = near;
    // A text with no such item near is left to one thread, rather than searched to its end.
    for _ in 0..TRIES {
        let Some(end) = next_tilde(text, from) else {
            return None;
        };
        let back = &text[end + 1..];
        if next_in(slot, back).is_some() {
            return Some((&text[..end], back));
        }
        from = end + 1;
    }
    None
}

/// A text in two parts, to be read in at most so many threads: the items of the text are those of the first part and
/// then those of the second. Half of the threads, rounded down, are for the first and the others for the second, which
/// begins with an item of this slot, and each is about as long as its threads' share. `None` if there is one thread,
/// if the text has less than 131,072 bytes, or if no such item is among the next 64.
#[tactic(auto, using(crate::proofs::PartLemmas::share_within))]
pub fn two_parts(slot: Slot, text: &[u8], threads: usize) -> Option<(&[u8], &[u8])>
    ensures joins { IfSome result (λ w. Joins text.now w.0.now w.1.now) }
    ensures several { IfSome result (λ _. 1 < threads) }
{
    // Two parts, each of which is halved again: a list of parts has a longer proof. They meet at a tilde, where items
    // end, so no thread needs the text before its part.
    if threads < 2 {
        return None;
    }
    if text.len() < FEWEST {
        return None;
    }
    // Divided first: so no product is above the length.
    cut_before(slot, text, text.len() / threads * (threads / 2))
}
