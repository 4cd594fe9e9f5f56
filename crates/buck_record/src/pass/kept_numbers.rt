//! The numbers of a text, in a list that is kept from text to text.
ghost use Rattle.std.specs.Prelude.{◌≡◌, ◌+◌, ◌<◌, ◌≤◌, ◌++◌, length, IsTrue, IsFalse, IfOk, IfSome, IfNone, OnErr, None, Ok, Err, []};
ghost use Rattle.std.specs.Vec.{vec_len, vec_capacity};
ghost use Rattle.buck_record.specs.bytes.Record.{numbers_of};
ghost use Rattle.buck_record.specs.inner.Front.{adds_on, HasRoom, four_of};

use crate::bytes::digits::is_past;
use crate::bytes::white::is_white;
use crate::pass::lanes::front_fours;
use std::alloc::AllocError;

/// Adds the numbers of a text's words, of a long text those of its first 64 bytes or some more. What is left of the
/// text, and `None` if a word is no number: then those before it are added.
#[tactic(auto, using(crate::proofs::EachLemmas::word_steps))]
fn append_words<'a>(text: &'a [u8], out: &mut Vec<u32>) -> Option<&'a [u8]>
    requires room { HasRoom (vec_len out.old) (vec_capacity out.old) (length text.now) }
    ensures step { IfSome result (λ left. adds_on out.new.items left.now ≡ adds_on out.old.items text.now) }
    ensures shorter { IfSome result (λ left. 0 < length text.now → length left.now < length text.now) }
    ensures room { IfSome result (λ left. 0 < length left.now
        → HasRoom (vec_len out.new) (vec_capacity out.new) (length left.now)) }
    ensures stuck { IfNone result (adds_on out.old.items text.now ≡ Err (length out.new.items + 1)) }
{
    let mut value: u64 = 0;
    // The word's first byte, or the next one between words.
    let mut start = 0usize;
    for (i, byte) in text.iter().enumerate() {
        if byte.is_ascii_digit() {
            let digit = u64::from(*byte - b'0');
            if is_past(4_294_967_295, value, digit) {
                return None;
            }
            value = value * 10 + digit;
            continue;
        }
        if !is_white(*byte) {
            return None;
        }
        if start == i {
            start = i + 1;
            continue;
        }
        out.push_reserved(value as u32);
        if i >= 64 {
            return Some(&text[i + 1..]);
        }
        value = 0;
        start = i + 1;
    }
    if start < text.len() {
        out.push_reserved(value as u32);
    }
    Some(&text[text.len()..])
}

/// Adds four numbers.
#[inline(always)]
fn append_four(values: [u32; 4], out: &mut Vec<u32>)
    requires { vec_len out.old + 4 ≤ vec_capacity out.old }
    ensures items { out.new.items ≡ out.old.items ++ four_of values }
    ensures len { vec_len out.new ≡ vec_len out.old + 4 }
    ensures capacity { vec_capacity out.new ≡ vec_capacity out.old }
{
    out.push_reserved(values[0]);
    out.push_reserved(values[1]);
    out.push_reserved(values[2]);
    out.push_reserved(values[3]);
}

/// Adds the numbers of a text to an empty list that has room for one for each two bytes of the text, up to the first
/// word that is none, and answers whether each of the words was a number. Four words of three digits, each with a space
/// after it, are read at once.
#[tactic(auto, using(crate::proofs::EachLemmas::steps))]
fn append_each(text: &[u8], out: &mut Vec<u32>) -> bool
    requires empty { out.old.items ≡ [] }
    requires room { HasRoom (vec_len out.old) (vec_capacity out.old) (length text.now) }
    ensures read { IsTrue result → numbers_of text.now ≡ Ok out.new.items }
    ensures refused { IsFalse result → numbers_of text.now ≡ Err (length out.new.items + 1) }
{
    // Nearly all bytes of a file are samples, most of three digits: without this a whole `buck` takes 15 % more
    // instructions.
    let mut rest = text;
    while !rest.is_empty() {
        if let Some(values) = front_fours(rest) {
            append_four(values, out);
            rest = &rest[16..];
            continue;
        }
        let Some(left) = append_words(rest, out) else {
            return false;
        };
        rest = left;
    }
    true
}

/// Reads the numbers of a text, as [`numbers`](crate::numbers) has them, into a list, in the place of what it held.
/// Answers whether each word of the text was a number: if one wasn't, the list has the numbers before the first such
/// word. A list that is kept for the next text takes memory for that only if it is longer; one that is refused memory
/// is left empty.
pub fn numbers_into(text: &[u8], held: &mut Vec<u32>) -> Result<bool, AllocError>
    ensures read { IfOk result (λ all. IsTrue all → numbers_of text.now ≡ Ok held.new.items) }
    ensures refused { IfOk result (λ all. IsFalse all → numbers_of text.now ≡ Err (length held.new.items + 1)) }
    ensures emptied { OnErr result (held.new.items ≡ []) }
{
    held.clear();
    // A number takes a digit and a whitespace byte at least: with this room none of the pushes below grows the list.
    held.reserve(text.len() / 2 + 1)?;
    Ok(append_each(text, held))
}
