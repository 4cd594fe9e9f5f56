//! Numbers in digits.
ghost use Rattle.std.specs.Prelude.{◌≡◌, ◌+◌, ◌*◌, ◌<◌, ◌≤◌, length, IsTrue, IsFalse, IfSome};
ghost use Rattle.std.specs.Option.{option_map};
ghost use Rattle.buck_record.specs.bytes.Record.{number_at_most};
ghost use Rattle.buck_record.specs.bytes.White.{first_word, after_word};

use crate::bytes::white::is_white;

/// Whether a number, with one more digit behind it, is above `most`.
#[inline(always)]
pub(crate) fn is_past(most: u64, number: u64, digit: u64) -> bool
    requires { (number ≤ most) × (digit ≤ 9) }
    ensures past { IsTrue result → most < number * 10 + digit }
    ensures within { IsFalse result → number * 10 + digit ≤ most }
{
    number >= most / 10 && (number > most / 10 || digit > most % 10)
}

/// Reads the number that a text begins with, in one pass over its digits: the value of the text's first word, and the
/// bytes after the whitespace byte that ends the word. `None` if the word is no number, or one above `most`.
#[tactic(auto, using(crate::proofs::NumberLemmas::none_read, crate::proofs::NumberLemmas::zero_read))]
#[inline(always)]
pub(crate) fn cut_number(most: u64, text: &[u8]) -> Option<(u64, &[u8])>
    requires { 0 < length (first_word text.now) }
    ensures value { option_map (λ cut. cut.0) result ≡ number_at_most most (first_word text.now) }
    ensures after { IfSome result (λ cut. cut.1.now ≡ after_word text.now) }
    ensures small { IfSome result (λ cut. cut.0 ≤ most) }
{
    // Not the library's `parse`: it accepts a plus sign, and takes text, not bytes.
    let mut rest = text;
    // Zeros before a number change nothing, and a word may have any number of them.
    while let [b'0', after @ ..] = rest {
        rest = after;
    }
    let mut value: u64 = 0;
    while let [byte, after @ ..] = rest {
        if byte.is_ascii_digit() {
            let digit = u64::from(*byte - b'0');
            if is_past(most, value, digit) {
                return None;
            }
            value = value * 10 + digit;
        } else if is_white(*byte) {
            return Some((value, after));
        } else {
            return None;
        }
        rest = after;
    }
    Some((value, rest))
}

/// The number of at most `most` that is a text's first word, and the bytes after the whitespace that ends the word.
/// `None` also if the text has no byte, or begins with a white one, and so has no first word.
#[tactic(auto, using(crate::proofs::NumberLemmas::no_word, crate::proofs::WordLemmas::filled_word))]
pub(crate) fn cut_head(most: u64, text: &[u8]) -> Option<(u64, &[u8])>
    ensures value { option_map (λ cut. cut.0) result ≡ number_at_most most (first_word text.now) }
    ensures after { IfSome result (λ cut. cut.1.now ≡ after_word text.now) }
    ensures small { IfSome result (λ cut. cut.0 ≤ most) }
{
    if text.is_empty() {
        return None;
    }
    if is_white(text[0]) {
        return None;
    }
    cut_number(most, text)
}
