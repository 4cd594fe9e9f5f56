//! The words of a fault line.
use std::alloc::{AllocError, Global};

/// The most digits of a number.
const DIGITS: usize = 20;

/// Whether a word is a number: 1 to 20 digits.
pub(crate) fn is_number(word: &str) -> bool {
    !word.is_empty() && word.len() <= DIGITS && word.bytes().all(|b| b.is_ascii_digit())
}

/// A word as a line has it: a number stands without leading zeros.
fn plain(word: &str) -> &str {
    if !is_number(word) {
        return word;
    }
    match word.trim_start_matches('0') {
        "" => "0",
        digits => digits,
    }
}

/// The words of a line, numbers without leading zeros.
pub(crate) fn words_of(alloc: Global, line: &str) -> Result<Vec<&str>, AllocError> {
    let mut words = Vec::new(alloc);
    for word in line.split_ascii_whitespace() {
        words.push(plain(word))?;
    }
    Ok(words)
}
