//! The sentence of a fault line.
use crate::items::{Part, item_of};
use crate::line::{is_number, words_of};
use crate::rows::{ROWS, Row};
use buckfleet_reason::key_of;
use std::alloc::{AllocError, Global};

/// The items of the whole in which an owner's instruction may not differ: the module and the number of assortments.
const WHOLE: [u16; 2] = [901, 910];

/// The items of an assortment in which it may not differ: species, grades, lengths and trim.
const PART: [u16; 4] = [912, 913, 916, 919];

/// The most journals that are shown together.
const MOST_JOURNALS: u64 = 64;

/// A fault line, and the words of the row that it fits.
#[derive(Clone, Copy)]
struct Line<'a> {
    words: &'a [&'a str],
    row: &'static str,
}

/// Whether a word of a row stands for any number.
fn is_letter(word: &str) -> bool {
    word.len() == 1 && word.bytes().all(|b| b.is_ascii_lowercase())
}

impl<'a> Line<'a> {
    /// Whether the line has the words of the row.
    fn fits(&self) -> bool {
        let mut rest = self.words;
        for wanted in self.row.split(' ') {
            let [word, more @ ..] = rest else {
                return false;
            };
            let is_right = if is_letter(wanted) {
                is_number(word)
            } else {
                wanted == *word
            };
            if !is_right {
                return false;
            }
            rest = more;
        }
        rest.is_empty()
    }

    /// The word at the place where the row has this one; an empty one if it doesn't have it.
    fn word(&self, wanted: &str) -> &'a str {
        for (of_row, word) in self.row.split(' ').zip(self.words) {
            if of_row == wanted {
                return word;
            }
        }
        ""
    }

    /// Whether it speaks of a stem file.
    fn is_stm(&self) -> bool {
        !self.word("stm").is_empty()
    }

    /// A part of the item that it speaks of, if there is one.
    fn part<'b>(&self, name: &'b str) -> Option<Part<'b>> {
        let file = if self.is_stm() { "stm" } else { "apt" };
        let number = self.word("a").parse::<u16>().ok()?;
        let kind = self.word("b").parse::<u16>().ok()?;
        let item = item_of(file, number, kind)?;
        Some(Part { item, name })
    }

    /// Puts the item that it speaks of, if its number is one of these.
    fn put_one_of(&self, out: &mut String, numbers: &[u16]) -> Result<bool, AllocError> {
        let Some(part) = self.part("item") else {
            return Ok(false);
        };
        if !numbers.contains(&key_of(part.item).number) {
            return Ok(false);
        }
        write!(out, "{part}")?;
        Ok(true)
    }

    /// Puts a part of a sentence, by its name. The answer is whether there is one.
    fn put(&self, out: &mut String, part: &str) -> Result<bool, AllocError> {
        match part {
            "kind" if self.is_stm() => out.push_str("STM")?,
            "kind" => out.push_str("APT")?,
            "place" if self.is_stm() => {
                let file = self.word("n");
                write!(
                    out,
                    "in file {file} after the instruction (with live: in the request)"
                )?;
            }
            "place" => out.push_str("in the instruction file")?,
            "item" | "range" | "order" | "count" => {
                let Some(part) = self.part(part) else {
                    return Ok(false);
                };
                write!(out, "{part}")?;
                return Ok(part.is_there());
            }
            "whole" => return self.put_one_of(out, &WHOLE),
            "part" => return self.put_one_of(out, &PART),
            _ => out.push_str(self.word(part))?,
        }
        Ok(true)
    }

    /// Returns its sentence after these words, put together from the pieces of a row; none if a piece is missing.
    fn sentence(
        &self,
        alloc: Global,
        before: &str,
        text: &str,
    ) -> Result<Option<Vec<u8>>, AllocError> {
        let mut out = String::new(alloc);
        out.push_str(before)?;
        for piece in text.split('{') {
            match piece.split_once('}') {
                Some((part, rest)) => {
                    if !self.put(&mut out, part)? {
                        return Ok(None);
                    }
                    out.push_str(rest)?;
                }
                None => out.push_str(piece)?,
            }
        }
        Ok(Some(out.into_bytes()))
    }
}

/// The words of a row that a line has, if it has those of one.
fn fitting(row: &Row, words: &[&str]) -> Option<&'static str> {
    for line in row.lines {
        let line = Line {
            words: &*words,
            row: line,
        };
        if line.fits() {
            return Some(line.row);
        }
    }
    None
}

/// Returns the sentence of a line of these words, after others; none if there is no such line.
fn sentence_of(alloc: Global, before: &str, words: &[&str]) -> Result<Option<Vec<u8>>, AllocError> {
    for row in &ROWS {
        if let Some(found) = fitting(row, words) {
            return Line { words, row: found }.sentence(alloc, before, row.sentence);
        }
    }
    Ok(None)
}

/// Whether a word is the number of one of several journals: 1 to 64.
fn is_journal(word: &str) -> bool {
    word.parse::<u64>()
        .is_ok_and(|number| 1 <= number && number <= MOST_JOURNALS)
}

/// Returns the sentence of a fault line: what is wrong, with the numbers of the line put in, and what to do next.
/// None if there is no such line: other words, a missing or an extra field, an item that the file doesn't have.
/// That of one of several journals begins with the journal's number, 1 to 64, that of an owner's instruction with the
/// instruction.
///
/// The words of the line are separated by whitespace. A number has at most 20 digits, and may have leading zeros.
/// Fails if an allocation failed.
pub fn sentence(alloc: Global, line: &str) -> Result<Option<Vec<u8>>, AllocError> {
    let mut words = words_of(alloc, line)?;
    match words.as_slice() {
        ["own", ..] => {
            let own = sentence_of(alloc, "", words.as_slice())?;
            if own.is_some() {
                return Ok(own);
            }
            words[0] = "apt";
            sentence_of(alloc, "Owner's instruction: ", words.as_slice())
        }
        ["journal" | "replay", number, ..] if is_journal(number) => {
            let before = format!(in alloc; "Journal {number}: ")?;
            let _ = words.remove(1);
            sentence_of(alloc, before.as_str(), words.as_slice())
        }
        _ => sentence_of(alloc, "", words.as_slice()),
    }
}
