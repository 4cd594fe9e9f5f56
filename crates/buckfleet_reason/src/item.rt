//! The items of a file, each with its place.
ghost use Rattle.std.specs.Prelude.{◌<◌, length, IfSome};
ghost use Rattle.std.specs.Iterator.{at_most};

use buck_record::{Slot, is_white, number};

/// The number and the kind of an item.
#[derive(Clone, Copy, Debug, PartialEq, Eq)]
pub struct Key {
    /// The first word of the head, 0 to 65,535.
    pub number: u16,
    /// The second word of the head, 0 to 65,535.
    pub kind: u16,
}

impl Key {
    /// Returns the head of a slot.
    pub fn of(slot: Slot) -> Key {
        Key {
            number: slot.number,
            kind: slot.kind,
        }
    }

    /// Returns whether an item with this head is in a slot.
    pub fn is(self, slot: Slot) -> bool {
        self.number == slot.number && self.kind == slot.kind
    }
}

/// A word, and its place in its file.
#[derive(Clone, Copy)]
pub struct Word<'a> {
    pub text: &'a [u8],
    /// Number of bytes before it in its file.
    pub at: usize,
}

impl Word<'_> {
    /// Returns its number, if it is one.
    pub fn number(&self) -> Option<u32> {
        number(self.text).ok()
    }

    /// Its number, if it can be one of an item's head.
    fn head(&self) -> Option<u16> {
        match self.number() {
            Some(number) => u16::try_from(number).ok(),
            None => None,
        }
    }
}

/// Some bytes within others: how many stand before them, they, and what follows.
#[derive(Clone, Copy)]
struct Cut<'a> {
    before: usize,
    found: &'a [u8],
    after: &'a [u8],
}

/// The first word of a text, if there is one.
fn cut_word(text: &[u8]) -> Option<Cut<'_>>
    ensures shorter { IfSome result (λ c. length c.after.now < length text.now) }
{
    let before = text.iter().position(|b| !is_white(*b))?;
    let (_, rest) = text[before..].split_first()?;
    let more = rest.iter().position(|b| is_white(*b)).unwrap_or(rest.len());
    Some(Cut {
        before,
        found: &text[before..before + 1 + more],
        after: &rest[more..],
    })
}

/// The words of a text, separated by whitespace.
#[derive(Clone, Copy, Drop)]
pub struct Words<'a> {
    rest: &'a [u8],
    at: usize,
}

impl<'a> Iterator for Words<'a> {
    type Item = Word<'a>;

    ghost remaining = { λ w. at_most (length w.rest.now) };

    fn next(&mut self) -> Option<Word<'a>> {
        let cut = cut_word(self.rest)?;
        let at = self.at.saturating_add(cut.before);
        self.rest = cut.after;
        self.at = at.saturating_add(cut.found.len());
        Some(Word {
            text: cut.found,
            at,
        })
    }
}

/// The bytes up to the last that isn't white.
fn trim_end(bytes: &[u8]) -> &[u8] {
    match bytes.iter().rposition(|b| !is_white(*b)) {
        Some(last) => &bytes[..last + 1],
        None => &[],
    }
}

/// The first piece of a file that isn't empty, without whitespace at both ends, if there is one.
fn cut_piece(bytes: &[u8]) -> Option<Cut<'_>>
    ensures shorter { IfSome result (λ c. length c.after.now < length bytes.now) }
{
    let before = bytes.iter().position(|b| !is_white(*b) && *b != b'~')?;
    let (_, rest) = bytes[before..].split_first()?;
    let more = rest.iter().position(|b| *b == b'~').unwrap_or(rest.len());
    Some(Cut {
        before,
        found: &bytes[before..before + 1 + more],
        after: &rest[more..],
    })
}

/// An item of a file, or a piece without a head.
#[derive(Clone, Copy)]
pub struct Item<'a> {
    pub text: &'a [u8],
    /// Number of bytes before it in its file.
    pub at: usize,
}

impl<'a> Item<'a> {
    /// All words, those of the head too.
    fn all_words(&self) -> Words<'a> {
        Words {
            rest: self.text,
            at: self.at,
        }
    }

    /// Returns its number and its kind, if it has a head.
    pub fn key(&self) -> Option<Key> {
        let mut words = self.all_words();
        let number = words.next()?.head()?;
        let kind = words.next()?.head()?;
        Some(Key { number, kind })
    }

    /// Returns whether it is in a slot.
    pub fn is(&self, slot: Slot) -> bool {
        match self.key() {
            Some(key) => key.is(slot),
            None => false,
        }
    }

    /// Returns the words after the head.
    pub fn words(&self) -> Words<'a> {
        let mut words = self.all_words();
        let _ = words.next();
        let _ = words.next();
        words
    }

    /// Returns the bytes after the head.
    pub fn rest(&self) -> &'a [u8] {
        let words = self.words();
        match words.rest.iter().position(|b| !is_white(*b)) {
            Some(first) => &words.rest[first..],
            None => &[],
        }
    }

    /// Returns the word at a place after the head, counted from 1; the last byte if there is none.
    pub fn word(&self, place: usize) -> Word<'a> {
        self.words().nth(place.saturating_sub(1)).unwrap_or(Word {
            text: &[],
            at: self.at.saturating_add(self.text.len()).saturating_sub(1),
        })
    }

    /// Returns the number of words after the head.
    pub fn count(&self) -> usize {
        self.words().count()
    }

    /// Returns the place of the first word after the head that is not a number, counted from 1, if there is one.
    pub fn wrong_place(&self) -> Option<usize> {
        let before = self.words().position(|word| word.number().is_none())?;
        Some(before.saturating_add(1))
    }
}

/// The items of a file, and its pieces without a head.
#[derive(Clone, Copy, Drop)]
pub struct Items<'a> {
    rest: &'a [u8],
    at: usize,
}

impl<'a> Items<'a> {
    /// Returns the items of all bytes of a file.
    pub fn of(bytes: &'a [u8]) -> Items<'a> {
        Items { rest: bytes, at: 0 }
    }

    /// Returns the items from a byte on, by its index from 0.
    pub fn from(bytes: &'a [u8], at: usize) -> Items<'a> {
        match bytes.split_at_checked(at) {
            Some((_, rest)) => Items { rest, at },
            None => Items { rest: &[], at },
        }
    }
}

impl<'a> Iterator for Items<'a> {
    type Item = Item<'a>;

    ghost remaining = { λ i. at_most (length i.rest.now) };

    fn next(&mut self) -> Option<Item<'a>> {
        let cut = cut_piece(self.rest)?;
        let at = self.at.saturating_add(cut.before);
        self.rest = cut.after;
        self.at = at.saturating_add(cut.found.len());
        Some(Item {
            text: trim_end(cut.found),
            at,
        })
    }
}
