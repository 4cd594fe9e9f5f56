//! Names and other bytes, as they may go to a terminal.
use std::fmt;

/// The most bytes of a quoted text that are shown.
const MOST: usize = 32;

/// A byte by its number.
#[derive(Clone, Copy)]
struct Coded(u8);

impl fmt::Display for Coded {
    fn fmt<W: fmt::Write>(&self, f: &mut fmt::Formatter<W>) -> fmt::Result {
        let byte = self.0;
        write!(f, "\\x{byte:02x}")
    }
}

/// A character as it stands, or a control character by the numbers of its bytes.
#[derive(Clone, Copy)]
struct Calm(char);

impl fmt::Display for Calm {
    fn fmt<W: fmt::Write>(&self, f: &mut fmt::Formatter<W>) -> fmt::Result {
        let c = self.0;
        let code = u32::from(c);
        match u8::try_from(code) {
            Ok(byte) if byte < b' ' || byte == b'\x7f' => write!(f, "{}", Coded(byte)),
            Ok(byte) if 128 <= byte && byte < 160 => write!(f, "\\xc2{}", Coded(byte)),
            _ => write!(f, "{c}"),
        }
    }
}

/// Bytes that are no text: those of plain letters as they stand, all others by their numbers.
#[derive(Clone, Copy)]
struct Bytes<'a>(&'a [u8]);

impl fmt::Display for Bytes<'_> {
    fn fmt<W: fmt::Write>(&self, f: &mut fmt::Formatter<W>) -> fmt::Result {
        for byte in self.0 {
            let byte = *byte;
            if byte < 127 {
                write!(f, "{}", Calm(char::from(byte)))?;
            } else {
                write!(f, "{}", Coded(byte))?;
            }
        }
        Ok(())
    }
}

/// A name as it may go to a terminal: its text, with control characters by the numbers of their bytes (`\x1b`); of a
/// name that is no text, all bytes past 127 too.
#[derive(Clone, Copy)]
pub struct Shown<'a>(pub &'a [u8]);

impl fmt::Display for Shown<'_> {
    fn fmt<W: fmt::Write>(&self, f: &mut fmt::Formatter<W>) -> fmt::Result {
        match str::from_utf8(self.0) {
            Ok(text) => {
                for c in text.chars() {
                    write!(f, "{}", Calm(c))?;
                }
                Ok(())
            }
            Err(_) => write!(f, "{}", Bytes(self.0)),
        }
    }
}

/// A text in quotes: its first 32 bytes, and two points if it goes on.
#[derive(Clone, Copy)]
pub struct Quoted<'a>(pub &'a [u8]);

impl fmt::Display for Quoted<'_> {
    fn fmt<W: fmt::Write>(&self, f: &mut fmt::Formatter<W>) -> fmt::Result {
        match self.0.split_at_checked(MOST) {
            Some((first, [_, ..])) => write!(f, "\"{}..\"", Shown(first)),
            _ => write!(f, "\"{}\"", Shown(self.0)),
        }
    }
}

/// A number of things with their name in the singular: `1 row`, `2 rows`.
#[derive(Clone, Copy)]
pub struct Several(pub usize, pub &'static str);

impl fmt::Display for Several {
    fn fmt<W: fmt::Write>(&self, f: &mut fmt::Formatter<W>) -> fmt::Result {
        let Several(number, word) = *self;
        if number == 1 {
            write!(f, "1 {word}")
        } else {
            write!(f, "{number} {word}s")
        }
    }
}
