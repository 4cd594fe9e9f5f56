//! A file, and places in it.
use crate::item::{Item, Items};
use crate::shown::Shown;
use buck_record::Memory;
use std::alloc::Global;
use std::fmt;

/// Why a file is refused, in lines of text; none if nothing in it is as the fault says.
pub type Said = Result<Option<String>, Memory>;

/// A file that was read, or one line of it: its name as it was given, and its bytes.
#[derive(Clone, Copy)]
pub struct Source<'a> {
    pub name: &'a [u8],
    pub bytes: &'a [u8],
    /// The line that the bytes are, counted from 1, if they are one line.
    only: Option<usize>,
}

/// A file, or a line of it.
#[derive(Clone, Copy)]
pub struct Here<'a> {
    pub name: &'a [u8],
    /// The line, counted from 1, if the place is in one.
    pub line: Option<usize>,
}

impl fmt::Display for Here<'_> {
    fn fmt<W: fmt::Write>(&self, f: &mut fmt::Formatter<W>) -> fmt::Result {
        let name = Shown(self.name);
        match self.line {
            Some(line) => write!(f, "{name}, line {line}"),
            None => write!(f, "{name}"),
        }
    }
}

impl Here<'_> {
    /// Returns these words of the place, as a line of text.
    pub fn say<T: fmt::Display + Drop>(&self, alloc: Global, words: T) -> Said {
        Ok(Some(format!(in alloc; "{self}: {words}\n")?))
    }
}

impl<'a> Source<'a> {
    /// Returns a whole file.
    pub fn of_file(name: &'a [u8], bytes: &'a [u8]) -> Source<'a> {
        Source {
            name,
            bytes,
            only: None,
        }
    }

    /// Returns one line of a file, by its number, counted from 1.
    pub fn of_line(name: &'a [u8], bytes: &'a [u8], line: usize) -> Source<'a> {
        Source {
            name,
            bytes,
            only: Some(line),
        }
    }

    /// Whether it is one line.
    pub(crate) fn is_line(&self) -> bool {
        self.only.is_some()
    }

    /// Returns its items, and its pieces without a head.
    pub fn items(&self) -> Items<'a> {
        Items::of(self.bytes)
    }

    /// Returns the items after one of its items.
    pub fn items_after(&self, item: &Item<'_>) -> Items<'a> {
        let mut items = Items::from(self.bytes, item.at);
        let _ = items.next();
        items
    }

    /// Returns the line of a byte, counted from 1.
    pub fn line(&self, at: usize) -> usize {
        if let Some(line) = self.only {
            return line;
        }
        let before = match self.bytes.split_at_checked(at) {
            Some((before, _)) => before,
            None => self.bytes,
        };
        let ended = before.iter().filter(|byte| **byte == b'\n').count();
        ended.saturating_add(1)
    }

    /// Returns the line of a byte, as it is named.
    pub fn here(&self, at: usize) -> Here<'a> {
        Here {
            name: self.name,
            line: Some(self.line(at)),
        }
    }

    /// Returns the file, or its line, as it is named.
    pub fn whole(&self) -> Here<'a> {
        Here {
            name: self.name,
            line: self.only,
        }
    }
}
