//! What is known of the files of a run beside their bytes.
use buckfleet_engine_files::{Desk, has_folder_input, is_standard};
use buckfleet_reason::Shown;
use std::fmt;
use std::fs::Metadata;
use std::io::ErrorKind;
use std::os::unix::fs::MetadataExt;
use std::rt::Files;

/// The most bytes that a file may have.
pub const LIMIT: u64 = 67_108_864;

/// Why a file can't be read or written.
#[derive(Clone, Copy, Debug, PartialEq, Eq)]
pub enum Trouble {
    /// There is no file of its name.
    Missing,
    /// It is a folder.
    Folder,
    /// It may not be read or written by this user.
    Forbidden,
    /// It has more bytes than a file may have.
    Long,
    /// There is no space left for it.
    Full,
    /// It is the input file at this index, from 0.
    Input(usize),
    /// It is the file of a standard stream.
    Standard,
    /// Another reason.
    Other,
}

impl Trouble {
    /// What an error of a file says.
    pub fn of(kind: ErrorKind) -> Trouble {
        match kind {
            ErrorKind::NotFound | ErrorKind::NotADirectory => Trouble::Missing,
            ErrorKind::IsADirectory => Trouble::Folder,
            ErrorKind::PermissionDenied => Trouble::Forbidden,
            ErrorKind::StorageFull | ErrorKind::QuotaExceeded => Trouble::Full,
            _ => Trouble::Other,
        }
    }
}

/// Why a file can't be read or written, in words.
#[derive(Clone, Copy)]
pub struct Troubled<'a> {
    /// Why it can't.
    pub trouble: Trouble,
    /// The names of the input files.
    pub inputs: &'a [&'a str],
}

impl fmt::Display for Troubled<'_> {
    fn fmt<W: fmt::Write>(&self, f: &mut fmt::Formatter<W>) -> fmt::Result {
        match self.trouble {
            Trouble::Missing => write!(f, "no such file"),
            Trouble::Folder => write!(f, "is a folder"),
            Trouble::Forbidden => write!(f, "permission denied"),
            Trouble::Long => write!(f, "longer than {LIMIT} bytes"),
            Trouble::Full => write!(f, "no space left"),
            Trouble::Input(place) => {
                let name = self.inputs.get(place).copied().unwrap_or("");
                write!(f, "is the input file {}", Shown(name.as_bytes()))
            }
            Trouble::Standard => { write!(f, "is the file of standard input, output or error") }
            Trouble::Other => write!(f, "can't be opened, read or written"),
        }
    }
}

/// Facts about the files of a run beside their bytes.
pub trait Known {
    /// Number of bytes of the file of this name, if it is a regular one.
    fn size(&self, name: &str) -> Option<u64>;

    /// Why the file of this name isn't to be written, given the input files; none if it may be. It isn't opened for
    /// that, nor made.
    fn unwritten(&self, name: &str, inputs: &[&str]) -> Option<Trouble>;

    /// Why the last file that couldn't be opened, made or written couldn't, if the system said so.
    fn refused(&self) -> Option<ErrorKind> {
        None
    }

    /// Whether standard input may be read: it is no folder.
    fn has_input(&self) -> bool {
        true
    }
}

/// The files that a runtime has, by their paths.
#[derive(Clone, Copy, Drop)]
pub struct KnownFiles<'a, R> {
    rt: &'a R,
    desk: &'a Desk,
}

impl<'a, R> KnownFiles<'a, R> {
    /// Returns the files of a runtime, with the desk that keeps why the last of them was refused.
    pub fn of(rt: &'a R, desk: &'a Desk) -> KnownFiles<'a, R> {
        KnownFiles { rt, desk }
    }
}

/// Whether two files of a system are one.
fn are_one(one: &Metadata, other: &Metadata) -> bool {
    one.dev() == other.dev() && one.ino() == other.ino()
}

impl<'a, R: Files> KnownFiles<'a, R> {
    /// The place of the input file that a file is, if it is one.
    fn input_of(&self, found: &Metadata, inputs: &[&str]) -> Option<usize> {
        let mut place = 0usize;
        for input in inputs {
            if let Ok(other) = self.rt.metadata(*input) {
                if are_one(found, &other) {
                    return Some(place);
                }
            }
            place = place.saturating_add(1);
        }
        None
    }
}

impl<'a, R: Files> Known for KnownFiles<'a, R> {
    fn size(&self, name: &str) -> Option<u64> {
        match self.rt.metadata(name) {
            Ok(found) if found.is_file() => Some(found.len()),
            _ => None,
        }
    }

    fn unwritten(&self, name: &str, inputs: &[&str]) -> Option<Trouble> {
        let Ok(found) = self.rt.metadata(name) else {
            return None;
        };
        if !found.is_file() {
            return None;
        }
        match self.input_of(&found, inputs) {
            Some(place) => Some(Trouble::Input(place)),
            None if is_standard(self.rt, &found) => Some(Trouble::Standard),
            None => None,
        }
    }

    fn refused(&self) -> Option<ErrorKind> {
        self.desk.refused()
    }

    fn has_input(&self) -> bool {
        !has_folder_input(self.rt)
    }
}
