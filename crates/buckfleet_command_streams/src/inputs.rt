//! Standard input and standard output in the place of files.
use crate::known::{Known, LIMIT};
use buckfleet_engine_files::{Make, Open};
use buckfleet_tasks::DASH;
use std::alloc::Global;
use std::cell::{Cell, RefCell};
use std::io;
use std::io::{Error, ErrorKind};

/// What was read of an input, as far as there was memory to keep it, and how its reading ended.
#[derive(Drop)]
pub struct Copied {
    bytes: Vec<u8>,
    is_whole: bool,
    count: u64,
    /// Why no more of it could be read, if it couldn't.
    pub refused: Option<ErrorKind>,
}

impl Copied {
    /// Keeps what was read. If there is no room for it, the room grows by what is missing, and at least by an eighth.
    fn keep(&mut self, bytes: &[u8]) {
        self.count = self.count.saturating_add(bytes.len() as u64);
        if !self.is_whole {
            return;
        }
        let kept = self.bytes.len();
        if self.bytes.capacity().saturating_sub(kept) < bytes.len() {
            self.is_whole = self.bytes.reserve_exact(bytes.len().max(kept / 8)).is_ok();
        }
        self.is_whole = self.is_whole && self.bytes.extend_from_slice(bytes).is_ok();
    }

    /// What was read, if all of it was kept.
    pub fn bytes(&self) -> Option<&[u8]> {
        if self.is_whole {
            Some(self.bytes.as_slice())
        } else {
            None
        }
    }

    /// How many bytes were read.
    pub fn count(&self) -> u64 {
        self.count
    }
}

/// What was read of the inputs of a run, in the order in which they were opened, if that is to be kept.
#[derive(Drop)]
pub struct Kept {
    alloc: Global,
    is_wanted: Cell<bool>,
    /// How many bytes the inputs have, as far as that is known.
    sizes: Vec<usize>,
    inputs: RefCell<Vec<Copied>>,
}

/// Number of bytes that are kept of the input of a name, if it is known; else 0.
fn size_of<A: Known>(name: &str, known: &A) -> usize {
    match known.size(name) {
        Some(size) if name != DASH => size.min(LIMIT) as usize,
        _ => 0,
    }
}

impl Kept {
    /// What is kept of inputs of these names, if anything is to be: nothing yet.
    pub fn of<A: Known>(alloc: Global, names: &[&str], known: &A, is_wanted: bool) -> Kept {
        let mut sizes = Vec::new(alloc);
        for name in names {
            if !is_wanted || sizes.push(size_of(*name, known)).is_err() {
                break;
            }
        }
        Kept {
            alloc,
            is_wanted: Cell::new(is_wanted),
            sizes,
            inputs: RefCell::new(Vec::new(alloc)),
        }
    }

    /// Another input is opened. Returns its place, if what is read of it is to be kept.
    pub fn begin(&self) -> Option<usize> {
        if !self.is_wanted.get() {
            return None;
        }
        let mut inputs = self.inputs.try_borrow_mut().ok()?;
        let place = inputs.len();
        let mut copied = Copied {
            bytes: Vec::new(self.alloc),
            is_whole: true,
            count: 0,
            refused: None,
        };
        if let Some(size) = self.sizes.get(place) {
            copied.is_whole = copied.bytes.reserve_exact(*size).is_ok();
        }
        if inputs.push(copied).is_err() {
            // Those that are opened after it would stand in wrong places.
            self.is_wanted.set(false);
            return None;
        }
        Some(place)
    }

    /// Keeps what was read of the input at a place, or why nothing could be.
    pub fn keep(&self, place: Option<usize>, read: Result<&[u8], ErrorKind>) {
        let (Some(place), Ok(mut inputs)) = (place, self.inputs.try_borrow_mut()) else {
            return;
        };
        if let Some(copied) = inputs.get_mut(place) {
            match read {
                Ok(bytes) => copied.keep(bytes),
                Err(kind) => copied.refused = Some(kind),
            }
        }
    }
}

/// Standard input, which two may read in turn, and what was read of all inputs.
#[derive(Drop)]
pub struct Inlet<'a, R> {
    reader: RefCell<&'a mut R>,
    /// What was read of all inputs.
    pub kept: Kept,
}

impl<'a, R> Inlet<'a, R> {
    /// Returns a standard input from which nothing was drawn, with what is to be kept of all inputs.
    pub fn of(reader: &'a mut R, kept: Kept) -> Inlet<'a, R> {
        Inlet {
            reader: RefCell::new(reader),
            kept,
        }
    }

    /// Returns what was read of the inputs, in the order in which they were opened.
    pub fn into_copies(self) -> Vec<Copied> {
        let Inlet { reader: _, kept } = self;
        let Kept { inputs, .. } = kept;
        inputs.into_inner()
    }
}

/// One of those who read standard input.
#[derive(Drop)]
pub struct Drawn<'a, 'b, R> {
    /// What is read.
    pub inlet: &'a Inlet<'b, R>,
}

impl<'a, 'b, R: io::Read> io::Read for Drawn<'a, 'b, R> {
    fn read(&mut self, buf: &mut [u8]) -> io::Result<usize> {
        match self.inlet.reader.try_borrow_mut() {
            Ok(mut reader) => reader.read(buf),
            Err(_) => Err(Error::from(ErrorKind::Other)),
        }
    }
}

/// A file, or standard input.
#[derive(Drop)]
pub enum Opened<'a, 'b, F, R> {
    /// A file that was opened.
    File(F),
    /// Standard input.
    Input(Drawn<'a, 'b, R>),
}

impl<'a, 'b, F: io::Read, R: io::Read> io::Read for Opened<'a, 'b, F, R> {
    ghost use Rattle.buckfleet_command_streams.specs.Inputs.{left_in};

    // What is read of a file is what the file gives.
    ghost remaining = { λ o. left_in F.remaining o };

    fn read(&mut self, buf: &mut [u8]) -> io::Result<usize> {
        match self {
            Opened::File(file) => file.read(buf),
            Opened::Input(input) => input.read(buf),
        }
    }
}

/// Standard output, which two may write to in turn.
#[derive(Drop)]
pub struct Outlet<'a, W> {
    writer: RefCell<&'a mut W>,
    /// Why something couldn't be written, if it couldn't.
    refused: Cell<Option<ErrorKind>>,
}

impl<'a, W> Outlet<'a, W> {
    /// Returns a standard output to which nothing was written.
    pub fn of(writer: &'a mut W) -> Outlet<'a, W> {
        Outlet {
            writer: RefCell::new(writer),
            refused: Cell::new(None),
        }
    }

    /// Why something couldn't be written, if it couldn't.
    pub fn refused(&self) -> Option<ErrorKind> {
        self.refused.get()
    }

    /// Whether the pipe that is written to has no reader left.
    pub fn is_gone(&self) -> bool {
        self.refused.get() == Some(ErrorKind::BrokenPipe)
    }

    /// Keeps an error in mind.
    fn note(&self, error: &Error) {
        self.refused.set(Some(error.kind()));
    }
}

/// One of those who write to standard output.
#[derive(Drop)]
pub struct Shared<'a, 'b, W> {
    /// What is written to.
    pub outlet: &'a Outlet<'b, W>,
}

impl<'a, 'b, W: io::Write> io::Write for Shared<'a, 'b, W> {
    fn write(&mut self, buf: &[u8]) -> io::Result<usize> {
        let Ok(mut writer) = self.outlet.writer.try_borrow_mut() else {
            return Err(Error::from(ErrorKind::Other));
        };
        let written = writer.write(buf);
        if let Err(error) = &written {
            self.outlet.note(error);
        }
        written
    }

    fn flush(&mut self) -> io::Result<()> {
        let Ok(mut writer) = self.outlet.writer.try_borrow_mut() else {
            return Err(Error::from(ErrorKind::Other));
        };
        let flushed = writer.flush();
        if let Err(error) = &flushed {
            self.outlet.note(error);
        }
        flushed
    }
}

/// A file that is created or replaced, or standard output.
#[derive(Drop)]
pub enum Written<'a, 'b, M, W> {
    /// A file that was made.
    Made(M),
    /// Standard output.
    Output(Shared<'a, 'b, W>),
}

impl<'a, 'b, M: io::Write, W: io::Write> io::Write for Written<'a, 'b, M, W> {
    ghost use Rattle.buckfleet_command_streams.specs.Inputs.{stands_in};

    // What stands in a file is what the file says.
    ghost contents = { λ w. stands_in M.contents w };

    fn write(&mut self, buf: &[u8]) -> io::Result<usize> {
        match self {
            Written::Made(file) => file.write(buf),
            Written::Output(output) => output.write(buf),
        }
    }

    fn flush(&mut self) -> io::Result<()> {
        match self {
            Written::Made(file) => file.flush(),
            Written::Output(output) => output.flush(),
        }
    }
}

/// Files that another opens and makes, with standard input and output under the name `-`.
#[derive(Drop)]
pub struct Streamed<'a, 'b, 'c, 'd, O, R, W> {
    /// The other, for each name but `-`.
    pub files: O,
    /// Is read as `-`.
    pub inlet: &'a Inlet<'b, R>,
    /// Is written as `-`.
    pub outlet: &'c Outlet<'d, W>,
}

impl<'a, 'b, 'c, 'd, O: Open, R: io::Read, W> Open for Streamed<'a, 'b, 'c, 'd, O, R, W> {
    type File = Opened<'a, 'b, O::File, R>;

    ghost use Rattle.buckfleet_command_streams.specs.Inputs.{OpensElse};

    // What is opened is what the other opens by this name, unless it is that of standard input.
    ghost opens = { λ s name f v. OpensElse O.opens s.files name f v.files };

    fn open(&mut self, name: &str) -> Option<Opened<'a, 'b, O::File, R>> {
        if name == DASH {
            return Some(Opened::Input(Drawn { inlet: self.inlet }));
        }
        match self.files.open(name) {
            Some(file) => Some(Opened::File(file)),
            None => None,
        }
    }
}

impl<'a, 'b, 'c, 'd, O: Make, R, W: io::Write> Make for Streamed<'a, 'b, 'c, 'd, O, R, W> {
    type Made = Written<'c, 'd, O::Made, W>;

    ghost use Rattle.buckfleet_command_streams.specs.Inputs.{MakesElse};

    // What is made is what the other makes by this name, unless it is that of standard output.
    ghost makes = { λ s name f v. MakesElse O.makes s.files name f v.files };

    fn make(&mut self, name: &str) -> Option<Written<'c, 'd, O::Made, W>> {
        if name == DASH {
            return Some(Written::Output(Shared {
                outlet: self.outlet,
            }));
        }
        match self.files.make(name) {
            Some(file) => Some(Written::Made(file)),
            None => None,
        }
    }
}
