//! Readers and writers over memory that go by steps, and fail once, or say once that there is no more.
use std::io;
use std::io::{Error, ErrorKind};

/// What happens at one call of a reader or a writer, the first call being number 1. Afterwards it would go on.
#[derive(Clone, Copy)]
pub enum Trouble {
    Nothing,
    /// The call fails.
    Fails(usize),
    /// The call gives or takes nothing.
    Ends(usize),
}

/// Gives some bytes by steps.
#[derive(Drop)]
pub struct Source<'a> {
    left: &'a [u8],
    step: usize,
    pub reads: usize,
    pub trouble: Trouble,
}

impl<'a> Source<'a> {
    /// Never fails, and ends where the bytes do.
    pub fn of(bytes: &'a [u8], step: usize) -> Source<'a> {
        Source {
            left: bytes,
            step,
            reads: 0,
            trouble: Trouble::Nothing,
        }
    }
}

impl<'a> io::Read for Source<'a> {
    fn read(&mut self, buf: &mut [u8]) -> io::Result<usize> {
        self.reads = self.reads.saturating_add(1);
        match self.trouble {
            Trouble::Fails(call) if call == self.reads => {
                return Err(Error::from(ErrorKind::TimedOut));
            }
            Trouble::Ends(call) if call == self.reads => return Ok(0),
            _ => {}
        }
        let count = buf.len().min(self.left.len()).min(self.step);
        buf[..count].copy_from_slice(&self.left[..count]);
        self.left = &self.left[count..];
        Ok(count)
    }
}

/// Gives this many blanks.
#[derive(Drop)]
pub struct Blanks {
    pub left: usize,
}

impl io::Read for Blanks {
    fn read(&mut self, buf: &mut [u8]) -> io::Result<usize> {
        let count = buf.len().min(self.left);
        buf[..count].fill(b' ');
        self.left -= count;
        Ok(count)
    }
}

/// How many bytes a sink holds.
const ROOM: usize = 1024;

/// Takes bytes by steps, into room of its own.
#[derive(Drop)]
pub struct Sink {
    held: [u8; ROOM],
    length: usize,
    step: usize,
    pub writes: usize,
    pub trouble: Trouble,
}

impl Sink {
    /// Never fails, and has room for 1,024 bytes.
    pub fn of(step: usize) -> Sink {
        Sink {
            held: [0; ROOM],
            length: 0,
            step,
            writes: 0,
            trouble: Trouble::Nothing,
        }
    }

    /// What was written.
    pub fn bytes(&self) -> &[u8] {
        &self.held[..self.length.min(ROOM)]
    }
}

impl io::Write for Sink {
    fn write(&mut self, buf: &[u8]) -> io::Result<usize> {
        self.writes = self.writes.saturating_add(1);
        match self.trouble {
            Trouble::Fails(call) if call == self.writes => {
                return Err(Error::from(ErrorKind::WriteZero));
            }
            Trouble::Ends(call) if call == self.writes => return Ok(0),
            _ => {}
        }
        let start = self.length.min(ROOM);
        let count = buf.len().min(self.step).min(ROOM - start);
        self.held[start..start + count].copy_from_slice(&buf[..count]);
        self.length = start + count;
        Ok(count)
    }

    fn flush(&mut self) -> io::Result<()> {
        Ok(())
    }
}
