//! What comes of a case of the command line: its words over files and streams in memory.
ghost use Rattle.std.specs.Prelude.{⊤};

use buckfleet_command::{Known, Place, Screen, Streams, Trouble, run};
use buckfleet_engine_files::{Make, Open};
use fixture_cases::{Inputs, Named, Outcome};
use std::alloc::Global;
use std::cell::Cell;
use std::io;
use std::io::{Error, ErrorKind};
use std::sync::{Mutex, Wait};
use std::thread::Threads;
use std::time::{Clock, Duration};

/// The files of a case, what is written into the one that is made, and why the last one couldn't be opened.
#[derive(Clone, Copy, Drop)]
struct Shelf<'a> {
    files: &'a [Named],
    made: &'a Mutex<Vec<u8>>,
    refused: &'a Cell<Option<ErrorKind>>,
}

impl<'a> Shelf<'a> {
    /// The bytes of the file of a name.
    fn find(self, name: &str) -> Option<&'a [u8]> {
        for file in self.files {
            if file.name.as_str() == name {
                return Some(file.bytes.as_slice());
            }
        }
        None
    }
}

impl<'a> Open for Shelf<'a> {
    type File = &'a [u8];

    ghost opens = { λ _ _ _ _. ⊤ };

    fn open(&mut self, name: &str) -> Option<&'a [u8]> {
        let file = self.find(name);
        if file.is_none() {
            self.refused.set(Some(ErrorKind::NotFound));
        }
        file
    }
}

impl<'a> Make for Shelf<'a> {
    type Made = Sheet<'a>;

    ghost makes = { λ _ _ _ _. ⊤ };

    fn make(&mut self, _name: &str) -> Option<Sheet<'a>> {
        Some(Sheet { made: self.made })
    }
}

impl<'a> Known for Shelf<'a> {
    fn size(&self, _name: &str) -> Option<u64> {
        None
    }

    fn unwritten(&self, _name: &str, _inputs: &[&str]) -> Option<Trouble> {
        None
    }

    fn refused(&self) -> Option<ErrorKind> {
        self.refused.get()
    }
}

/// The file that is made.
#[derive(Clone, Copy, Drop)]
struct Sheet<'a> {
    made: &'a Mutex<Vec<u8>>,
}

impl<'a> io::Write for Sheet<'a> {
    fn write(&mut self, buf: &[u8]) -> io::Result<usize> {
        let Some(mut made) = self.made.try_lock() else {
            return Err(Error::from(ErrorKind::Other));
        };
        match made.extend_from_slice(buf) {
            Ok(()) => Ok(buf.len()),
            Err(_) => Err(Error::from(ErrorKind::OutOfMemory)),
        }
    }

    fn flush(&mut self) -> io::Result<()> {
        Ok(())
    }
}

/// No clock: nobody looks on.
#[derive(Clone, Copy, Drop)]
struct Still;

impl Clock for Still {
    fn monotonic(&self) -> io::Result<Duration> {
        Ok(Duration::from_millis(0))
    }

    fn since_1970(&self) -> io::Result<Duration> {
        Ok(Duration::from_millis(0))
    }
}

/// What comes of the words of a case: what is printed, what is said on the errors, what is written into the file that is
/// made, and the status.
pub fn outcome_of_words<T: Threads + Wait + Sync>(
    rt: &T,
    alloc: Global,
    words: &Vec<String>,
    inputs: &Inputs,
) -> Outcome {
    let made = Mutex::new(Vec::new(alloc));
    let refused = Cell::new(None);
    let shelf = Shelf {
        files: inputs.files.as_slice(),
        made: &made,
        refused: &refused,
    };
    let mut streams = Streams {
        input: inputs.input.as_slice(),
        output: Vec::new(alloc),
        errors: Vec::new(alloc),
    };
    let place = Place {
        files: shelf,
        known: shelf,
    };
    let screen: Option<Screen<Sheet<'_>, Still>> = None;
    let words = match words.clone() {
        Ok(words) => Ok(words),
        Err(_) => Err(ErrorKind::OutOfMemory),
    };
    let status = run(rt, alloc, &words, place, screen, &mut streams);
    Outcome {
        text: streams.output,
        journal: made.into_inner(),
        line: streams.errors,
        status,
    }
}
