//! Files, streams and a screen in memory.
ghost use Rattle.std.specs.Prelude.{⊤};

use buckfleet_command::{Known, Place, Screen, Streams, Trouble, run};
use buckfleet_engine_files::{Make, Open};
use std::alloc::Global;
use std::cell::Cell;
use std::io;
use std::io::{Error, ErrorKind};
use std::sync::atomic::{AtomicU64, Ordering};
use std::sync::{Mutex, Wait};
use std::thread::Threads;
use std::time::{Clock, Duration};

/// The saw instruction with period 1 and limit 500.
pub const APT: &str = "1 2 APT~901 1 100~902 1 1~903 1 500~910 1 1~
911 1 saw~912 1 1~913 1 1~914 1 1~915 1 100 200~915 2 400~
916 1 3000 4000~917 1 400 500 600 800~918 1 1 1 1 1~
";

/// Two assortments of one name.
const TWINS: &str = "1 2 APT~901 1 100~902 1 1~903 1 500~910 1 2~
911 1 saw~912 1 1~913 1 1~914 1 1~915 1 100~915 2 400~916 1 3000~917 1 400~918 1 1~
911 1 saw~912 1 1~913 1 1~914 1 1~915 1 100~915 2 400~916 1 4000~917 1 400~918 1 1~
";

/// A stem of 4,000 mm and 250 mm.
pub const STM: &str =
    "1 2 STM~951 1 1~952 1 1~953 1 250 250 250 250 250 250 250 250 250 250 250 250 250 250 250 250
250 250 250 250 250 250 250 250 250 250 250 250 250 250 250 250 250 250 250 250 250 250 250 250 250~
";

/// Stem 1 and stem 2, alike.
const TWO: &str = "1 2 STM~
951 1 1~952 1 1~953 1 250 250 250 250 250 250 250 250 250 250 250 250 250 250 250 250
250 250 250 250 250 250 250 250 250 250 250 250 250 250 250 250 250 250 250 250 250 250 250 250 250~
951 1 2~952 1 1~953 1 250 250 250 250 250 250 250 250 250 250 250 250 250 250 250 250
250 250 250 250 250 250 250 250 250 250 250 250 250 250 250 250 250 250 250 250 250 250 250 250 250~
";

/// The journal of a harvester that cuts that stem under the step rule.
const JOURNAL: &str = "1 2 JRN~971 1 400 500 600 800~971 1 600 750 900 400~981 1 1 1 0~981 2 1 1~
981 3 250 250 250 250 250 250 250 250 250 250 250 250 250 250 250 250 250 250 250 250 250 250 250 250 250 250 250 250 250
250 250 250 250 250 250 250 250 250 250 250 250~981 4~981 5 0 4000 0~981 6 157080000~
";

/// A journal without a posting, of the instruction with two of one name.
const IDLE: &str = "1 2 JRN~971 1 400 400~";

/// A journal of one change of targets, whose second list of prices is missing.
const UNLAWFUL: &str = "1 2 JRN~971 1 400 500 600 800~982 1 1 1 0~982 2 0 0 0 4~";

/// Some bytes, and behind them others so many times.
#[derive(Drop)]
pub struct Repeated {
    rest: &'static [u8],
    again: &'static [u8],
    times: usize,
}

impl io::Read for Repeated {
    fn read(&mut self, buf: &mut [u8]) -> io::Result<usize> {
        if self.rest.is_empty() && self.times > 0 {
            self.rest = self.again;
            self.times -= 1;
        }
        let count = buf.len().min(self.rest.len());
        buf[..count].copy_from_slice(&self.rest[..count]);
        self.rest = &self.rest[count..];
        Ok(count)
    }
}

/// The files `apt`, `twins` (an instruction), `stm`, `jrn`, `idle` and `unlawful` (journals) and `bad` (none of these);
/// `two`, which has two stems, `empty`, which has none, `beech`, which has one of another species, and `many`, which has
/// 1,000 of no length and one number; `short` and `long`, of 999,000 and of 1,000,000 blanks; the files `out` and
/// `full`, which can be made, the second with room for 99 bytes; `heavy`, for which there is no memory; and the names
/// that were asked for, each with a space after it.
#[derive(Drop)]
pub struct Shelf<'a> {
    names: &'a Mutex<Vec<u8>>,
    refused: &'a Cell<Option<ErrorKind>>,
}

impl<'a> Shelf<'a> {
    /// Keeps a name that was asked for.
    fn note(&mut self, mark: &[u8], name: &str) {
        if let Some(mut names) = self.names.try_lock() {
            let _ = names.extend_from_slice(mark);
            let _ = names.extend_from_slice(name.as_bytes());
            let _ = names.extend_from_slice(b" ");
        }
    }
}

/// A file of these bytes, and behind them others so many times.
fn file(rest: &'static [u8], again: &'static [u8], times: usize) -> Option<Repeated> {
    Some(Repeated { rest, again, times })
}

const BLANKS: [u8; 1000] = [b' '; 1000];

impl<'a> Open for Shelf<'a> {
    type File = Repeated;

    ghost opens = { λ _ _ _ _. ⊤ };

    fn open(&mut self, name: &str) -> Option<Repeated> {
        self.note(b"", name);
        let file = shelved(name);
        if name == "heavy" {
            self.refused.set(Some(ErrorKind::OutOfMemory));
        } else if file.is_none() {
            self.refused.set(Some(ErrorKind::NotFound));
        }
        file
    }
}

/// The file of a name.
fn shelved(name: &str) -> Option<Repeated> {
    match name {
        "apt" => file(APT.as_bytes(), b"", 0),
        "stm" => file(STM.as_bytes(), b"", 0),
        "two" => file(TWO.as_bytes(), b"", 0),
        "empty" => file(b"1 2 STM~", b"", 0),
        "jrn" => file(JOURNAL.as_bytes(), b"", 0),
        "idle" => file(IDLE.as_bytes(), b"", 0),
        "bad" => file(b"1 2 BAD~", b"", 0),
        "unlawful" => file(UNLAWFUL.as_bytes(), b"", 0),
        "beech" => file(b"1 2 STM~951 1 9~952 1 2~953 1 250~", b"", 0),
        "twins" => file(TWINS.as_bytes(), b"", 0),
        "many" => file(b"1 2 STM~", b"951 1 1~952 1 1~953 1 250~", 1_000),
        "short" => file(b"", &BLANKS, 999),
        "long" => file(b"", &BLANKS, 1_000),
        _ => None,
    }
}

/// What is known of the same files.
#[derive(Drop)]
struct Beside<'a> {
    refused: &'a Cell<Option<ErrorKind>>,
}

impl Known for Beside<'_> {
    fn size(&self, name: &str) -> Option<u64> {
        if name == "out" {
            Some(67_108_865)
        } else {
            None
        }
    }

    fn unwritten(&self, name: &str, _inputs: &[&str]) -> Option<Trouble> {
        if name == "no" {
            Some(Trouble::Folder)
        } else {
            None
        }
    }

    fn refused(&self) -> Option<ErrorKind> {
        self.refused.get()
    }
}

impl<'a> Make for Shelf<'a> {
    type Made = Room;

    ghost makes = { λ _ _ _ _. ⊤ };

    fn make(&mut self, name: &str) -> Option<Room> {
        self.note(b">", name);
        match name {
            "out" => Some(Room { left: 10_000 }),
            "full" => Some(Room { left: 99 }),
            _ => None,
        }
    }
}

/// A file that takes so many bytes and then nothing.
#[derive(Drop)]
pub struct Room {
    left: usize,
}

impl io::Write for Room {
    fn write(&mut self, buf: &[u8]) -> io::Result<usize> {
        let count = buf.len().min(self.left);
        self.left -= count;
        Ok(count)
    }

    fn flush(&mut self) -> io::Result<()> {
        Ok(())
    }
}

/// A screen whose lines are kept.
#[derive(Clone, Copy)]
struct Page<'a> {
    lines: &'a Mutex<Vec<u8>>,
}

impl<'a> io::Write for Page<'a> {
    fn write(&mut self, buf: &[u8]) -> io::Result<usize> {
        let Some(mut lines) = self.lines.try_lock() else {
            return Err(Error::from(ErrorKind::Other));
        };
        match lines.extend_from_slice(buf) {
            Ok(()) => Ok(buf.len()),
            Err(_) => Err(Error::from(ErrorKind::OutOfMemory)),
        }
    }

    fn flush(&mut self) -> io::Result<()> {
        Ok(())
    }
}

/// A clock that is 600 ms further each time it is read.
#[derive(Clone, Copy)]
struct Ticking<'a>(&'a AtomicU64);

impl<'a> Clock for Ticking<'a> {
    fn monotonic(&self) -> io::Result<Duration> {
        let ticks = self.0.fetch_add(1, Ordering::SeqCst);
        Ok(Duration::from_millis(ticks.saturating_mul(600)))
    }

    fn since_1970(&self) -> io::Result<Duration> {
        self.monotonic()
    }
}

/// What a run leaves: its status, what stands on its streams and on its screen, and the names that were asked for.
#[derive(Drop)]
pub struct Ending {
    pub status: u8,
    pub output: Vec<u8>,
    pub errors: Vec<u8>,
    pub screen: Vec<u8>,
    pub names: Vec<u8>,
}

/// A run of these words, which has the instruction and the stem on its input.
pub fn run_words<T: Threads + Wait + Sync>(
    rt: &T,
    alloc: Global,
    words: &Result<Vec<String>, ErrorKind>,
) -> Ending {
    let names = Mutex::new(Vec::new(alloc));
    let lines = Mutex::new(Vec::new(alloc));
    let mut input = Vec::new(alloc);
    let _ = input.extend_from_slice(APT.as_bytes());
    let _ = input.extend_from_slice(b"|");
    let _ = input.extend_from_slice(STM.as_bytes());
    let mut streams = Streams {
        input: input.as_slice(),
        output: Vec::new(alloc),
        errors: Vec::new(alloc),
    };
    let refused = Cell::new(None);
    let place = Place {
        files: Shelf {
            names: &names,
            refused: &refused,
        },
        known: Beside { refused: &refused },
    };
    let ticks = AtomicU64::new(0);
    let screen = Some(Screen {
        erases: true,
        writer: Page { lines: &lines },
        clock: Ticking(&ticks),
    });
    let status = run(rt, alloc, words, place, screen, &mut streams);
    let Streams {
        input: _,
        output,
        errors,
    } = streams;
    Ending {
        status,
        output,
        errors,
        screen: lines.into_inner(),
        names: names.into_inner(),
    }
}
