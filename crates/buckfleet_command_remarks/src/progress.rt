//! Progress on a screen while long work goes on: which long files were read, and how far a fleet or a
//! trial is. Short work has none.
ghost use Rattle.std.specs.Prelude.{◌≡◌};
ghost use Rattle.std.specs.Option.{option_map};

use crate::notes::input_notes;
use buck_apt_instruction::Instruction;
use buck_record::Memory;
use buckfleet_command_streams::Kept;
use buckfleet_engine_files::{HasStem, Make, Onlooker, Open, RunOnlooker};
use buckfleet_reason::Shown;
use buckfleet_tasks::{Subject, Work};
use std::alloc::Global;
use std::io;
use std::sync::OnceLock;
use std::sync::atomic::{AtomicBool, AtomicU64, Ordering};
use std::time::{Clock, Instant};

/// A screen for progress, and the clock of its work.
#[derive(Clone, Copy)]
pub struct Screen<S, C> {
    /// Takes what is shown.
    pub writer: S,
    /// Says how long the work goes on.
    pub clock: C,
    /// Whether the rest of a line can be erased.
    pub erases: bool,
}

/// One line of progress on a screen, if there is one: it is updated in place, or on a line of its own if the screen
/// can't erase. What deserves a warning is noted for that screen.
#[derive(Drop)]
pub struct Progress<'a, S, C> {
    alloc: Global,
    /// Where the line is drawn, if it is.
    pub screen: Option<Screen<S, C>>,
    /// The work that goes on, and its files.
    pub work: &'a Work<'a>,
    subject: &'a Subject<'a>,
    start: Option<Instant>,
    is_drawn: AtomicBool,
    /// How many stems or runs there are, and how many of them are done.
    all: AtomicU64,
    done: AtomicU64,
    /// The warnings about an instruction and the stems that are cut by it, once these are read.
    pub notes: OnceLock<Result<String, Memory>>,
}

/// The least number of bytes of a file that is reported.
const LONG: u64 = 1_000_000;

/// The least number of stems of a fleet that is reported.
const MANY: u64 = 1_000;

/// Number of seconds that work goes on before it is reported.
const SOON: u64 = 1;

/// Returns whether it is reported that so many stems of all are planned: at each percent, and no more often than each
/// thousand, and at the last.
fn is_told(planned: u64, stems: u64) -> bool {
    planned % (stems / 100).max(MANY) == 0 || planned == stems
}

/// How many percent of all so many are.
fn percent(done: u64, all: u64) -> u64 {
    done.saturating_mul(100) / all.max(1)
}

impl<'a, S: io::Write + Copy, C: Clock + Copy> Progress<'a, S, C> {
    /// Returns a line on this screen, for work that begins now; without a screen it draws and notes nothing.
    pub fn on(
        alloc: Global,
        screen: Option<Screen<S, C>>,
        work: &'a Work<'a>,
        subject: &'a Subject<'a>,
    ) -> Progress<'a, S, C> {
        let start = match &screen {
            Some(screen) => Instant::now(&screen.clock).ok(),
            None => None,
        };
        Progress {
            alloc,
            screen,
            work,
            subject,
            start,
            is_drawn: AtomicBool::new(false),
            all: AtomicU64::new(0),
            done: AtomicU64::new(0),
            notes: OnceLock::new(),
        }
    }

    /// Whether the work goes on for so long that it is reported.
    fn is_long(&self, clock: &C) -> bool {
        let Some(start) = self.start else {
            return false;
        };
        match start.elapsed(clock) {
            Ok(time) => time.as_secs() >= SOON,
            Err(_) => false,
        }
    }

    /// Updates the line. One that there is no memory for, or that the screen doesn't take, is left out.
    fn draw(&self, line: &str) {
        let Some(screen) = &self.screen else {
            return;
        };
        if !self.is_long(&screen.clock) {
            return;
        }
        let drawn = if screen.erases {
            format!(in self.alloc; "\r{line}\x1b[K")
        } else {
            format!(in self.alloc; "{line}\n")
        };
        if let Ok(drawn) = drawn {
            let mut writer = screen.writer;
            let _ = writer.write_all(drawn.as_bytes());
            self.is_drawn.store(screen.erases, Ordering::SeqCst);
        }
    }

    /// About how many seconds the rest takes, after so many of all are done; 0 if that isn't known.
    fn seconds_left(&self, done: u64, all: u64) -> u64 {
        let (Some(screen), Some(start)) = (&self.screen, self.start) else {
            return 0;
        };
        match start.elapsed(&screen.clock) {
            Ok(time) => time.as_secs().saturating_mul(all.saturating_sub(done)) / done.max(1),
            Err(_) => 0,
        }
    }

    /// Ends the line: the work has ended, and what is drawn stays.
    pub fn end(&self) {
        if !self.is_drawn.load(Ordering::SeqCst) {
            return;
        }
        if let Some(screen) = &self.screen {
            let mut writer = screen.writer;
            let _ = writer.write_all(b"\n");
        }
    }

    /// A file was read to its end.
    fn read_whole(&self, name: &str, bytes: u64) {
        if bytes < LONG {
            return;
        }
        if let Ok(line) = format!(in self.alloc; "{}: {bytes} bytes read", Shown(name.as_bytes())) {
            self.draw(line.as_str());
        }
    }
}

impl<'a, S: io::Write + Copy, C: Clock + Copy> Onlooker for Progress<'a, S, C> {
    fn read<F: HasStem>(&self, instruction: &Instruction, files: &[Vec<F>]) {
        if self.screen.is_some() {
            let notes = input_notes(self.alloc, self.subject, instruction, files);
            let _ = self.notes.try_set(notes);
        }
    }

    fn cutting(&self, stems: usize) {
        self.all.store(stems as u64, Ordering::SeqCst);
        if (stems as u64) < MANY {
            return;
        }
        if let Ok(line) = format!(in self.alloc; "{stems} stems to cut") {
            self.draw(line.as_str());
        }
    }

    fn planned(&self) {
        let planned = self.done.fetch_add(1, Ordering::SeqCst).saturating_add(1);
        let stems = self.all.load(Ordering::SeqCst);
        if stems < MANY || !is_told(planned, stems) {
            return;
        }
        if let Ok(line) = format!(in self.alloc; "{planned} of {stems} stems planned") {
            self.draw(line.as_str());
        }
    }
}

impl<'a, S: io::Write + Copy, C: Clock + Copy> RunOnlooker for Progress<'a, S, C> {
    fn making(&self, runs: usize) {
        self.all.store(runs as u64, Ordering::SeqCst);
    }

    fn made(&self, runs: usize) {
        let more = runs as u64;
        let before = self.done.fetch_add(more, Ordering::SeqCst);
        let made = before.saturating_add(more);
        let all = self.all.load(Ordering::SeqCst);
        if percent(before, all) == percent(made, all) {
            return;
        }
        let line = match self.seconds_left(made, all) {
            0 => format!(in self.alloc; "{made} of {all} runs made"),
            seconds => format!(in self.alloc; "{made} of {all} runs made, about {seconds} s left"),
        };
        if let Ok(line) = line {
            self.draw(line.as_str());
        }
    }
}

/// Files that another opener opens. Each is reported when it was read, and what was read is kept.
#[derive(Drop)]
pub struct Watched<'a, O, S, C> {
    /// The other opener.
    pub files: O,
    /// To which it is reported.
    pub progress: &'a Progress<'a, S, C>,
    /// Where it is kept.
    pub kept: &'a Kept,
}

/// A file that is reported when it was read to its end. What was read is kept.
#[derive(Drop)]
pub struct WatchedFile<'a, R, S, C> {
    /// The file itself.
    pub file: R,
    name: Option<String>,
    bytes: u64,
    progress: &'a Progress<'a, S, C>,
    kept: &'a Kept,
    /// Its place among those of which it is kept.
    place: Option<usize>,
}

impl<'a, O, S, C> Watched<'a, O, S, C> {
    /// Returns a file that was opened, to be reported by this name, if it has one, and kept at this place, if it is
    /// kept.
    pub fn file<R>(
        &self,
        file: R,
        name: Option<String>,
        place: Option<usize>,
    ) -> WatchedFile<'a, R, S, C>
        ensures { result.file ≡ file }
    {
        WatchedFile {
            file,
            name,
            bytes: 0,
            progress: self.progress,
            kept: self.kept,
            place,
        }
    }
}

impl<'a, R: io::Read, S: io::Write + Copy, C: Clock + Copy> io::Read for WatchedFile<'a, R, S, C> {
    // What is read is what the file gives.
    ghost remaining = { λ f. R.remaining f.file };

    fn read(&mut self, buf: &mut [u8]) -> io::Result<usize> {
        match self.file.read(buf) {
            Ok(count) => {
                let (read, _) = buf.split_at_checked(count).unwrap_or((&[], &[]));
                self.note(read);
                Ok(count)
            }
            Err(error) => {
                self.kept.keep(self.place, Err(error.kind()));
                Err(error)
            }
        }
    }
}

impl<'a, R, S: io::Write + Copy, C: Clock + Copy> WatchedFile<'a, R, S, C> {
    /// Keeps and counts the bytes of a read, or tells that there are no more.
    fn note(&mut self, read: &[u8])
        ensures { self.new.file ≡ self.old.file }
    {
        if !read.is_empty() {
            self.kept.keep(self.place, Ok(read));
            self.bytes = self.bytes.saturating_add(read.len() as u64);
            return;
        }
        if let Some(name) = &self.name {
            self.progress.read_whole(name.as_str(), self.bytes);
        }
    }
}

impl<'a, O: Open, S: io::Write + Copy, C: Clock + Copy> Open for Watched<'a, O, S, C> {
    type File = WatchedFile<'a, O::File, S, C>;

    // What is opened is what the other opener opens by this name.
    ghost opens = { λ w name f v. O.opens w.files name (option_map (λ x. x.file) f) v.files };

    fn open(&mut self, name: &str) -> Option<WatchedFile<'a, O::File, S, C>> {
        let Some(file) = self.files.open(name) else {
            return None;
        };
        let name = String::from_str(self.progress.alloc, name).ok();
        Some(self.file(file, name, self.kept.begin()))
    }
}

impl<'a, O: Make, S, C> Make for Watched<'a, O, S, C> {
    type Made = O::Made;

    // What is made is what the other makes by this name.
    ghost makes = { λ w name f v. O.makes w.files name f v.files };

    fn make(&mut self, name: &str) -> Option<O::Made> {
        self.files.make(name)
    }
}
