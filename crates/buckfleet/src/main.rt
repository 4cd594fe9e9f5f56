//! `buckfleet`: the best cutting of felled stems into logs, by a bucking instruction.
//!
//! `buckfleet buck APT STM` reads an instruction file and a stem file and prints how each stem is to be cut; without
//! words it reads both from standard input, with a `|` between them, or says its help if that is a terminal.
//! `buckfleet fleet APT STM..` cuts stem files by a fleet, one harvester for each, and prints its report; `--journal OUT`
//! writes its journal. `buckfleet check APT JOURNAL` says whether a journal is lawful for an instruction, and `buckfleet
//! report APT JOURNAL` prints its report; `buckfleet view APT JOURNAL` shows it as a page, and `buckfleet table APT JOURNAL
//! TABLE` as a table. `buckfleet live APT` cuts stems as they are felled, by requests on standard input. `buckfleet
//! explain LINE..` says a fault line in words. See docs/COMMANDS.md for the commands and the exit statuses,
//! docs/FORMATS.md for the files and the texts, docs/FAULTS.md for the fault lines.
#![tactic(auto)]

use buckfleet_command::{KnownFiles, Place, Screen, Streams, run, say_help};
use buckfleet_engine::conclude;
use buckfleet_engine_files::{Desk, Disk, EngineFault};
use std::io::{BufReader, ErrorKind, IsTerminal};
use std::os::fd::{AsRawFd, IntoRawFd};
use std::process::ExitCode;
use std::rt::Stderr;
use std::{env, fs, io, process};

/// How many standard streams there are: they have the first descriptors.
const STREAMS: i32 = 3;

/// Puts a folder, which can be neither read nor written, into the place of each standard stream that is closed: no file
/// that is opened later is taken for one.
fn fill_closed(rt: &HostRuntime) {
    for _ in 0..STREAMS {
        // Not `/dev/null`, by which the mistake would go unseen: of a folder both a read and a write fail.
        match fs::open(rt, "/") {
            Ok(folder) if folder.as_raw_fd() < STREAMS => {
                let _ = folder.into_raw_fd();
            }
            _ => return,
        }
    }
}

/// The words of the command line, or why they can't be had.
fn words(rt: &HostRuntime) -> Result<Vec<String>, ErrorKind> {
    match env::args(rt) {
        Ok(args) => match args.collect::<Vec<String>>(rt.alloc()) {
            Ok(words) => Ok(words),
            Err(_) => Err(ErrorKind::OutOfMemory),
        },
        Err(error) => Err(error.kind()),
    }
}

/// Whether the terminal can erase the rest of a line: one that has a name, and isn't dumb.
fn erases(rt: &HostRuntime) -> bool {
    match env::var(rt, "TERM") {
        Ok(name) => !name.is_empty() && name.as_str() != "dumb",
        Err(_) => false,
    }
}

/// Where progress is shown: on standard error, if that is a terminal.
fn screen(rt: &HostRuntime) -> Option<Screen<Stderr, &HostRuntime>> {
    let errors = rt.stderr();
    if errors.is_terminal() {
        Some(Screen {
            writer: errors,
            clock: rt,
            erases: erases(rt),
        })
    } else {
        None
    }
}

/// Whether there are no words beside the program's name.
fn is_bare(words: &Result<Vec<String>, ErrorKind>) -> bool {
    match words {
        Ok(words) => words.len() <= 1,
        Err(_) => false,
    }
}

fn main(rt: HostRuntime) -> ExitCode {
    fill_closed(&rt);
    let Ok(input) = BufReader::new(rt.alloc(), rt.reader()) else {
        return ExitCode::from(conclude(&mut rt.stderr(), &Err(EngineFault::Memory)));
    };
    let mut streams = Streams {
        input,
        output: io::writer(&rt),
        errors: rt.stderr(),
    };
    let words = words(&rt);
    if is_bare(&words) && rt.stdin().is_terminal() {
        return ExitCode::from(say_help(rt.alloc(), &mut streams));
    }
    let screen = screen(&rt);
    let desk = Desk::of(process::id(rt.process()));
    let place = Place {
        files: Disk::of(&rt, rt.alloc(), &desk),
        known: KnownFiles::of(&rt, &desk),
    };
    let status = run(&rt, rt.alloc(), &words, place, screen, &mut streams);
    ExitCode::from(status)
}
