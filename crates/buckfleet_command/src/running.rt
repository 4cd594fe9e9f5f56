//! Whole runs, from the words to the exit status.
use crate::served::{Place, serve_told};
use crate::working::Streams;
use buckfleet_command_line::{help_text, mistake};
use buckfleet_command_remarks::Screen;
use buckfleet_command_streams::Known;
use buckfleet_command_words::{Asked, parse};
use buckfleet_engine::{conclude, explain};
use buckfleet_engine_files::{EngineFault, Make, Open};
use buckfleet_explain::sentence;
use buckfleet_reason::Shown;
use clap::Error;
use clap::error::ErrorKind;
use std::alloc::{AllocError, Global};
use std::sync::Wait;
use std::thread::Threads;
use std::time::Clock;
use std::{fmt, io};

/// An argument is not UTF-8 text.
const NO_TEXT: &[u8] = b"error: an argument is not UTF-8 text\n\nUsage: buckfleet [COMMAND]\n";

/// There is no such fault line.
const NO_LINE: &str = "there is no such fault line";

/// Lines as they may go to a terminal, which no word that stands in them can steer.
#[derive(Clone, Copy)]
struct Lines<'a>(&'a str);

impl fmt::Display for Lines<'_> {
    fn fmt<W: fmt::Write>(&self, f: &mut fmt::Formatter<W>) -> fmt::Result {
        let mut is_first = true;
        for line in self.0.split('\n') {
            if !is_first {
                f.write_str("\n")?;
            }
            is_first = false;
            write!(f, "{}", Shown(line.as_bytes()))?;
        }
        Ok(())
    }
}

/// What `clap` says.
fn said(alloc: Global, error: &Error) -> Result<String, AllocError> {
    let text = format!(in alloc; "{error}")?;
    format!(in alloc; "{}", Lines(text.as_str()))
}

/// Says help or the version on the output, and what is wrong with the words on the errors. The answer is the exit
/// status.
fn explain_words<R, W: io::Write, E: io::Write>(
    alloc: Global,
    streams: &mut Streams<R, W, E>,
    error: &Error,
) -> u8 {
    if error.kind() == ErrorKind::OutOfMemory {
        return conclude(&mut streams.errors, &Err(EngineFault::Memory));
    }
    match said(alloc, error) {
        Ok(text) => explain(
            &mut streams.output,
            &mut streams.errors,
            text.as_bytes(),
            error.use_stderr(),
        ),
        Err(_) => conclude(&mut streams.errors, &Err(EngineFault::Memory)),
    }
}

/// Says why the words can't be had. The answer is the exit status.
fn refuse_words<R, W: io::Write, E: io::Write>(
    streams: &mut Streams<R, W, E>,
    kind: io::ErrorKind,
) -> u8 {
    if kind == io::ErrorKind::OutOfMemory {
        return conclude(&mut streams.errors, &Err(EngineFault::Memory));
    }
    explain(&mut streams.output, &mut streams.errors, NO_TEXT, true)
}

/// Prints the help on the errors, for a run without arguments whose standard input is a terminal. Returns the exit
/// status, that of a usage error.
pub fn say_help<R, W: io::Write, E: io::Write>(
    alloc: Global,
    streams: &mut Streams<R, W, E>,
) -> u8 {
    match help_text(alloc) {
        Ok(text) => explain(
            &mut streams.output,
            &mut streams.errors,
            text.as_bytes(),
            true,
        ),
        Err(_) => conclude(&mut streams.errors, &Err(EngineFault::Memory)),
    }
}

/// Says the sentence of a fault line and ends the line. The answer is the exit status.
fn say_sentence<R, W: io::Write, E: io::Write>(
    alloc: Global,
    streams: &mut Streams<R, W, E>,
    line: &str,
) -> u8 {
    match sentence_line(alloc, line) {
        Ok(Some(text)) => explain(
            &mut streams.output,
            &mut streams.errors,
            text.as_slice(),
            false,
        ),
        Ok(None) => match mistake(alloc, "explain", NO_LINE) {
            Ok(error) | Err(error) => explain_words(alloc, streams, &error),
        },
        Err(_) => conclude(&mut streams.errors, &Err(EngineFault::Memory)),
    }
}

/// The sentence of a fault line, as a line of text.
fn sentence_line(alloc: Global, line: &str) -> Result<Option<Vec<u8>>, AllocError> {
    match sentence(alloc, line)? {
        Some(mut text) => {
            text.push(b'\n')?;
            Ok(Some(text))
        }
        None => Ok(None),
    }
}

/// Does what the arguments ask for, the first of which is the program's name. If they can't be read, the errors say
/// why. Returns the exit status.
///
/// Progress and warnings go to the screen, if there is one and `--quiet` isn't given. If a run fails, the reason is
/// said in words before its fault line: on the errors with `--explain`, else on the screen. For that, all that is read
/// is kept, except requests.
pub fn run<
    T: Threads + Wait + Sync,
    O: Open + Make + Drop,
    A: Known + Drop,
    S: io::Write + Copy + Drop + Sync,
    C: Clock + Copy + Drop + Sync,
    R: io::Read,
    W: io::Write,
    E: io::Write,
>(
    rt: &T,
    alloc: Global,
    words: &Result<Vec<String>, io::ErrorKind>,
    files: Place<O, A>,
    screen: Option<Screen<S, C>>,
    streams: &mut Streams<R, W, E>,
) -> u8 {
    let words = match words {
        Ok(words) => words,
        Err(kind) => return refuse_words(streams, *kind),
    };
    match parse(alloc, words.as_slice()) {
        Ok(Asked::Work(mut request)) => {
            if !files.known.has_input() {
                request.keep_old_journal();
            }
            serve_told(rt, alloc, &request, files, screen, streams)
        }
        Ok(Asked::Sentence(line)) => say_sentence(alloc, streams, line.as_str()),
        Err(error) => explain_words(alloc, streams, &error),
    }
}
