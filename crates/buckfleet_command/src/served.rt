//! Work that is done between the streams of a run, and what is said of it.
ghost use Rattle.std.specs.Prelude.{◌≡◌};
ghost use Rattle.buckfleet_terms_files.specs.Telling.{terms_status_after};

use crate::teller::{Spoken, Teller};
use crate::working::{Streams, serve_work};
use buckfleet_command_remarks::{Inquest, Progress, Screen, Watched};
use buckfleet_command_streams::{Drawn, Inlet, Kept, Known, Outlet, Shared, Streamed};
use buckfleet_command_words::Request;
use buckfleet_engine::conclude;
use buckfleet_engine_files::{EngineFault, Make, Open, status};
use buckfleet_tasks::Subject;
use buckfleet_terms_files::{TermsFault, conclude_terms};
use std::alloc::Global;
use std::io;
use std::io::ErrorKind;
use std::sync::Wait;
use std::thread::Threads;
use std::time::Clock;

/// The files of a run.
#[derive(Drop)]
pub struct Place<O, A> {
    /// Opens the files that are read, and makes those that are written.
    pub files: O,
    /// Facts about them beside their bytes.
    pub known: A,
}

/// The most bytes of the line of a fault: the longest that there is has less.
const MOST: usize = 128;

/// Says how a run ended, as [`conclude_terms`] does, in one write: the line stays whole if several runs say theirs in
/// one place.
fn end<E: io::Write>(errors: &mut E, outcome: &Result<(), TermsFault>) -> u8
    ensures { result ≡ terms_status_after outcome.now }
{
    let mut line = [0u8; MOST];
    let mut room = line.as_mut_slice();
    let status = conclude_terms(&mut room, outcome);
    let length = MOST.saturating_sub(room.len());
    let _ = errors.write_all(&line[..length]);
    status
}

/// How a run ended; a file that couldn't be opened because memory ran out is no fault of the file.
fn told(outcome: Result<(), TermsFault>, refused: Option<ErrorKind>) -> Result<(), TermsFault> {
    match outcome {
        Err(TermsFault::Run(EngineFault::Read { .. })) if refused == Some(ErrorKind::OutOfMemory) =>
            { Err(TermsFault::Run(EngineFault::Memory)) }
        _ => outcome,
    }
}

/// Does the work between streams that are lent.
fn serve_lent<
    'x,
    T: Threads + Wait + Sync,
    O: Open + Make + Drop,
    S: io::Write + Copy + Drop + Sync,
    C: Clock + Copy + Drop + Sync,
    R: io::Read,
    W: io::Write,
    E: io::Write,
>(
    rt: &T,
    alloc: Global,
    files: O,
    inlet: &'x Inlet<'_, R>,
    outlet: &Outlet<'_, W>,
    teller: &Teller<'_, E, S, C>,
    progress: &'x Progress<'x, S, C>,
) -> Result<(), TermsFault> {
    let streamed = Streamed {
        files,
        inlet,
        outlet,
    };
    let mut watched = Watched {
        files: streamed,
        progress,
        kept: &inlet.kept,
    };
    // Requests go on for as long as somebody fells: they are not kept.
    let place = if progress.work.is_bare() {
        inlet.kept.begin()
    } else {
        None
    };
    let mut input = watched.file(Drawn { inlet }, None, place);
    let mut output = Spoken {
        output: Shared { outlet },
        teller,
    };
    let outcome = serve_work(
        rt,
        alloc,
        progress.work,
        progress,
        &mut watched,
        &mut input,
        &mut output,
    );
    progress.end();
    outcome
}

/// Prints the warnings after the work on the screen, unless that is to be quiet.
fn say_notes<A: Known, E: io::Write, S: io::Write + Copy + Drop, C: Clock + Copy + Drop>(
    teller: &Teller<'_, E, S, C>,
    inquest: &Inquest<'_, A>,
    progress: &Progress<'_, S, C>,
) {
    if progress.screen.is_none() {
        return;
    }
    if let Ok(text) = inquest.notes(progress.notes.get()) {
        teller.show(text.as_str());
    }
}

/// Does what a request asks for. If it fails, the reason is said in words if that is asked for, or if there is a
/// screen; then the line of the fault. A closed pipe is not reported. After a successful run the screen has the
/// warnings. Returns the exit status.
pub(crate) fn serve_told<
    T: Threads + Wait + Sync,
    O: Open + Make + Drop,
    A: Known + Drop,
    S: io::Write + Copy + Drop + Sync,
    C: Clock + Copy + Drop + Sync,
    R: io::Read,
    W: io::Write,
    E: io::Write,
>(
    rt: &T,
    alloc: Global,
    request: &Request<'_>,
    place: Place<O, A>,
    screen: Option<Screen<S, C>>,
    streams: &mut Streams<R, W, E>,
) -> u8 {
    let Ok(subject) = Subject::of(alloc, &request.work) else {
        return conclude(&mut streams.errors, &Err(EngineFault::Memory));
    };
    let Place { files, known } = place;
    let teller = Teller::of(alloc, &mut streams.errors, request.explain, screen);
    let kept = Kept::of(alloc, subject.names.as_slice(), &known, teller.is_told());
    let inlet = Inlet::of(&mut streams.input, kept);
    let outlet = Outlet::of(&mut streams.output);
    let screen = if request.quiet { None } else { screen };
    let progress = Progress::on(alloc, screen, &request.work, &subject);
    let outcome = serve_lent(rt, alloc, files, &inlet, &outlet, &teller, &progress);
    let outcome = told(outcome, known.refused());
    if outlet.is_gone() && matches!(&outcome, Err(TermsFault::Run(EngineFault::Write))) {
        return status(&EngineFault::Write);
    }
    let copies = inlet.into_copies();
    let inquest = Inquest {
        alloc,
        subject: &subject,
        copies: copies.as_slice(),
        unwritten: outlet.refused(),
        known: &known,
    };
    match &outcome {
        Ok(()) => say_notes(&teller, &inquest, &progress),
        Err(fault) if teller.is_told() => {
            if let Ok(Some(text)) = inquest.reason(fault) {
                teller.say(text.as_str());
            }
        }
        Err(_) => {}
    }
    drop(teller);
    end(&mut streams.errors, &outcome)
}
