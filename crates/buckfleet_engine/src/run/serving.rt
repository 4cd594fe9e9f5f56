//! Whole runs of the program, and how the program ends after one.
ghost use Rattle.std.specs.Prelude.{◌≡◌, true, false, Result};
ghost use Rattle.std.specs.Io.KnownBytes.{Keeps};
ghost use Rattle.buckfleet_engine_files.specs.declared.fault.EngineFault.{EngineFault};
ghost use Rattle.buckfleet_engine_files.specs.Written.{IsWritten, WritesText};
ghost use Rattle.buckfleet_engine_files.specs.Faults.{fault_line};
ghost use Rattle.buckfleet_engine.specs.run.Checking.{AnswersJournal, IsJournalReport};
ghost use Rattle.buckfleet_engine.specs.run.Bucking.{AnswersBare};
ghost use Rattle.buckfleet_engine_files.specs.Reading.{apt_with};
ghost use Rattle.buckfleet_engine_files.specs.Written.{AppendsFirst};
ghost use Rattle.buckfleet_engine.specs.run.Serving.{RunsTask, TellsOutcome, status_after};

use crate::run::bucking::text_of_one;
use crate::run::reporting::run_report_with;
use buckfleet_engine_files::{
    EngineFault, Onlooker, Open, open_both, status, write_fault, write_text,
};
use buckfleet_tasks::Task;
use std::alloc::Global;
use std::io;

/// Bucks the stems of an input, which an onlooker is shown.
fn buck_input<L: Onlooker, R: io::Read, W: io::Write>(
    alloc: Global,
    onlooker: &L,
    input: &mut R,
    writer: &mut W,
) -> Result<(), EngineFault>
    ensures { WritesText (AnswersBare (R.remaining input.old)) (W.contents writer.old) (W.contents writer.new) result }
{
    let text = text_of_one(alloc, onlooker, input)?;
    write_text(writer, text.as_slice())
}

/// Does what the task asks for. The onlooker is shown the instruction and, if stems are cut, these.
///
/// The files of a task are opened in the order of its words before one of them is read; one that can't be opened is
/// `Read` with its number. Each fault and what is written before it are those of [`run_bare`](crate::run_bare) and
/// [`run_report`](crate::run_report).
pub fn serve<L: Onlooker, R: io::Read, O: Open, W: io::Write>(
    alloc: Global,
    task: &Task<'_>,
    onlooker: &L,
    input: &mut R,
    opener: &mut O,
    writer: &mut W,
) -> Result<(), EngineFault>
    ensures { RunsTask O.opens O.File.remaining opener.old opener.new (R.remaining input.old) task.now
        (W.contents writer.old) (W.contents writer.new) result }
{
    match task {
        Task::Bare => buck_input(alloc, onlooker, input, writer),
        Task::Report {
            apt,
            journal,
            settings,
        } => {
            let (mut instruction, mut postings) = open_both(opener, *apt, *journal)?;
            run_report_with(
                alloc,
                onlooker,
                &mut instruction,
                &mut postings,
                settings,
                writer,
            )
        }
    }
}

/// Writes first bytes of the line of a fault: all of it, if the writer takes them.
#[tactic(auto, using(buckfleet_engine_files::proofs::WrittenLemmas::first_told))]
fn tell_fault<E: io::Write>(errors: &mut E, fault: &EngineFault)
    ensures { AppendsFirst (E.contents errors.old) (E.contents errors.new) (fault_line fault.now) }
{
    let _ = write_fault(errors, fault);
}

/// Says nothing of a run that went well, and else the line of its fault.
fn tell<E: io::Write>(errors: &mut E, outcome: &Result<(), EngineFault>)
    ensures { TellsOutcome (E.contents errors.old) (E.contents errors.new) outcome.now }
{
    match outcome {
        Ok(()) => {}
        Err(fault) => tell_fault(errors, fault),
    }
}

/// The exit status after a run.
fn status_after(outcome: &Result<(), EngineFault>) -> u8
    ensures { result ≡ status_after outcome.now }
{
    match outcome {
        Ok(()) => 0,
        Err(fault) => status(fault),
    }
}

/// Says how a run ended: nothing if it went well, and else the line of the fault. The answer is the exit status.
pub fn conclude<E: io::Write>(errors: &mut E, outcome: &Result<(), EngineFault>) -> u8
    ensures status { result ≡ status_after outcome.now }
    ensures told { TellsOutcome (E.contents errors.old) (E.contents errors.new) outcome.now }
{
    tell(errors, outcome);
    status_after(outcome)
}

/// Says a text about the command line: what is wrong with the words on `errors`, with status 2, and what was asked
/// for, as help, on `output`, which ends as a run does.
#[tactic(auto, using(buckfleet_engine_files::proofs::WrittenLemmas::first_written))]
pub fn explain<W: io::Write, E: io::Write>(
    output: &mut W,
    errors: &mut E,
    text: &[u8],
    mistake: bool,
) -> u8
    ensures status { mistake ≡ true → result ≡ 2 }
    ensures kept { mistake ≡ true → Keeps (W.contents output.old) (W.contents output.new) }
    ensures told { mistake ≡ true → AppendsFirst (E.contents errors.old) (E.contents errors.new) text.now }
    ensures asked { mistake ≡ false → (outcome : Result (Unit {0}) EngineFault)
        × IsWritten (W.contents output.old) (W.contents output.new) text.now outcome
        × (result ≡ status_after outcome)
        × TellsOutcome (E.contents errors.old) (E.contents errors.new) outcome }
{
    if mistake {
        let _ = write_text(errors, text);
        return 2;
    }
    let written = write_text(output, text);
    conclude(errors, &written)
}
