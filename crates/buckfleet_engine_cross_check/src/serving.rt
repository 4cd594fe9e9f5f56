//! Whole runs of a check that ties a journal.
ghost use Rattle.buckfleet_engine_files.specs.Reading.{apt_with};
ghost use Rattle.buckfleet_engine_cross_check.specs.Serving.{ChecksFiles, RunsCheck};

use crate::running::run_check_with;
use buckfleet_engine_files::{EngineFault, Onlooker, Open, SeveralThreads, Workers, open_inputs};
use buckfleet_tasks::{CheckTask, CrossCheck};
use std::alloc::Global;
use std::io;
use std::thread::Threads;

/// Checks the journal, which is the first of the files behind the instruction file.
fn check_opened<T: Workers, R: io::Read, W: io::Write>(
    workers: &T,
    alloc: Global,
    by: &CrossCheck,
    apt: &mut R,
    files: &mut [R],
    writer: &mut W,
) -> Result<(), EngineFault>
    requires share { T.can_share }
    ensures { ChecksFiles (apt_with by.now.settings) by.now.rule R.remaining apt.old files.old
        (W.contents writer.old) (W.contents writer.new) result }
{
    match files.split_first_mut() {
        Some((journal, stms)) => run_check_with(workers, alloc, by, apt, journal, stms, writer),
        None => Err(EngineFault::Read { file: 1 }),
    }
}

/// Checks the journal of a task in several threads at once. The onlooker is shown the instruction.
///
/// The files are opened in the order of the words before one of them is read; one that can't be opened is `Read` with
/// its number. Each fault and what is written before it are those of [`run_check_with`](crate::run_check_with),
/// whatever the number of threads. A task without a journal is `Read` with the number of that file.
pub fn serve_check<T: Threads + Sync, L: Onlooker, O: Open, W: io::Write>(
    rt: &T,
    alloc: Global,
    task: &CheckTask<'_>,
    onlooker: &L,
    opener: &mut O,
    writer: &mut W,
) -> Result<(), EngineFault>
    ensures { RunsCheck O.opens O.File.remaining opener.old opener.new task.now
        (W.contents writer.old) (W.contents writer.new) result }
{
    let (mut instruction, mut files) = open_inputs(alloc, opener, task.apt, task.files.as_slice())?;
    check_opened(
        &SeveralThreads::of(rt, task.threads, onlooker),
        alloc,
        &task.by,
        &mut instruction,
        files.as_mut_slice(),
        writer,
    )
}
