//! `run_sweep`: from the bytes of an instruction file and stem files to a table.
ghost use Rattle.std.specs.Prelude.{◌≡◌, ◌≢◌, map, drop, IfErr};
ghost use Rattle.buckfleet_engine_files.specs.declared.fault.EngineFault.TheVariants.{Seats, Write};
ghost use Rattle.buckfleet_engine_files.specs.Reading.{IfStopped};
ghost use Rattle.buckfleet_engine_files.specs.Written.{WritesText};
ghost use Rattle.buckfleet_engine_input.specs.Harvest.{IsCuttingFault};
ghost use Rattle.buckfleet_trial_sweep.specs.Sweep.{IsSweepRun};
ghost use Rattle.buckfleet_trial_sweep.specs.inner.Lines.{AnswersTable, IsPart};

use crate::cutting::{lines_in_parts, lines_of};
use crate::table::put_head;
use buckfleet_engine_files::{
    EngineFault, OneThread, Onlooker, SeveralThreads, number_of_threads, write_text,
};
use buckfleet_engine_input::{Input, read_input};
use buckfleet_tasks::{Combination, SweepTask};
use std::alloc::Global;
use std::io;
use std::thread::Threads;

/// Writes the table of some combinations, given what came of their lines.
fn write_table<W: io::Write>(
    alloc: Global,
    input: &Input,
    combinations: &[Combination],
    lines: Result<Vec<u8>, EngineFault>,
    out: &mut W,
) -> Result<(), EngineFault>
    requires lines { IsPart input.now.instruction input.now.lists.items combinations.now lines }
    ensures run { WritesText (AnswersTable input.now.instruction input.now.lists.items combinations.now)
        (W.contents out.old) (W.contents out.new) result }
    ensures fault { IfErr result (λ fault. fault ≢ Write → IsCuttingFault fault) }
    ensures untouched { IfErr result (λ fault. fault ≢ Write → out.new ≡ out.old) }
{
    let lines = lines?;
    let mut text = Vec::new(alloc);
    put_head(alloc, &mut text, &input.instruction)?;
    text.extend_from_slice(lines.as_slice())?;
    write_text(out, text.as_slice())
}

/// Reads an instruction file and stem files, cuts the stems of the k-th stem file by harvester k, in turn, once for
/// each combination, and writes what that came to: a line of columns, and then a line for each combination, in their
/// order. See "The table of a sweep" in docs/FORMATS.md. Nothing is written before the whole table is there.
///
/// Each run is that of a fleet whose harvesters take turns, by the combination's rule, with its numbers in
/// the place of the instruction's own; so is each fault, and when it comes. `Write` if the writer fails, which leaves a
/// prefix of the table.
pub fn run_sweep<R: io::Read, W: io::Write>(
    alloc: Global,
    combinations: &[Combination],
    apt: &mut R,
    stms: &mut [R],
    out: &mut W,
) -> Result<(), EngineFault>
    // What is written is the table of the combinations, of the instruction and the stems that the files have, each line
    // that of a run by its rule; a fault is that of the first file that has one, or comes after all of them, and
    // nothing is written; a write fault leaves a prefix of the table. If there are not 1 to 64 stem files, that is
    // the fault; it is `Full` only if there are more stems than 1,000,000.
    ensures run { IsSweepRun combinations.now (R.remaining apt.old) (map R.remaining stms.old)
        (W.contents out.old) (W.contents out.new) result }
    // If a file has a fault, nothing was read of those after it.
    ensures order { IfErr result (IfStopped (λ last. drop last stms.new ≡ drop last stms.old)) }
    // If there are not 1 to 64 stem files, nothing was read of the instruction either.
    ensures unread { IfErr result (λ fault. fault ≡ Seats → apt.new ≡ apt.old) }
    // Only a failed write touches the output.
    ensures untouched { IfErr result (λ fault. fault ≢ Write → out.new ≡ out.old) }
{
    let input = read_input(&OneThread, alloc, apt, stms)?;
    let lines = lines_of(alloc, &input, combinations);
    write_table(alloc, &input, combinations, lines, out)
}

/// [`run_sweep`] of a task's combinations with the runs done in several threads at once: in the given number, from 1 to
/// 64, or, if none is given, in as many as the machine has. What is written, and each fault, are those of
/// [`run_sweep`], whatever the number; if memory runs out in one of the runs, it is `Memory`, and nothing is written.
/// The onlooker is shown the instruction.
pub fn run_sweep_in_parts<T: Threads + Sync, L: Onlooker, R: io::Read, W: io::Write>(
    rt: &T,
    alloc: Global,
    task: &SweepTask<'_>,
    onlooker: &L,
    apt: &mut R,
    stms: &mut [R],
    out: &mut W,
) -> Result<(), EngineFault>
    // As [`run_sweep`] says.
    ensures run { IsSweepRun task.now.combinations.items (R.remaining apt.old) (map R.remaining stms.old)
        (W.contents out.old) (W.contents out.new) result }
    ensures order { IfErr result (IfStopped (λ last. drop last stms.new ≡ drop last stms.old)) }
    ensures unread { IfErr result (λ fault. fault ≡ Seats → apt.new ≡ apt.old) }
    ensures untouched { IfErr result (λ fault. fault ≢ Write → out.new ≡ out.old) }
{
    let workers = SeveralThreads::of(rt, task.threads, onlooker);
    let input = read_input(&workers, alloc, apt, stms)?;
    let combinations = task.combinations.as_slice();
    let number = number_of_threads(rt, task.threads);
    let size = combinations.len().div_ceil(number).max(1);
    let lines = lines_in_parts(rt, alloc, &input, combinations, size);
    write_table(alloc, &input, combinations, lines, out)
}
