//! `run_buck_in_parts`: a bucking whose stems are read and cut in several threads at once.
ghost use Rattle.std.specs.Prelude.{◌≡◌, ◌≢◌, IfErr};
ghost use Rattle.buckfleet_engine_files.specs.declared.fault.EngineFault.TheVariants.{Write};
ghost use Rattle.buckfleet_engine_files.specs.Written.{WritesText};
ghost use Rattle.buckfleet_engine_files.specs.Reading.{IfStopped};
ghost use Rattle.buckfleet_engine.specs.run.Bucking.{AnswersBuck};
ghost use Rattle.buckfleet_engine.specs.run.Serving.{RunsFiles};
ghost use Rattle.buckfleet_engine.specs.inner.Text.{joined_in};

use buckfleet_engine_files::{
    EngineFault, Onlooker, Open, SeveralThreads, open_both, read_instruction, read_stems,
    write_pieces,
};
use buckfleet_engine_text::buck_text_in_parts;
use buckfleet_tasks::BuckTask;
use std::alloc::Global;
use std::io;
use std::slice::from_ref;
use std::thread::Threads;

/// The text of an instruction file and a stem file in pieces, whose stems are read and cut in several threads at once.
/// The onlooker of the workers is shown the files.
fn text_in_parts<T: Threads + Sync, L: Onlooker, R: io::Read>(
    alloc: Global,
    workers: &SeveralThreads<'_, T, L>,
    apt: &mut R,
    stm: &mut R,
) -> Result<Vec<Vec<u8>>, EngineFault>
    ensures answer { AnswersBuck (R.remaining apt.old) (R.remaining stm.old) (joined_in result) }
    ensures order { IfErr result (IfStopped (λ last. last ≡ 0 → stm.new ≡ stm.old)) }
{
    let instruction = read_instruction(alloc, apt)?;
    let stems = read_stems(workers, alloc, stm, 1)?;
    workers.onlooker.read(&instruction, from_ref(&stems));
    Ok(buck_text_in_parts(workers.rt, alloc, &instruction, stems, workers.number)?)
}

/// [`run_buck`](crate::run_buck) with the stems read and cut by several threads at once, whose onlooker is shown the
/// files. What is written, and each fault, are those of [`run_buck`](crate::run_buck), whatever the number of threads.
pub fn run_buck_in_parts<T: Threads + Sync, L: Onlooker, R: io::Read, W: io::Write>(
    workers: &SeveralThreads<'_, T, L>,
    alloc: Global,
    apt: &mut R,
    stm: &mut R,
    writer: &mut W,
) -> Result<(), EngineFault>
    // What is written is the text of the instruction and the stems that the files have; a fault is that of the first
    // file that has one, and nothing is written; a write fault leaves a prefix of the text.
    ensures run { WritesText (AnswersBuck (R.remaining apt.old) (R.remaining stm.old))
        (W.contents writer.old) (W.contents writer.new) result }
    // If the instruction file has a fault, nothing was read of the stem file.
    ensures order { IfErr result (IfStopped (λ last. last ≡ 0 → stm.new ≡ stm.old)) }
    // Only a failed write touches the writer.
    ensures untouched { IfErr result (λ fault. fault ≢ Write → writer.new ≡ writer.old) }
{
    let pieces = text_in_parts(alloc, workers, apt, stm)?;
    write_pieces(writer, pieces.as_slice())
}

/// Bucks the stems of a task's files in several threads at once. The files are opened, the instruction file first,
/// before one of them is read; one that can't be opened is `Read` with its number. Each fault and what is written before
/// it are those of [`run_buck`](crate::run_buck). The onlooker is shown what was read.
pub fn serve_buck<T: Threads + Sync, L: Onlooker, O: Open, W: io::Write>(
    rt: &T,
    alloc: Global,
    task: &BuckTask<'_>,
    onlooker: &L,
    opener: &mut O,
    writer: &mut W,
) -> Result<(), EngineFault>
    ensures { RunsFiles AnswersBuck O.opens O.File.remaining opener.old opener.new task.now.apt.now task.now.stm.now
        (W.contents writer.old) (W.contents writer.new) result }
{
    let (mut instruction, mut stems) = open_both(opener, task.apt, task.stm)?;
    let workers = SeveralThreads::of(rt, task.threads, onlooker);
    run_buck_in_parts(&workers, alloc, &mut instruction, &mut stems, writer)
}
