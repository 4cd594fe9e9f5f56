//! Whole runs over journals: the files of a task, and its table.
ghost use Rattle.std.specs.Prelude.{map};
ghost use Rattle.buckfleet_proceeds.specs.Serving.{AnswersFiles, RunsAppraise, RunsCompare};

use crate::appraised::run_appraise;
use crate::comparing::run_compare;
use crate::opened::Opened;
use buckfleet_engine_files::{EngineFault, Onlooker, Open, SeveralThreads, open_inputs};
use buckfleet_tasks::{AppraiseTask, CompareTask};
use buckfleet_terms_files::{TermsFault, open_last};
use std::alloc::Global;
use std::io;
use std::thread::Threads;

/// Opens all files of an appraisal by their names, in order.
fn open_files<O: Open>(
    alloc: Global,
    task: &AppraiseTask<'_>,
    opener: &mut O,
) -> Result<Opened<O::File>, EngineFault>
    ensures { AnswersFiles O.opens opener.old opener.new task.now.apt.now (map (λ s. s.now) task.now.journals.items)
        task.now.own.now result }
{
    let names = task.journals.as_slice();
    let (apt, journals) = open_inputs(alloc, opener, task.apt, names)?;
    let own = open_last(opener, task.own, names.len() + 1)?;
    Ok(Opened { apt, journals, own })
}

/// Appraises the journals of a task's files under the owner's instruction. The files are opened in the order of the
/// words, the owner's instruction last, before one of them is read; one that can't be opened is `Read` with its number.
/// Else the faults are those of [`run_appraise`]. The onlooker is shown the instruction.
pub fn serve_appraise<T: Threads + Sync, L: Onlooker, O: Open, W: io::Write>(
    rt: &T,
    alloc: Global,
    task: &AppraiseTask<'_>,
    onlooker: &L,
    opener: &mut O,
    out: &mut W,
) -> Result<(), TermsFault>
    ensures { RunsAppraise O.opens O.File.remaining opener.old opener.new task.now
        (W.contents out.old) (W.contents out.new) result }
{
    let files = open_files(alloc, task, opener)?;
    let workers = SeveralThreads::of(rt, task.threads, onlooker);
    run_appraise(&workers, alloc, &task.settings, files, out)
}

/// Compares the journals of a task's files. They are opened as by [`serve_appraise`]; else the faults are those of
/// [`run_compare`]. The onlooker is shown the instruction.
pub fn serve_compare<T: Threads + Sync, L: Onlooker, O: Open, W: io::Write>(
    rt: &T,
    alloc: Global,
    task: &CompareTask<'_>,
    onlooker: &L,
    opener: &mut O,
    out: &mut W,
) -> Result<(), EngineFault>
    ensures { RunsCompare O.opens O.File.remaining opener.old opener.new task.now
        (W.contents out.old) (W.contents out.new) result }
{
    let (mut apt, mut journals) = open_inputs(alloc, opener, task.apt, &task.journals)?;
    let workers = SeveralThreads::of(rt, task.threads, onlooker);
    run_compare(
        &workers,
        alloc,
        task,
        &mut apt,
        journals.as_mut_slice(),
        out,
    )
}
