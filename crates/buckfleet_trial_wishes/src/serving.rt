//! Whole runs of wishes: the files of a task, and its table.
ghost use Rattle.buckfleet_trial_wishes.specs.Serving.{RunsWishes};

use crate::wishes::run_wishes_in_parts;
use buckfleet_engine_files::{Open, RunOnlooker};
use buckfleet_tasks::WishesTask;
use buckfleet_terms_files::TermsFault;
use buckfleet_trial::open_files;
use std::alloc::Global;
use std::io;
use std::thread::Threads;

/// Finds what each wish costs over the files of a task's names. The files are opened as by
/// [`serve_trial`](buckfleet_trial::serve_trial); else the faults are those of [`run_wishes`](crate::run_wishes).
pub fn serve_wishes<T: Threads + Sync, L: RunOnlooker + Sync, O: Open, W: io::Write>(
    rt: &T,
    alloc: Global,
    task: &WishesTask<'_>,
    onlooker: &L,
    opener: &mut O,
    out: &mut W,
) -> Result<(), TermsFault>
    ensures { RunsWishes O.opens O.File.remaining opener.old opener.new task.now
        (W.contents out.old) (W.contents out.new) result }
{
    let stms = task.stms.as_slice();
    let files = open_files(alloc, opener, task.apt, stms, task.targets)?;
    run_wishes_in_parts(rt, alloc, task, onlooker, files, out)
}
