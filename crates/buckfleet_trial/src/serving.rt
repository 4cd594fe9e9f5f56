//! Whole runs of trials: the files of a task, and its table.
ghost use Rattle.buckfleet_trial.specs.Serving.{RunsTrial};

use crate::reading::open_files;
use crate::trial::run_trial_in_parts;
use buckfleet_engine_files::{Open, RunOnlooker};
use buckfleet_tasks::TrialTask;
use buckfleet_terms_files::TermsFault;
use std::alloc::Global;
use std::io;
use std::thread::Threads;

/// Makes the table that a task asks for over the files of its names. The files are opened in the order of the words,
/// that of targets last, before one of them is read; one that can't be opened is `Read` with its number. Else the
/// faults are those of [`run_trial`](crate::run_trial).
pub fn serve_trial<T: Threads + Sync, L: RunOnlooker + Sync, O: Open, W: io::Write>(
    rt: &T,
    alloc: Global,
    task: &TrialTask<'_>,
    onlooker: &L,
    opener: &mut O,
    out: &mut W,
) -> Result<(), TermsFault>
    ensures { RunsTrial O.opens O.File.remaining opener.old opener.new task.now
        (W.contents out.old) (W.contents out.new) result }
{
    let stms = task.stms.as_slice();
    let files = open_files(alloc, opener, task.apt, stms, task.targets)?;
    run_trial_in_parts(rt, alloc, task, onlooker, files, out)
}
