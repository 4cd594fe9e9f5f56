//! Whole runs of a table.
ghost use Rattle.std.specs.Prelude.{◌≡◌};
ghost use Rattle.buckfleet_trial_sweep.specs.Serving.{RunsSweep};

use crate::running::run_sweep_in_parts;
use buckfleet_engine_files::{EngineFault, Onlooker, Open, open_inputs};
use buckfleet_tasks::SweepTask;
use std::alloc::Global;
use std::io;
use std::thread::Threads;

/// Makes the table that a task asks for over the files of its names, in several threads at once.
///
/// The files are opened in the order of the words before one of them is read; one that can't be opened is `Read` with
/// its number. Each fault and what is written before it are those of [`run_sweep`](crate::run_sweep), whatever the
/// number of threads. The onlooker is shown the instruction.
pub fn serve_sweep<T: Threads + Sync, L: Onlooker, O: Open, W: io::Write>(
    rt: &T,
    alloc: Global,
    task: &SweepTask<'_>,
    onlooker: &L,
    opener: &mut O,
    out: &mut W,
) -> Result<(), EngineFault>
    ensures { RunsSweep O.opens O.File.remaining opener.old opener.new task.now
        (W.contents out.old) (W.contents out.new) result }
{
    let (mut apt, mut stms) = open_inputs(alloc, opener, task.apt, task.stms.as_slice())?;
    let stms = stms.as_mut_slice();
    run_sweep_in_parts(rt, alloc, task, onlooker, &mut apt, stms, out)
}
