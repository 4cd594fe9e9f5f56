//! The work of a run done by its engine.
ghost use Rattle.std.specs.Prelude.{◌≡◌};
ghost use Rattle.buckfleet_command.specs.Work.{DoesWork};

use buckfleet_engine::{serve, serve_buck, serve_fleet};
use buckfleet_engine_cross_check::serve_check;
use buckfleet_engine_files::{Make, Open, RunOnlooker};
use buckfleet_engine_page::serve_view;
use buckfleet_live::{Replies, serve_live};
use buckfleet_proceeds::{serve_appraise, serve_compare};
use buckfleet_tasks::Work;
use buckfleet_terms_files::TermsFault;
use buckfleet_trial::serve_trial;
use buckfleet_trial_owned::serve_owned;
use buckfleet_trial_sweep::serve_sweep;
use buckfleet_trial_tune::serve_tune;
use buckfleet_trial_wishes::serve_wishes;
use std::alloc::Global;
use std::io;
use std::sync::Wait;
use std::thread::Threads;

/// The streams that a run reads and writes beside its files.
#[derive(Drop)]
pub struct Streams<R, W, E> {
    /// Holds both files of the bare form, or requests.
    pub input: R,
    /// Takes the text that is asked for.
    pub output: W,
    /// Takes the words on what went wrong.
    pub errors: E,
}

/// Does the work. Each fault and what is written before it are those of [`serve`], [`serve_buck`], [`serve_fleet`],
/// [`serve_check`], [`serve_view`], [`serve_live`], [`serve_sweep`], [`serve_trial`], [`serve_owned`],
/// [`serve_wishes`], [`serve_tune`], [`serve_appraise`] and [`serve_compare`].
pub fn serve_work<
    T: Threads + Wait + Sync,
    L: RunOnlooker + Sync,
    O: Open + Make,
    R: io::Read,
    W: Replies,
>(
    rt: &T,
    alloc: Global,
    work: &Work<'_>,
    onlooker: &L,
    files: &mut O,
    input: &mut R,
    output: &mut W,
) -> Result<(), TermsFault>
    ensures { DoesWork O.opens O.makes O.File.remaining O.Made.contents files.old files.new
        (R.remaining input.old) (input.new ≡ input.old) work.now
        (W.contents output.old) (W.contents output.new) result }
{
    match work {
        Work::Plain(task) => Ok(serve(alloc, task, onlooker, input, files, output)?),
        Work::Buck(task) => Ok(serve_buck(rt, alloc, task, onlooker, files, output)?),
        Work::Fleet(task) => Ok(serve_fleet(rt, alloc, task, onlooker, files, output)?),
        Work::Check(task) => Ok(serve_check(rt, alloc, task, onlooker, files, output)?),
        Work::View(task) => Ok(serve_view(rt, alloc, task, onlooker, files, output)?),
        Work::Live(task) => Ok(serve_live(alloc, task, onlooker, input, files, output)?),
        Work::Sweep(task) => Ok(serve_sweep(rt, alloc, task, onlooker, files, output)?),
        Work::Trial(task) => serve_trial(rt, alloc, task, onlooker, files, output),
        Work::Owned(task) => serve_owned(rt, alloc, task, onlooker, files, output),
        Work::Wishes(task) => serve_wishes(rt, alloc, task, onlooker, files, output),
        Work::Tune(task) => serve_tune(rt, alloc, task, onlooker, files, output),
        Work::Appraise(task) => serve_appraise(rt, alloc, task, onlooker, files, output),
        Work::Compare(task) => Ok(serve_compare(rt, alloc, task, onlooker, files, output)?),
    }
}
