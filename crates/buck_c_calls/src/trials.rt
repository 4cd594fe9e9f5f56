//! The calls that say what a harvest would come to, over the bytes of an instruction file, stem files and targets.
ghost use Rattle.std.specs.Prelude.{◌≡◌, ◌+◌, min, Some, map};
ghost use Rattle.buck_record.specs.Reading.{listed};
ghost use Rattle.buckfleet_trial.specs.Inputs.{held_with};
ghost use Rattle.buck_c_calls.specs.Room.{IsPut};
ghost use Rattle.buck_c_calls.specs.Trials.{IsSwept, IsTuned, IsWished, wanted_in};
ghost use Rattle.buck_c_calls.specs.inner.Stopped.{Tells};

use crate::asked::{DrawnRun, DrawnRuns, Run, combination_of, combinations_of, draws_of};
use crate::several::{Handed, Stop, ended, hand_over, put_answer};
use buckfleet_engine_files::{Nobody, OneThread};
use buckfleet_trial::{Opened, TrialTask, run_trial};
use buckfleet_trial_tune::{TuneTask, run_tune};
use buckfleet_trial_wishes::{WishesTask, run_wishes};
use std::alloc::Global;

/// The number of the file behind so many others and an instruction file, which is file 0.
fn number_behind(others: usize) -> u32
    ensures { result ≡ min (others + 1) 4294967295 }
{
    if others < 4_294_967_294 {
        others as u32 + 1
    } else {
        4_294_967_295
    }
}

/// The files of a trial: the second has the targets, if it isn't empty, and those behind it the stems.
fn opened<'x>(files: Handed<'x>) -> Opened<&'x [u8]>
    ensures apt { result.apt ≡ files.entry.apt }
    ensures stms { result.stms ≡ files.entry.more }
    ensures targets { held_with (λ f. Some f.now) result.targets
        ≡ wanted_in files.entry.other.now (map (λ f. Some f.now) files.entry.more.items) }
{
    let Handed { apt, other, more } = files;
    let targets = if other.is_empty() {
        None
    } else {
        Some((other, number_behind(more.len())))
    };
    Opened {
        apt,
        stms: more,
        targets,
    }
}

/// The table of a sweep.
#[tactic(auto, using(crate::proofs::Ran::refusals))]
fn swept(
    alloc: Global,
    files: &[u8],
    lengths: &[usize],
    asked: &DrawnRuns<'_>,
) -> Result<Vec<u8>, Stop>
    ensures { Tells (IsSwept asked.now.runs.now asked.now.draws.now lengths.now files.now) (listed result) }
{
    let combinations = combinations_of(alloc, asked.runs)?;
    let files = hand_over(alloc, files, lengths)?;
    let task = TrialTask {
        combinations,
        apt: "",
        stms: Vec::new(alloc),
        targets: None,
        draws: draws_of(asked.draws),
        threads: None,
    };
    let mut text = Vec::new(alloc);
    let outcome = run_trial(alloc, &task, &Nobody, opened(files), &mut text);
    ended(outcome, text)
}

/// The table of wishes.
#[tactic(auto, using(crate::proofs::Ran::refusals))]
fn wished(alloc: Global, files: &[u8], lengths: &[usize], asked: &DrawnRun) -> Result<Vec<u8>, Stop>
    ensures { Tells (IsWished asked.now lengths.now files.now) (listed result) }
{
    let Some(combination) = combination_of(&asked.run) else {
        return Err(Stop::Misused);
    };
    let files = hand_over(alloc, files, lengths)?;
    let task = WishesTask {
        rule: combination.rule,
        settings: combination.settings,
        apt: "",
        stms: Vec::new(alloc),
        targets: None,
        draws: draws_of(&asked.draws),
        threads: None,
    };
    let mut text = Vec::new(alloc);
    let outcome = run_wishes(alloc, &task, &Nobody, opened(files), &mut text);
    ended(outcome, text)
}

/// The text of an instruction, tuned on stems.
#[tactic(auto, using(crate::proofs::Ran::refusals))]
fn tuned(alloc: Global, files: &[u8], lengths: &[usize], run: &Run) -> Result<Vec<u8>, Stop>
    ensures { Tells (IsTuned run.now lengths.now files.now) (listed result) }
{
    let Some(combination) = combination_of(run) else {
        return Err(Stop::Misused);
    };
    let files = hand_over(alloc, files, lengths)?;
    let task = TuneTask {
        rule: combination.rule,
        settings: combination.settings,
        apt: "",
        stms: Vec::new(alloc),
        targets: None,
        threads: None,
    };
    let mut text = Vec::new(alloc);
    let outcome = run_tune(&OneThread, alloc, &task, &Nobody, opened(files), &mut text);
    ended(outcome, text)
}

/// Compares runs over the same stems, as the program's `sweep` does: a line for each. `files` has the bytes of the
/// instruction file, of a file of targets, or none, and of 1 to 64 stem files, one after the other, and `lengths` the
/// length of each in bytes. Each run is also made in orders of the stems that are drawn. The table, or the line of a
/// fault, goes to the start of `out`, and its length to `written`. The answer is the program's exit status, 6 if
/// `out` is too small: then nothing else is written, or 8 if a run isn't as [`Run`] says, there are less than two
/// files, or the lengths aren't those of the bytes: then no text is put.
#[tactic(auto, using(crate::proofs::Ran::told))]
pub fn buckfleet_sweep(
    alloc: Global,
    files: &[u8],
    lengths: &[usize],
    runs: &DrawnRuns<'_>,
    out: &mut [u8],
    written: &mut usize,
) -> u8
    ensures { IsPut (IsSwept runs.now.runs.now runs.now.draws.now lengths.now files.now)
        out.old out.new written.new result }
{
    let answer = swept(alloc, files, lengths, runs);
    put_answer(alloc, answer, out, written)
}

/// Finds what each target costs, as the program's `wishes` does: a table with a line for each class whose target isn't
/// the share that it has unsteered. Files and answers are those of [`buckfleet_sweep`].
#[tactic(auto, using(crate::proofs::Ran::told))]
pub fn buckfleet_wishes(
    alloc: Global,
    files: &[u8],
    lengths: &[usize],
    run: &DrawnRun,
    out: &mut [u8],
    written: &mut usize,
) -> u8
    ensures { IsPut (IsWished run.now lengths.now files.now) out.old out.new written.new result }
{
    let answer = wished(alloc, files, lengths, run);
    put_answer(alloc, answer, out, written)
}

/// Makes a price list from a stem bank, as the program's `tune` does: the text is the instruction with prices that are
/// tuned on the stems. Files and answers are those of [`buckfleet_sweep`].
#[tactic(auto, using(crate::proofs::Ran::told))]
pub fn buckfleet_tune(
    alloc: Global,
    files: &[u8],
    lengths: &[usize],
    run: &Run,
    out: &mut [u8],
    written: &mut usize,
) -> u8
    ensures { IsPut (IsTuned run.now lengths.now files.now) out.old out.new written.new result }
{
    let answer = tuned(alloc, files, lengths, run);
    put_answer(alloc, answer, out, written)
}
