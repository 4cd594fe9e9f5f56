//! Runs of combinations in the files' own order, and in orders that are drawn.
ghost use Rattle.std.specs.Prelude.{◌≡◌, ◌<◌, ◌≤◌, ◌^◌, ◌++◌, IfErr, IfOk, OnOk, length, map};
ghost use Rattle.buck_book_postings.specs.declared.posting.TheConstants.{MOST_POSTINGS};
ghost use Rattle.buck_fleet_round_robin.specs.Turn.{stems_in_all};
ghost use Rattle.buckfleet_trial_sweep.specs.Runs.{IsStop};
ghost use Rattle.buckfleet_trial.specs.Inputs.{held_with};
ghost use Rattle.buckfleet_trial.specs.Trial.{IsBestFor, IsDrawn, IsTrialOver, IsTrialRun, starts_of};
ghost use Rattle.buckfleet_engine_files.specs.Written.{WritesText};
ghost use Rattle.buckfleet_trial.specs.Running.{AnswersOver};
ghost use Rattle.buckfleet_trial.specs.Lines.{AreDrawnFor, AreLinesFor, all_draws, draws_of};
ghost use Rattle.buckfleet_trial.specs.inner.Lines.{AreRun, IsDrawnPart, IsLinesPart, runs_of};

use crate::light::{base_worth, best_worth, cut_by_name, degrees_of, least_of};
use crate::parts::{joined, size_of};
use crate::reading::{Opened, of_run, read_files};
use crate::table::{put_first, put_line};
use buck_record::Memory;
use buckfleet_engine_files::{
    EngineFault, OneThread, RunOnlooker, SeveralThreads, number_of_threads, write_text,
};
use buckfleet_engine_input::Input;
use buckfleet_tasks::{Combination, TrialTask};
use buckfleet_terms_files::TermsFault;
use buckfleet_trial_draws::{Draws, order_from, starts_of};
use buckfleet_trial_sweep::run_line;
use std::alloc::Global;
use std::sync::Arc;
use std::thread::Threads;
use std::{io, thread};

/// What the run of a draw came to: the least of the degrees that are there, and what was cut is worth at base prices.
#[derive(Clone, Copy)]
pub struct Drawn {
    /// In ten-thousandths; None if no degree is there.
    pub least: Option<u32>,
    /// In millionths of the price unit.
    pub at_base: u128,
}

/// A run to be made: of a combination, in the order of the draw that begins at a state.
#[derive(Clone, Copy)]
struct Planned<'a> {
    combination: &'a Combination,
    start: u64,
}

/// The run of a combination in the order of the draw that begins at a state.
fn run_drawn(
    alloc: Global,
    input: &Input,
    combination: &Combination,
    start: u64,
) -> Result<Drawn, EngineFault>
    requires few { length input.now.lists.items ≤ 64 }
    ensures ok { IfOk result (IsDrawn input.now.instruction input.now.lists.items combination.now start) }
    ensures stop { IfErr result (IsStop input.now.lists.items) }
{
    let own = input.instruction.copy(alloc)?;
    let instruction = Arc::new(alloc, own.with(&combination.settings))?;
    let order = order_from(alloc, start, input.lists.as_slice())?;
    let parts = cut_by_name(alloc, &instruction, combination.rule, order.as_slice())?;
    let degrees = degrees_of(alloc, &instruction, parts.targets(), parts.counts())?;
    Ok(Drawn {
        least: least_of(degrees.as_slice()),
        at_base: base_worth(alloc, &parts)?,
    })
}

/// The lines of combinations, one for each, as those of a sweep.
fn lines_of<L: RunOnlooker>(
    alloc: Global,
    input: &Input,
    onlooker: &L,
    combinations: &[Combination],
) -> Result<Vec<Vec<u8>>, EngineFault>
    requires few { length input.now.lists.items ≤ 64 }
    ensures ok { IfOk result (λ lines.
        AreLinesFor input.now.instruction input.now.lists.items combinations.now lines.items) }
    ensures stop { IfErr result (IsStop input.now.lists.items) }
{
    let mut lines = Vec::new(alloc);
    for combination in combinations {
        let line = run_line(alloc, input, combination)?;
        lines.push(line)?;
        onlooker.made(1);
    }
    Ok(lines)
}

/// What some runs came to, one for each.
fn drawn_of<L: RunOnlooker>(
    alloc: Global,
    input: &Input,
    onlooker: &L,
    planned: &[Planned<'_>],
) -> Result<Vec<Drawn>, EngineFault>
    requires few { length input.now.lists.items ≤ 64 }
    ensures ok { IfOk result (λ made.
        AreRun input.now.instruction input.now.lists.items planned.now made.items) }
    ensures stop { IfErr result (IsStop input.now.lists.items) }
{
    let mut made = Vec::new(alloc);
    for run in planned {
        let drawn = run_drawn(alloc, input, run.combination, run.start)?;
        made.push(drawn)?;
        onlooker.made(1);
    }
    Ok(made)
}

/// The lines of combinations, with the runs in at most so many threads at once.
fn lines_in_parts<T: Threads + Sync, L: RunOnlooker + Sync>(
    rt: &T,
    alloc: Global,
    threads: usize,
    onlooker: &L,
    input: &Input,
    combinations: &[Combination],
) -> Result<Vec<Vec<u8>>, EngineFault>
    requires threads { 0 < threads }
    requires few { length input.now.lists.items ≤ 64 }
    ensures ok { IfOk result (λ lines.
        AreLinesFor input.now.instruction input.now.lists.items combinations.now lines.items) }
    ensures stop { IfErr result (IsStop input.now.lists.items) }
{
    let make = |_: usize, part: &[Combination]| -> Result<Vec<Vec<u8>>, EngineFault>
        requires { length input.now.lists.items ≤ 64 }
        ensures { IsLinesPart input.entry.now.instruction input.entry.now.lists.items part.now result }
    { lines_of(alloc, input, onlooker, part) };
    let size = size_of(combinations.len(), threads);
    let parts = thread::map_chunks(rt, alloc, combinations, size, &make)?;
    joined(alloc, parts)
}

/// The runs of all draws of a combination, behind others.
fn plan_draws<'a>(
    planned: &mut Vec<Planned<'a>>,
    combination: &'a Combination,
    starts: &[u64],
) -> Result<(), Memory>
    ensures { OnOk result (runs_of planned.new.items
        ≡ runs_of planned.old.items ++ draws_of combination.now starts.now) }
{
    for start in starts {
        planned.push(Planned {
            combination,
            start: *start,
        })?;
    }
    Ok(())
}

/// The runs of all draws: for the first combination all draws, and then for the next.
fn plan_all<'a>(
    alloc: Global,
    combinations: &'a [Combination],
    starts: &[u64],
) -> Result<Vec<Planned<'a>>, Memory>
    ensures { IfOk result (λ planned. runs_of planned.items ≡ all_draws combinations.now starts.now) }
{
    let mut planned = Vec::new(alloc);
    for combination in combinations {
        plan_draws(&mut planned, combination, starts)?;
    }
    Ok(planned)
}

/// What the runs of all draws came to, done in at most so many threads at once.
fn drawn_in_parts<T: Threads + Sync, L: RunOnlooker + Sync>(
    rt: &T,
    alloc: Global,
    threads: usize,
    onlooker: &L,
    input: &Input,
    planned: &[Planned<'_>],
) -> Result<Vec<Drawn>, EngineFault>
    requires threads { 0 < threads }
    requires few { length input.now.lists.items ≤ 64 }
    ensures ok { IfOk result (λ made.
        AreRun input.now.instruction input.now.lists.items planned.now made.items) }
    ensures stop { IfErr result (IsStop input.now.lists.items) }
{
    let make = |_: usize, part: &[Planned<'_>]| -> Result<Vec<Drawn>, EngineFault>
        requires { length input.now.lists.items ≤ 64 }
        ensures { IsDrawnPart input.entry.now.instruction input.entry.now.lists.items part.now result }
    { drawn_of(alloc, input, onlooker, part) };
    let size = size_of(planned.len(), threads);
    let parts = thread::map_chunks(rt, alloc, planned, size, &make)?;
    joined(alloc, parts)
}

/// The states at which the draws begin, if there are draws.
pub fn all_starts(alloc: Global, draws: &Option<Draws>, input: &Input) -> Result<Vec<u64>, Memory>
    ensures starts { IfOk result (λ starts. starts.items ≡ starts_of draws.now input.now.lists.items) }
    ensures few { IfOk result (λ starts. length starts.items ≤ 65535) }
{
    match draws {
        None => Ok(Vec::new(alloc)),
        Some(draws) => {
            let _number: u16 = draws.number;
            starts_of(alloc, draws, input.lists.as_slice())
        }
    }
}

/// What the best cuttings at base prices are worth, if there are draws that need it.
fn best_of(alloc: Global, input: &Input, starts: &[u64]) -> Result<u128, Memory>
    requires room { stems_in_all input.now.lists.items ≤ MOST_POSTINGS }
    ensures best { IfOk result (IsBestFor input.now.instruction input.now.lists.items starts.now) }
    ensures low { IfOk result (λ best. best < 2 ^ 100) }
{
    if starts.is_empty() {
        return Ok(0);
    }
    let instruction = Arc::new(alloc, input.instruction.copy(alloc)?)?;
    best_worth(alloc, &instruction, input.lists.as_slice())
}

/// What the runs of combinations came to.
#[derive(Drop)]
pub struct RunsMade {
    /// The line of each, as that of a sweep.
    pub lines: Vec<Vec<u8>>,
    /// What all draws of each came to, one combination after the other.
    pub drawn: Vec<Drawn>,
    /// What the best cuttings at base prices are worth, in millionths of the price unit; any number without draws.
    pub best: u128,
}

/// Makes the runs of combinations, in the files' own order and in those of the draws that begin at these states, in at
/// most so many threads at once. `Memory` if an allocation failed.
pub fn made_in_parts<T: Threads + Sync, L: RunOnlooker + Sync>(
    rt: &T,
    alloc: Global,
    threads: usize,
    onlooker: &L,
    input: &Input,
    combinations: &[Combination],
    starts: &[u64],
) -> Result<RunsMade, EngineFault>
    requires threads { 0 < threads }
    requires few { length input.now.lists.items ≤ 64 }
    requires room { stems_in_all input.now.lists.items ≤ MOST_POSTINGS }
    ensures lines { IfOk result (λ made.
        AreLinesFor input.now.instruction input.now.lists.items combinations.now made.lines.items) }
    ensures drawn { IfOk result (λ made.
        AreDrawnFor input.now.instruction input.now.lists.items combinations.now starts.now made.drawn.items) }
    ensures best { IfOk result (λ made.
        IsBestFor input.now.instruction input.now.lists.items starts.now made.best) }
    ensures low { IfOk result (λ made. made.best < 2 ^ 100) }
    ensures stop { IfErr result (IsStop input.now.lists.items) }
{
    let lines = lines_in_parts(rt, alloc, threads, onlooker, input, combinations)?;
    let planned = plan_all(alloc, combinations, starts)?;
    let drawn = drawn_in_parts(rt, alloc, threads, onlooker, input, planned.as_slice())?;
    let best = best_of(alloc, input, starts)?;
    Ok(RunsMade { lines, drawn, best })
}

/// What a [`RunsMade`] has, lent.
#[derive(Clone, Copy)]
struct Made<'a> {
    pub lines: &'a [Vec<u8>],
    pub drawn: &'a [Drawn],
    pub best: u128,
}

/// The table of some combinations, given what their runs came to.
fn text_of(
    alloc: Global,
    input: &Input,
    combinations: &[Combination],
    starts: &[u64],
    made: Made<'_>,
) -> Result<Vec<u8>, Memory>
    requires few { length starts.now ≤ 65535 }
    requires lines { AreLinesFor input.now.instruction input.now.lists.items combinations.now made.lines.now }
    requires drawn { AreDrawnFor input.now.instruction input.now.lists.items combinations.now starts.now
        made.drawn.now }
    requires best { IsBestFor input.now.instruction input.now.lists.items starts.now made.best }
    requires low { made.best < 2 ^ 100 }
    ensures { IfOk result (λ text.
        IsTrialOver input.now.instruction input.now.lists.items combinations.now starts.now text.items) }
{
    let mut out = Vec::new(alloc);
    put_first(alloc, &mut out, &input.instruction, !starts.is_empty())?;
    let mut rest = made.drawn;
    for k in 0..combinations.len() {
        let (own, more) = rest.split_at(starts.len());
        put_line(alloc, &mut out, made.lines[k].as_slice(), own, made.best)?;
        rest = more;
    }
    Ok(out)
}

/// The table of some combinations over what files say, with the runs in at most so many threads at once.
fn table_of<T: Threads + Sync, L: RunOnlooker + Sync>(
    rt: &T,
    alloc: Global,
    threads: usize,
    onlooker: &L,
    input: &Input,
    combinations: &[Combination],
    starts: &[u64],
) -> Result<Vec<u8>, EngineFault>
    requires threads { 0 < threads }
    requires few { length input.now.lists.items ≤ 64 }
    requires room { stems_in_all input.now.lists.items ≤ MOST_POSTINGS }
    requires starts { length starts.now ≤ 65535 }
    ensures ok { IfOk result (λ text.
        IsTrialOver input.now.instruction input.now.lists.items combinations.now starts.now text.items) }
    ensures stop { IfErr result (IsStop input.now.lists.items) }
{
    onlooker.making(combinations.len().saturating_mul(starts.len() + 1));
    let runs = made_in_parts(rt, alloc, threads, onlooker, input, combinations, starts)?;
    let made = Made {
        lines: runs.lines.as_slice(),
        drawn: runs.drawn.as_slice(),
        best: runs.best,
    };
    Ok(text_of(alloc, input, combinations, starts, made)?)
}

/// The table of some combinations over what files say, one run after the other.
fn table_one_by_one<L: RunOnlooker>(
    alloc: Global,
    onlooker: &L,
    input: &Input,
    combinations: &[Combination],
    starts: &[u64],
) -> Result<Vec<u8>, EngineFault>
    requires few { length input.now.lists.items ≤ 64 }
    requires room { stems_in_all input.now.lists.items ≤ MOST_POSTINGS }
    requires starts { length starts.now ≤ 65535 }
    ensures ok { IfOk result (λ text.
        IsTrialOver input.now.instruction input.now.lists.items combinations.now starts.now text.items) }
    ensures stop { IfErr result (IsStop input.now.lists.items) }
{
    onlooker.making(combinations.len().saturating_mul(starts.len() + 1));
    let lines = lines_of(alloc, input, onlooker, combinations)?;
    let planned = plan_all(alloc, combinations, starts)?;
    let drawn = drawn_of(alloc, input, onlooker, planned.as_slice())?;
    let best = best_of(alloc, input, starts)?;
    let made = Made {
        lines: lines.as_slice(),
        drawn: drawn.as_slice(),
        best,
    };
    Ok(text_of(alloc, input, combinations, starts, made)?)
}

/// Makes the table of a task over what files say, and writes it.
fn write_trial<T: Threads + Sync, L: RunOnlooker + Sync, W: io::Write>(
    rt: &T,
    alloc: Global,
    task: &TrialTask<'_>,
    onlooker: &L,
    input: &Input,
    out: &mut W,
) -> Result<(), EngineFault>
    requires few { length input.now.lists.items ≤ 64 }
    requires room { stems_in_all input.now.lists.items ≤ MOST_POSTINGS }
    ensures { WritesText (AnswersOver input.now.lists.items (IsTrialOver input.now.instruction input.now.lists.items
        task.now.combinations.items (starts_of task.now.draws input.now.lists.items)))
        (W.contents out.old) (W.contents out.new) result }
{
    let starts = all_starts(alloc, &task.draws, input)?;
    let threads = number_of_threads(rt, task.threads);
    let combinations = task.combinations.as_slice();
    let text = table_of(
        rt,
        alloc,
        threads,
        onlooker,
        input,
        combinations,
        starts.as_slice(),
    )?;
    write_text(out, text.as_slice())
}

/// [`write_trial`], one run after the other.
fn write_one_by_one<L: RunOnlooker, W: io::Write>(
    alloc: Global,
    task: &TrialTask<'_>,
    onlooker: &L,
    input: &Input,
    out: &mut W,
) -> Result<(), EngineFault>
    requires few { length input.now.lists.items ≤ 64 }
    requires room { stems_in_all input.now.lists.items ≤ MOST_POSTINGS }
    ensures { WritesText (AnswersOver input.now.lists.items (IsTrialOver input.now.instruction input.now.lists.items
        task.now.combinations.items (starts_of task.now.draws input.now.lists.items)))
        (W.contents out.old) (W.contents out.new) result }
{
    let starts = all_starts(alloc, &task.draws, input)?;
    let combinations = task.combinations.as_slice();
    let text = table_one_by_one(alloc, onlooker, input, combinations, starts.as_slice())?;
    write_text(out, text.as_slice())
}

/// Reads an instruction file, stem files and a file of targets, if there is one, cuts the stems in turn once for
/// each combination, and once more for each draw of an order, and writes what that came to: the lines of a sweep, and
/// behind each what its draws came to. Nothing is written before the whole table is there.
///
/// `Seats` comes if there are not 1 to 64 stem files, before anything is read. The instruction file is file 0, the
/// k-th stem file is file k, and the file of targets is the last; each is read, and refused if it must be, before
/// the next: as `Read`, `Apt`, `Stm` or `Targets`. `Full` comes if there are more stems than 1,000,000, before the
/// file of targets is read, `Write` if the writer fails, which leaves a prefix of the table, and `Memory` if an
/// allocation failed.
pub fn run_trial<L: RunOnlooker, R: io::Read + Drop, W: io::Write>(
    alloc: Global,
    task: &TrialTask<'_>,
    onlooker: &L,
    files: Opened<R>,
    out: &mut W,
) -> Result<(), TermsFault>
    // What is written is the table of the combinations, of the instruction and the stems that the files have, with the
    // targets of the file of targets: each line that of a run by its rule, and its draws those of runs in the orders
    // drawn. A fault is that of the first file that has one, or comes after all of them, and nothing is written; a
    // write fault leaves a prefix of the table.
    ensures { IsTrialRun task.now.combinations.items task.now.draws (R.remaining files.apt)
        (map R.remaining files.stms.items) (held_with R.remaining files.targets)
        (W.contents out.old) (W.contents out.new) result }
{
    let input = read_files(&OneThread, alloc, files)?;
    of_run(write_one_by_one(alloc, task, onlooker, &input, out))
}

/// [`run_trial`] with the runs done in several threads at once: in the given number, from 1 to 64, or, if none is
/// given, in as many as the machine has. What is written, and each fault, are those of [`run_trial`], whatever the
/// number.
pub fn run_trial_in_parts<
    T: Threads + Sync,
    L: RunOnlooker + Sync,
    R: io::Read + Drop,
    W: io::Write,
>(
    rt: &T,
    alloc: Global,
    task: &TrialTask<'_>,
    onlooker: &L,
    files: Opened<R>,
    out: &mut W,
) -> Result<(), TermsFault>
    // As of [`run_trial`].
    ensures { IsTrialRun task.now.combinations.items task.now.draws (R.remaining files.apt)
        (map R.remaining files.stms.items) (held_with R.remaining files.targets)
        (W.contents out.old) (W.contents out.new) result }
{
    let workers = SeveralThreads::of(rt, task.threads, onlooker);
    let input = read_files(&workers, alloc, files)?;
    of_run(write_trial(rt, alloc, task, onlooker, &input, out))
}
