//! A sweep whose lines also say what an owner pays.
ghost use Rattle.std.specs.Prelude.{◌≡◌, ◌<◌, ◌≤◌, ◌^◌, ◌++◌, IfErr, IfOk, List, OnOk, Some, codes, length, map, ℕ};
ghost use Rattle.std.specs.List.{AllZip};
ghost use Rattle.std.specs.Option.{option_map};
ghost use Rattle.buck_book_postings.specs.declared.posting.TheConstants.{MOST_POSTINGS};
ghost use Rattle.buck_book_postings.specs.History.{IsLawful};
ghost use Rattle.buckfleet_engine_files.specs.Written.{WritesText};
ghost use Rattle.buck_book_journal.specs.Journal.{history_of};
ghost use Rattle.buckfleet_trial_sweep.specs.Runs.{IsStop};
ghost use Rattle.buckfleet_terms_files.specs.Own.{HasShapeOf};
ghost use Rattle.buckfleet_terms_files.specs.Telling.{WritesTerms};
ghost use Rattle.buckfleet_trial.specs.Inputs.{held_with};
ghost use Rattle.buckfleet_trial_owned.specs.Owned.{AnswersOwned, AnswersOwnedFiles, RunsOwned, files_before};
ghost use Rattle.buckfleet_trial_owned.specs.Owned.{AreLosses, IsOwnRun, IsOwnTail, IsOwnedOver, losses_in, own_cells};
ghost use Rattle.buckfleet_trial.specs.Trial.{IsBestFor, IsFromNothing, starts_of};
ghost use Rattle.buck_fleet_round_robin.specs.Turn.{stems_in_all};
ghost use Rattle.buckfleet_trial.specs.Lines.{AreDrawnFor, AreLinesFor};
ghost use Rattle.buckfleet_trial_owned.specs.inner.Owned.{AreTails, IsFirstLine, IsPaidFor, IsPutOwned, IsTailsPart};
ghost use Rattle.buckfleet_trial.specs.Running.{AnswersOver};

use crate::outcome::OwnRun;
use buck_apt_instruction::Instruction;
use buck_book_journal::Journal;
use buck_book_postings::Parts;
use buck_page_cells::{Change, put_numbers, put_spread, spread_of};
use buck_record::Memory;
use buck_value::Sheet;
use buckfleet_engine_files::{
    EngineFault, Nobody, Onlooker, Open, SeveralThreads, number_of_threads, write_text,
};
use buckfleet_engine_input::Input;
use buckfleet_proceeds::appraise;
use buckfleet_tasks::{Combination, OwnedTask, TrialTask};
use buckfleet_terms_files::{TermsFault, open_last, read_own};
use buckfleet_trial::{
    Drawn, Opened, all_starts, cost_of, cut_in_order, joined, made_in_parts, of_run, open_files,
    open_line, put_first, put_line, read_files, size_of,
};
use std::alloc::Global;
use std::sync::Arc;
use std::thread::Threads;
use std::{io, thread};

/// The files of a trial, open, and that of an owner's instruction with its number, which is the last.
#[derive(Drop)]
pub struct OwnedFiles<F> {
    /// Those of a trial.
    pub files: Opened<F>,
    /// That of the owner's instruction, and its number, from 0 for the instruction file.
    pub own: (F, u32),
}

/// The prices of some sheets.
fn prices_of(alloc: Global, sheets: &[Arc<Sheet>]) -> Result<Vec<Vec<u32>>, Memory>
    ensures { IfOk result (λ made. map (λ w. w.items) made.items ≡ map (λ a. a.value.prices) sheets.now) }
{
    let mut made = Vec::with_capacity(alloc, sheets.len())?;
    for sheet in sheets {
        made.push(sheet.prices().to_vec(alloc)?)?;
    }
    Ok(made)
}

/// The journal of what was cut.
fn journal_of(alloc: Global, parts: Parts) -> Result<Journal, Memory>
    ensures history { IfOk result (λ j. history_of parts.instruction j ≡ parts) }
    ensures lawful { IsLawful parts }
    ensures few { length parts.postings ≤ MOST_POSTINGS }
{
    let _few = parts.entries();
    let sheets = prices_of(alloc, parts.sheets())?;
    Ok(Journal {
        sheets,
        entries: parts.into_entries(),
    })
}

/// What was cut brings this under an owner's instruction.
fn paid_for(alloc: Global, own: &Instruction, parts: Parts) -> Result<OwnRun, Memory>
    requires { HasShapeOf parts.instruction own.now }
    ensures { IfOk result (IsPaidFor own.now parts.postings) }
{
    let mut journals = Vec::new(alloc);
    journals.push(journal_of(alloc, parts)?)?;
    let appraisal = appraise(alloc, own.copy(alloc)?, journals.as_slice())?;
    Ok(OwnRun {
        worth: appraisal.total.cut.worth,
        best: appraisal.total.best.worth,
        unbought: appraisal.total.cut.unbought,
    })
}

/// What the run of a combination brings, in such an order.
fn own_run(
    alloc: Global,
    input: &Input,
    own: &Instruction,
    combination: &Combination,
    order: Option<u64>,
) -> Result<OwnRun, EngineFault>
    requires few { length input.now.lists.items ≤ 64 }
    requires shape { HasShapeOf input.now.instruction own.now }
    ensures ok { IfOk result (IsOwnRun own.now input.now.instruction input.now.lists.items combination.now order) }
    ensures stop { IfErr result (IsStop input.now.lists.items) }
{
    let changed = input.instruction.copy(alloc)?;
    let instruction = Arc::new(alloc, changed.with(&combination.settings))?;
    let lists = input.lists.as_slice();
    let parts = cut_in_order(alloc, &instruction, combination.rule, lists, order)?;
    Ok(paid_for(alloc, own, parts)?)
}

/// What it brings in the orders of some draws.
fn own_drawn(
    alloc: Global,
    input: &Input,
    own: &Instruction,
    combination: &Combination,
    starts: &[u64],
) -> Result<Vec<OwnRun>, EngineFault>
    requires few { length input.now.lists.items ≤ 64 }
    requires shape { HasShapeOf input.now.instruction own.now }
    ensures ok { IfOk result (λ drawn. AllZip
        (λ start o. IsOwnRun own.now input.now.instruction input.now.lists.items combination.now (Some start) o)
        starts.now drawn.items) }
    ensures stop { IfErr result (IsStop input.now.lists.items) }
{
    let mut drawn = Vec::new(alloc);
    for start in starts {
        let one = own_run(alloc, input, own, combination, Some(*start))?;
        drawn.push(one)?;
    }
    Ok(drawn)
}

/// What draws lose.
fn losses_in(alloc: Global, drawn: &[OwnRun]) -> Result<Vec<Option<Change>>, Memory>
    ensures { IfOk result (λ losses. AllZip IsFromNothing (losses_in drawn.now) losses.items) }
{
    let mut losses = Vec::new(alloc);
    for one in drawn {
        losses.push(Some(Change::to(cost_of(one.best, one.worth))))?;
    }
    Ok(losses)
}

/// Puts what draws lose, if there are some.
fn put_losses(alloc: Global, out: &mut Vec<u8>, drawn: &[OwnRun]) -> Result<(), Memory>
    requires { length drawn.now ≤ 65535 }
    ensures { OnOk result ((losses : List ℕ) × AreLosses drawn.now losses × (out.new.items ≡ out.old.items ++ losses)) }
{
    if drawn.is_empty() {
        return Ok(());
    }
    let losses = losses_in(alloc, drawn)?;
    put_spread(out, spread_of(losses.as_slice()))
}

/// The cells of a run and of its draws.
fn cells_of(alloc: Global, run: &OwnRun, drawn: &[OwnRun]) -> Result<Vec<u8>, Memory>
    requires { length drawn.now ≤ 65535 }
    ensures { IfOk result (λ tail. (losses : List ℕ) × AreLosses drawn.now losses
        × (tail.items ≡ own_cells run.now ++ losses)) }
{
    let mut out = Vec::new(alloc);
    let loss = cost_of(run.best, run.worth);
    put_numbers(
        &mut out,
        &[run.worth, run.best, u128::from(run.unbought), loss],
    )?;
    put_losses(alloc, &mut out, drawn)?;
    Ok(out)
}

/// What stands last in the line of a combination.
fn tail_of(
    alloc: Global,
    input: &Input,
    own: &Instruction,
    combination: &Combination,
    starts: &[u64],
) -> Result<Vec<u8>, EngineFault>
    requires few { length input.now.lists.items ≤ 64 }
    requires draws { length starts.now ≤ 65535 }
    requires shape { HasShapeOf input.now.instruction own.now }
    ensures ok { IfOk result (λ tail. IsOwnTail own.now input.now.instruction input.now.lists.items starts.now
        combination.now tail.items) }
    ensures stop { IfErr result (IsStop input.now.lists.items) }
{
    let whole = own_run(alloc, input, own, combination, None)?;
    let drawn = own_drawn(alloc, input, own, combination, starts)?;
    Ok(cells_of(alloc, &whole, drawn.as_slice())?)
}

/// The same of some combinations.
fn tails_of(
    alloc: Global,
    input: &Input,
    own: &Instruction,
    combinations: &[Combination],
    starts: &[u64],
) -> Result<Vec<Vec<u8>>, EngineFault>
    requires few { length input.now.lists.items ≤ 64 }
    requires draws { length starts.now ≤ 65535 }
    requires shape { HasShapeOf input.now.instruction own.now }
    ensures ok { IfOk result (λ tails. AreTails own.now input.now.instruction input.now.lists.items starts.now
        combinations.now tails.items) }
    ensures stop { IfErr result (IsStop input.now.lists.items) }
{
    let mut tails = Vec::new(alloc);
    for combination in combinations {
        let tail = tail_of(alloc, input, own, combination, starts)?;
        tails.push(tail)?;
    }
    Ok(tails)
}

/// The same, with the runs of combinations in at most so many threads at once.
fn tails_in_parts<T: Threads + Sync>(
    rt: &T,
    alloc: Global,
    threads: usize,
    input: &Input,
    own: &Instruction,
    combinations: &[Combination],
    starts: &[u64],
) -> Result<Vec<Vec<u8>>, EngineFault>
    requires threads { 0 < threads }
    requires few { length input.now.lists.items ≤ 64 }
    requires draws { length starts.now ≤ 65535 }
    requires shape { HasShapeOf input.now.instruction own.now }
    ensures ok { IfOk result (λ tails. AreTails own.now input.now.instruction input.now.lists.items starts.now
        combinations.now tails.items) }
    ensures stop { IfErr result (IsStop input.now.lists.items) }
{
    let make = |_: usize, part: &[Combination]| -> Result<Vec<Vec<u8>>, EngineFault>
        requires { (length input.now.lists.items ≤ 64) × (length starts.now ≤ 65535)
            × HasShapeOf input.now.instruction own.now }
        ensures { IsTailsPart own.entry.now input.entry.now.instruction input.entry.now.lists.items
            starts.entry.now part.now result }
    { tails_of(alloc, input, own, part, starts) };
    let size = size_of(combinations.len(), threads);
    let parts = thread::map_chunks(rt, alloc, combinations, size, &make)?;
    joined(alloc, parts)
}

/// The names of the last columns.
const OWN: &[u8] =
    b",own_worth_millionths,own_best_worth_millionths,own_unbought_logs,own_loss_ten_thousandths";

/// The names of those of draws.
const OWN_DRAWN: &[u8] = b",own_loss_min,own_loss_mean,own_loss_max";

/// Puts a line with something behind it, before its line feed.
fn put_behind(out: &mut Vec<u8>, line: &[u8], tail: &[u8]) -> Result<(), Memory>
    ensures { OnOk result ((front : List ℕ) → line.now ≡ front ++ codes "\n"
        → out.new.items ≡ out.old.items ++ (front ++ (tail.now ++ codes "\n"))) }
{
    out.extend_from_slice(open_line(line))?;
    out.extend_from_slice(tail)?;
    out.extend_from_slice(b"\n")?;
    Ok(())
}

/// Puts the first line, which names the columns.
fn put_columns(
    alloc: Global,
    out: &mut Vec<u8>,
    instruction: &Instruction,
    has_draws: bool,
) -> Result<(), Memory>
    ensures { OnOk result (IsFirstLine instruction.now has_draws out.old.items out.new.items) }
{
    let mut head = Vec::new(alloc);
    put_first(alloc, &mut head, instruction, has_draws)?;
    let mut names = Vec::from_slice(alloc, OWN)?;
    if has_draws {
        names.extend_from_slice(OWN_DRAWN)?;
    }
    put_behind(out, head.as_slice(), names.as_slice())
}

/// Puts the line of a combination.
fn put_owned(
    alloc: Global,
    out: &mut Vec<u8>,
    line: &[u8],
    drawn: &[Drawn],
    best: u128,
    tail: &[u8],
) -> Result<(), Memory>
    requires few { length drawn.now ≤ 65535 }
    requires low { best < 2 ^ 100 }
    ensures { OnOk result (IsPutOwned best line.now drawn.now tail.now out.old.items out.new.items) }
{
    let mut front = Vec::new(alloc);
    put_line(alloc, &mut front, line, drawn, best)?;
    put_behind(out, front.as_slice(), tail)
}

/// What the runs of combinations came to, as [`RunsMade`](buckfleet_trial::RunsMade) has it, and what stands last in
/// the line of each.
#[derive(Clone, Copy)]
struct MadeOwned<'a> {
    lines: &'a [Vec<u8>],
    drawn: &'a [Drawn],
    best: u128,
    tails: &'a [Vec<u8>],
}

/// The table of some combinations, given what their runs came to.
fn owned_text(
    alloc: Global,
    input: &Input,
    own: &Instruction,
    combinations: &[Combination],
    starts: &[u64],
    owned: MadeOwned<'_>,
) -> Result<Vec<u8>, Memory>
    requires few { length starts.now ≤ 65535 }
    requires lines { AreLinesFor input.now.instruction input.now.lists.items combinations.now owned.lines.now }
    requires drawn { AreDrawnFor input.now.instruction input.now.lists.items combinations.now starts.now
        owned.drawn.now }
    requires best { IsBestFor input.now.instruction input.now.lists.items starts.now owned.best }
    requires low { owned.best < 2 ^ 100 }
    requires tails { AreTails own.now input.now.instruction input.now.lists.items starts.now combinations.now
        owned.tails.now }
    ensures { IfOk result (λ text. IsOwnedOver own.now input.now.instruction input.now.lists.items combinations.now
        starts.now text.items) }
{
    let (lines, tails) = (owned.lines, owned.tails);
    let mut out = Vec::new(alloc);
    put_columns(alloc, &mut out, &input.instruction, !starts.is_empty())?;
    let mut rest = owned.drawn;
    for k in 0..combinations.len() {
        let (drawn, more) = rest.split_at(starts.len());
        let line = lines[k].as_slice();
        let tail = tails[k].as_slice();
        put_owned(alloc, &mut out, line, drawn, owned.best, tail)?;
        rest = more;
    }
    Ok(out)
}

/// The table of some combinations over what files say, with the runs in at most so many threads at once.
fn owned_table<T: Threads + Sync>(
    rt: &T,
    alloc: Global,
    threads: usize,
    input: &Input,
    own: &Instruction,
    combinations: &[Combination],
    starts: &[u64],
) -> Result<Vec<u8>, EngineFault>
    requires threads { 0 < threads }
    requires few { length input.now.lists.items ≤ 64 }
    requires room { stems_in_all input.now.lists.items ≤ MOST_POSTINGS }
    requires draws { length starts.now ≤ 65535 }
    requires shape { HasShapeOf input.now.instruction own.now }
    ensures ok { IfOk result (λ text. IsOwnedOver own.now input.now.instruction input.now.lists.items
        combinations.now starts.now text.items) }
    ensures stop { IfErr result (IsStop input.now.lists.items) }
{
    // Half of the runs are made here and half by `tails_in_parts`, so neither is reported as a part of the whole.
    let made = made_in_parts(rt, alloc, threads, &Nobody, input, combinations, starts)?;
    let tails = tails_in_parts(rt, alloc, threads, input, own, combinations, starts)?;
    let owned = MadeOwned {
        lines: made.lines.as_slice(),
        drawn: made.drawn.as_slice(),
        best: made.best,
        tails: tails.as_slice(),
    };
    Ok(owned_text(alloc, input, own, combinations, starts, owned)?)
}

/// Makes the table of a task over what files say, and writes it.
fn write_owned<T: Threads + Sync, W: io::Write>(
    rt: &T,
    alloc: Global,
    task: &TrialTask<'_>,
    input: &Input,
    own: &Instruction,
    out: &mut W,
) -> Result<(), EngineFault>
    requires few { length input.now.lists.items ≤ 64 }
    requires room { stems_in_all input.now.lists.items ≤ MOST_POSTINGS }
    requires shape { HasShapeOf input.now.instruction own.now }
    ensures { WritesText (AnswersOver input.now.lists.items (IsOwnedOver own.now input.now.instruction
        input.now.lists.items task.now.combinations.items (starts_of task.now.draws input.now.lists.items)))
        (W.contents out.old) (W.contents out.new) result }
{
    let starts = all_starts(alloc, &task.draws, input)?;
    let threads = number_of_threads(rt, task.threads);
    let combinations = task.combinations.as_slice();
    let text = owned_table(
        rt,
        alloc,
        threads,
        input,
        own,
        combinations,
        starts.as_slice(),
    )?;
    write_text(out, text.as_slice())
}

/// Makes the table of [`run_trial`](buckfleet_trial::run_trial) with more columns, which stand last: what the run of
/// each line brings under an owner's instruction, what the best cuttings bring there, how many logs it doesn't buy, and
/// what is lost of it in ten-thousandths; with draws, the least, the mean and the greatest of what these lose. The
/// owner's instruction is read after all other files, and refused if it may not stand beside the instruction; see
/// [`shape_fault`](buckfleet_terms_files::shape_fault).
pub fn run_owned<T: Threads + Sync, L: Onlooker, R: io::Read + Drop, W: io::Write>(
    rt: &T,
    alloc: Global,
    task: &TrialTask<'_>,
    onlooker: &L,
    files: OwnedFiles<R>,
    out: &mut W,
) -> Result<(), TermsFault>
    // What is written is the table of a trial, and behind each of its lines the total of the appraisal of the run's
    // history. A fault is that of the first file that has one, or comes after all of them, and nothing is written; a
    // write fault leaves a prefix of the table.
    ensures { WritesTerms (AnswersOwned task.now.combinations.items task.now.draws (R.remaining files.files.apt)
        (map R.remaining files.files.stms.items) (held_with R.remaining files.files.targets)
        (R.remaining files.own.0, files.own.1)) (W.contents out.old) (W.contents out.new) result }
{
    let OwnedFiles { files, own } = files;
    let (mut reader, file) = own;
    let workers = SeveralThreads::of(rt, task.threads, onlooker);
    let input = read_files(&workers, alloc, files)?;
    let owner = read_own(alloc, &mut reader, file, &input.instruction)?;
    of_run(write_owned(rt, alloc, task, &input, &owner, out))
}

/// How many files come before that of the owner's instruction.
fn files_before(stms: &[&str], targets: Option<&str>) -> usize
    ensures { result ≡ files_before (map (λ s. s.now) stms.now) (option_map (λ s. s.now) targets.entry) }
{
    match targets {
        None => stms.len() + 1,
        Some(_) => stms.len() + 2,
    }
}

/// Opens the files of a trial, and then the owner's instruction.
fn open_owned<O: Open>(
    alloc: Global,
    opener: &mut O,
    task: &TrialTask<'_>,
    own: &str,
) -> Result<OwnedFiles<O::File>, EngineFault>
    ensures { AnswersOwnedFiles O.opens opener.old opener.new task.now.apt.now
        (map (λ s. s.now) task.now.stms.items) (option_map (λ s. s.now) task.now.targets) own.now result }
{
    let stms = task.stms.as_slice();
    let files = open_files(alloc, opener, task.apt, stms, task.targets)?;
    let last = open_last(opener, own, files_before(stms, task.targets))?;
    Ok(OwnedFiles { files, own: last })
}

/// Makes the table that a task asks for over the files of its names and that of an owner's instruction, which is opened
/// after the others. Else as [`serve_trial`](buckfleet_trial::serve_trial); the faults are those of [`run_owned`].
pub fn serve_owned<T: Threads + Sync, L: Onlooker, O: Open, W: io::Write>(
    rt: &T,
    alloc: Global,
    task: &OwnedTask<'_>,
    onlooker: &L,
    opener: &mut O,
    out: &mut W,
) -> Result<(), TermsFault>
    ensures { RunsOwned O.opens O.File.remaining opener.old opener.new task.now
        (W.contents out.old) (W.contents out.new) result }
{
    let files = open_owned(alloc, opener, &task.trial, task.own)?;
    run_owned(rt, alloc, &task.trial, onlooker, files, out)
}
