//! All wishes, greatest gain first.
ghost use Rattle.std.specs.Prelude.{◌≡◌, ◌<◌, ◌≤◌, ◌*◌, ◌+◌, ◌++◌, IfErr, IfOk, OnOk, length, map};
ghost use Rattle.std.specs.List.{flat_map};
ghost use Rattle.std.specs.Ordering.{nat_cmp};
ghost use Rattle.buck_apt_instruction.specs.Instruction.{IsInstruction};
ghost use Rattle.buck_apt_instruction.specs.Settings.{with_settings};
ghost use Rattle.buck_apt_instruction.specs.Wanted.{MayBeWanted};
ghost use Rattle.buck_book_postings.specs.Posting.{opening_targets};
ghost use Rattle.buckfleet_trial_sweep.specs.Runs.{IsStop};
ghost use Rattle.buckfleet_terms_files.specs.Telling.{WritesTerms};
ghost use Rattle.buckfleet_trial.specs.Inputs.{held_with};
ghost use Rattle.buckfleet_trial.specs.Trial.{starts_of};
ghost use Rattle.buckfleet_trial_wishes.specs.Wishes.{AnswersWishes, AreUnsteered, AreWishes, IsWishAt};
ghost use Rattle.buckfleet_trial_wishes.specs.WishLine.{empty_end, gains_head, whole_line, wishes_head};
ghost use Rattle.buckfleet_engine_files.specs.Written.{WritesText};
ghost use Rattle.buckfleet_trial.specs.Running.{AnswersOver};
ghost use Rattle.buckfleet_trial_wishes.specs.inner.Asking.{AreAsked, AreBelow, AreDrawnBy, AreRunsBy, AreTold, IsAsking, IsDrawnPartBy, IsToldPart};

use crate::asking::Asking;
use crate::outcome::{Outcome, Runs};
use crate::wish::{Told, Wish, put_degree, put_worth, tell_wish};
use buck_apt_instruction::Instruction;
use buck_record::Memory;
use buck_rule::NamedRule;
use buck_stem_shape::Stem;
use buckfleet_engine_files::{
    EngineFault, OneThread, RunOnlooker, SeveralThreads, number_of_threads, write_text,
};
use buckfleet_engine_input::Input;
use buckfleet_tasks::WishesTask;
use buckfleet_terms_files::TermsFault;
use buckfleet_trial::{Opened, all_starts, cut_by_name, joined, of_run, read_files, size_of};
use std::alloc::Global;
use std::cmp::Ordering;
use std::sync::Arc;
use std::thread::Threads;
use std::{io, thread};

/// The names of the columns: of a class and what is wanted of it, of its target as it was moved and what its run came
/// to, and of the least degree.
const CLASS: &[u8] =
    b"assortment,row,column,from_mm,below_mm,length_mm,target,targets,unsteered_count,unsteered_logs";

const MOVED: &[u8] =
    b",moved_target,moved_targets,base_worth_millionths,gain_millionths,degree,degree_change";

const LEAST: &[u8] = b",least_degree,least_degree_change,name";

/// The names of those of draws.
const GAINS: &[u8] =
    b",gain_min,gain_mean,gain_max,degree_change_min,degree_change_mean,degree_change_max";

/// How many logs the best cuttings at base prices have of each class.
fn unsteered_of(
    alloc: Global,
    instruction: &Arc<Instruction>,
    lists: &[Vec<Arc<Stem>>],
) -> Result<Vec<u32>, EngineFault>
    requires few { length lists.now ≤ 64 }
    ensures ok { IfOk result (λ unsteered. AreUnsteered instruction.now.value lists.now unsteered.items) }
    ensures stop { IfErr result (IsStop lists.now) }
{
    let parts = cut_by_name(alloc, instruction, NamedRule::Steady, lists)?;
    Ok(parts.counts().to_vec(alloc)?)
}

/// The targets of an instruction, class by class.
fn targets_of(alloc: Global, instruction: &Instruction) -> Result<Vec<u32>, Memory>
    ensures targets { IfOk result (λ targets. targets.items ≡ opening_targets instruction.now) }
    ensures valid { MayBeWanted instruction.now (opening_targets instruction.now) }
{
    let mut targets = Vec::new(alloc);
    for assortment in instruction.assortments() {
        targets.extend_from_slice(assortment.targets())?;
    }
    Ok(targets)
}

/// What all runs share, given what the files say.
fn asking_of(alloc: Global, input: Input, task: &WishesTask<'_>) -> Result<Asking, EngineFault>
    requires few { length input.lists.items ≤ 64 }
    ensures asking { IfOk result IsAsking }
    ensures rule { IfOk result (λ asking. asking.rule ≡ task.now.rule) }
    ensures instruction { IfOk result (λ asking.
        asking.instruction.value ≡ with_settings task.now.settings input.instruction) }
    ensures lists { IfOk result (λ asking. asking.input.lists.items ≡ input.lists.items) }
    ensures starts { IfOk result (λ asking. asking.starts.items ≡ starts_of task.now.draws input.lists.items) }
    ensures stop { IfErr result (IsStop input.lists.items) }
{
    let own = input.instruction.copy(alloc)?;
    let instruction = Arc::new(alloc, own.with(&task.settings))?;
    let unsteered = unsteered_of(alloc, &instruction, input.lists.as_slice())?;
    Ok(Asking {
        rule: task.rule,
        targets: targets_of(alloc, &instruction)?,
        unsteered,
        starts: all_starts(alloc, &task.draws, &input)?,
        instruction,
        input,
    })
}

/// The runs with all wishes in the orders of the draws, done in at most so many threads at once.
fn drawn_in_parts<T: Threads + Sync>(
    rt: &T,
    alloc: Global,
    threads: usize,
    asking: &Asking,
) -> Result<Vec<Outcome>, EngineFault>
    requires threads { 0 < threads }
    requires asking { IsAsking asking.now }
    ensures ok { IfOk result (λ drawn.
        AreDrawnBy asking.now asking.now.instruction.value asking.now.starts.items drawn.items) }
    ensures stop { IfErr result (IsStop asking.now.input.lists.items) }
{
    let make = |_: usize, part: &[u64]| -> Result<Vec<Outcome>, EngineFault>
        requires { IsAsking asking.now }
        ensures { IsDrawnPartBy asking.entry.now part.now result }
    { asking.drawn(alloc, &asking.instruction, part) };
    let starts = asking.starts.as_slice();
    let size = size_of(starts.len(), threads);
    let parts = thread::map_chunks(rt, alloc, starts, size, &make)?;
    joined(alloc, parts)
}

/// All runs with all wishes: that in the files' own order first.
fn whole_in_parts<T: Threads + Sync>(
    rt: &T,
    alloc: Global,
    threads: usize,
    asking: &Asking,
) -> Result<Runs, EngineFault>
    requires threads { 0 < threads }
    requires asking { IsAsking asking.now }
    ensures ok { IfOk result (AreRunsBy asking.now asking.now.instruction.value) }
    ensures stop { IfErr result (IsStop asking.now.input.lists.items) }
{
    Ok(Runs {
        own: asking.run(alloc, &asking.instruction, None)?,
        drawn: drawn_in_parts(rt, alloc, threads, asking)?,
    })
}

/// Adds the wishes of the assortment at a place.
fn add_wishes(wishes: &mut Vec<Wish>, asking: &Asking, at: usize) -> Result<(), Memory>
    requires asking { IsAsking asking.now }
    requires valid { IsInstruction asking.now.instruction.value }
    requires exists { at < length asking.now.instruction.value.assortments }
    requires below { AreBelow asking.now.instruction.value asking.now.unsteered.items (at * 1024) wishes.old.items }
    ensures { OnOk result (AreBelow asking.now.instruction.value asking.now.unsteered.items ((at + 1) * 1024)
        wishes.new.items) }
{
    let asked = asking.asked(at);
    for class in 0..asked.targets.len() {
        if asked.is_wish(class) {
            wishes.push(Wish {
                assortment: at,
                class,
            })?;
        }
    }
    Ok(())
}

/// All wishes, the lower class first.
#[tactic(auto, using(crate::proofs::Wished::none_below))]
fn wishes_of(alloc: Global, asking: &Asking) -> Result<Vec<Wish>, Memory>
    requires asking { IsAsking asking.now }
    ensures all { IfOk result (λ wishes. AreBelow asking.now.instruction.value asking.now.unsteered.items
        (length asking.now.instruction.value.assortments * 1024) wishes.items) }
    ensures valid { IsInstruction asking.now.instruction.value }
{
    let mut wishes = Vec::new(alloc);
    for at in 0..asking.instruction.assortments().len() {
        add_wishes(&mut wishes, asking, at)?;
    }
    Ok(wishes)
}

/// Tells some wishes, one after the other.
fn told_of<L: RunOnlooker>(
    alloc: Global,
    asking: &Asking,
    onlooker: &L,
    whole: &Runs,
    wishes: &[Wish],
) -> Result<Vec<Told>, EngineFault>
    requires asking { IsAsking asking.now }
    requires whole { length whole.now.drawn.items ≡ length asking.now.starts.items }
    requires wishes { AreAsked asking.now wishes.now }
    ensures ok { IfOk result (λ told. AreTold asking.now whole.now wishes.now told.items) }
    ensures stop { IfErr result (IsStop asking.now.input.lists.items) }
{
    let mut told = Vec::new(alloc);
    for wish in wishes {
        let one = tell_wish(alloc, asking, whole, *wish)?;
        told.push(one)?;
        onlooker.made(asking.number());
    }
    Ok(told)
}

/// Tells wishes, in at most so many threads at once.
fn told_in_parts<T: Threads + Sync, L: RunOnlooker + Sync>(
    rt: &T,
    alloc: Global,
    threads: usize,
    onlooker: &L,
    asking: &Asking,
    whole: &Runs,
    wishes: &[Wish],
) -> Result<Vec<Told>, EngineFault>
    requires threads { 0 < threads }
    requires asking { IsAsking asking.now }
    requires whole { length whole.now.drawn.items ≡ length asking.now.starts.items }
    requires wishes { AreAsked asking.now wishes.now }
    ensures ok { IfOk result (λ told. AreTold asking.now whole.now wishes.now told.items) }
    ensures stop { IfErr result (IsStop asking.now.input.lists.items) }
{
    let make = |_: usize, part: &[Wish]| -> Result<Vec<Told>, EngineFault>
        requires { IsAsking asking.now × (length whole.now.drawn.items ≡ length asking.now.starts.items)
            × AreAsked asking.now part.now }
        ensures { IsToldPart asking.entry.now whole.entry.now part.now result }
    { told_of(alloc, asking, onlooker, whole, part) };
    let size = size_of(wishes.len(), threads);
    let parts = thread::map_chunks(rt, alloc, wishes, size, &make)?;
    joined(alloc, parts)
}

/// What cuts more first.
fn by_worth(one: &Told, other: &Told) -> Ordering
    ensures { result ≡ nat_cmp other.now.worth one.now.worth }
{
    other.worth.cmp(&one.worth)
}

/// Puts the names of the columns.
fn put_head(out: &mut Vec<u8>, starts: &[u64]) -> Result<(), Memory>
    ensures { OnOk result (out.new.items ≡ out.old.items ++ wishes_head starts.now) }
{
    out.extend_from_slice(CLASS)?;
    out.extend_from_slice(MOVED)?;
    out.extend_from_slice(LEAST)?;
    if starts.is_empty() {
        out.push(b'\n')?;
        return Ok(());
    }
    out.extend_from_slice(GAINS)?;
    out.push(b'\n')?;
    Ok(())
}

/// Puts the line of the run with all wishes in the files' own order.
fn put_whole(out: &mut Vec<u8>, starts: &[u64], whole: &Outcome) -> Result<(), Memory>
    ensures { OnOk result (out.new.items ≡ out.old.items ++ whole_line starts.now whole.now) }
{
    out.extend_from_slice(b",,,,,,,,,,,")?;
    put_worth(out, whole, whole)?;
    out.extend_from_slice(b",,")?;
    put_degree(out, whole.least, whole.least)?;
    if starts.is_empty() {
        out.extend_from_slice(b",\n")?;
        return Ok(());
    }
    out.extend_from_slice(b",,,,,,,\n")?;
    Ok(())
}

/// The table, given the run with all wishes and the lines of the wishes in their order.
fn text_of(alloc: Global, starts: &[u64], whole: &Outcome, told: &[Told]) -> Result<Vec<u8>, Memory>
    ensures { IfOk result (λ text. text.items ≡ wishes_head starts.now
        ++ (whole_line starts.now whole.now ++ flat_map (λ t. t.line.items) told.now)) }
{
    let mut out = Vec::new(alloc);
    put_head(&mut out, starts)?;
    put_whole(&mut out, starts, whole)?;
    for one in told {
        out.extend_from_slice(one.line.as_slice())?;
    }
    Ok(out)
}

/// The table of all wishes, with the runs in at most so many threads at once.
fn table_of<T: Threads + Sync, L: RunOnlooker + Sync>(
    rt: &T,
    alloc: Global,
    threads: usize,
    onlooker: &L,
    asking: &Asking,
) -> Result<Vec<u8>, EngineFault>
    requires threads { 0 < threads }
    requires asking { IsAsking asking.now }
    ensures ok { IfOk result (λ text. AreWishes asking.now.rule asking.now.instruction.value
        asking.now.input.lists.items asking.now.starts.items text.items) }
    ensures stop { IfErr result (IsStop asking.now.input.lists.items) }
{
    let wishes = wishes_of(alloc, asking)?;
    onlooker.making(asking.number().saturating_mul(wishes.len() + 1));
    let whole = whole_in_parts(rt, alloc, threads, asking)?;
    onlooker.made(asking.number());
    let mut told = told_in_parts(
        rt,
        alloc,
        threads,
        onlooker,
        asking,
        &whole,
        wishes.as_slice(),
    )?;
    told.sort_by(by_worth)?;
    Ok(text_of(alloc, asking.starts.as_slice(), &whole.own, told.as_slice())?)
}

/// The table of all wishes, one run after the other.
fn table_one_by_one<L: RunOnlooker>(
    alloc: Global,
    onlooker: &L,
    asking: &Asking,
) -> Result<Vec<u8>, EngineFault>
    requires asking { IsAsking asking.now }
    ensures ok { IfOk result (λ text. AreWishes asking.now.rule asking.now.instruction.value
        asking.now.input.lists.items asking.now.starts.items text.items) }
    ensures stop { IfErr result (IsStop asking.now.input.lists.items) }
{
    let wishes = wishes_of(alloc, asking)?;
    onlooker.making(asking.number().saturating_mul(wishes.len() + 1));
    let whole = asking.runs(alloc, &asking.instruction)?;
    onlooker.made(asking.number());
    let mut told = told_of(alloc, asking, onlooker, &whole, wishes.as_slice())?;
    told.sort_by(by_worth)?;
    Ok(text_of(alloc, asking.starts.as_slice(), &whole.own, told.as_slice())?)
}

/// Finds what each wish costs over what files say, and writes it.
fn write_wishes<T: Threads + Sync, L: RunOnlooker + Sync, W: io::Write>(
    rt: &T,
    alloc: Global,
    task: &WishesTask<'_>,
    onlooker: &L,
    input: Input,
    out: &mut W,
) -> Result<(), EngineFault>
    requires few { length input.lists.items ≤ 64 }
    ensures { WritesText (AnswersOver input.lists.items (AreWishes task.now.rule
        (with_settings task.now.settings input.instruction) input.lists.items
        (starts_of task.now.draws input.lists.items)))
        (W.contents out.old) (W.contents out.new) result }
{
    let threads = number_of_threads(rt, task.threads);
    let asking = asking_of(alloc, input, task)?;
    let text = table_of(rt, alloc, threads, onlooker, &asking)?;
    write_text(out, text.as_slice())
}

/// [`write_wishes`], one run after the other.
fn write_one_by_one<L: RunOnlooker, W: io::Write>(
    alloc: Global,
    task: &WishesTask<'_>,
    onlooker: &L,
    input: Input,
    out: &mut W,
) -> Result<(), EngineFault>
    requires few { length input.lists.items ≤ 64 }
    ensures { WritesText (AnswersOver input.lists.items (AreWishes task.now.rule
        (with_settings task.now.settings input.instruction) input.lists.items
        (starts_of task.now.draws input.lists.items)))
        (W.contents out.old) (W.contents out.new) result }
{
    let asking = asking_of(alloc, input, task)?;
    let text = table_one_by_one(alloc, onlooker, &asking)?;
    write_text(out, text.as_slice())
}

/// Reads an instruction file, stem files and a file of targets, if there is one, and writes what each wish costs: a
/// line of columns, a line for the run with all wishes, and then a line for each class whose target isn't the share
/// that it has unsteered: the run with that target moved half way to that share, by the same rule. The greatest gain
/// comes first, and of equals the lower class; with draws by the sum of their gains. The faults are those of
/// [`run_trial`](buckfleet_trial::run_trial). Nothing is written before the whole table is there.
pub fn run_wishes<L: RunOnlooker, R: io::Read + Drop, W: io::Write>(
    alloc: Global,
    task: &WishesTask<'_>,
    onlooker: &L,
    files: Opened<R>,
    out: &mut W,
) -> Result<(), TermsFault>
    // What is written is the table of the wishes of the instruction and the stems that the files have, with the targets
    // of the file of targets: each line that of runs with its target moved, beside those with all wishes. A fault is
    // that of the first file that has one, or comes after all of them, and nothing is written; a write fault leaves a
    // prefix of the table.
    ensures { WritesTerms (AnswersWishes task.now.rule task.now.settings task.now.draws (R.remaining files.apt)
        (map R.remaining files.stms.items) (held_with R.remaining files.targets))
        (W.contents out.old) (W.contents out.new) result }
{
    let input = read_files(&OneThread, alloc, files)?;
    of_run(write_one_by_one(alloc, task, onlooker, input, out))
}

/// [`run_wishes`], whose runs are done in several threads at once, as those of
/// [`run_trial_in_parts`](buckfleet_trial::run_trial_in_parts).
pub fn run_wishes_in_parts<
    T: Threads + Sync,
    L: RunOnlooker + Sync,
    R: io::Read + Drop,
    W: io::Write,
>(
    rt: &T,
    alloc: Global,
    task: &WishesTask<'_>,
    onlooker: &L,
    files: Opened<R>,
    out: &mut W,
) -> Result<(), TermsFault>
    // As of [`run_wishes`].
    ensures { WritesTerms (AnswersWishes task.now.rule task.now.settings task.now.draws (R.remaining files.apt)
        (map R.remaining files.stms.items) (held_with R.remaining files.targets))
        (W.contents out.old) (W.contents out.new) result }
{
    let workers = SeveralThreads::of(rt, task.threads, onlooker);
    let input = read_files(&workers, alloc, files)?;
    of_run(write_wishes(rt, alloc, task, onlooker, input, out))
}
