//! The run of a combination: its journal, and its line.
ghost use Rattle.std.specs.Prelude.{◌≡◌, ◌<◌, ◌≤◌, IfOk, IfErr, length, map};
ghost use Rattle.buck_book_postings.specs.History.{IsLawful};
ghost use Rattle.buck_book_journal.specs.Journal.{history_of};
ghost use Rattle.buckfleet_engine_input.specs.Harvest.{AreFirsts};
ghost use Rattle.buckfleet_trial_sweep.specs.Runs.{HasCut, IsRunLine, IsStop};
ghost use Rattle.buckfleet_trial_sweep.specs.inner.Lines.{IsPart};
ghost use Rattle.buck_book_postings.specs.declared.posting.TheConstants.{MOST_POSTINGS};

use crate::figures::line_of;
use buck_apt_instruction::Instruction;
use buck_book_journal::Journal;
use buck_book_postings::{Book, CutFault};
use buck_fleet_round_robin::cut_in_turn;
use buck_record::Memory;
use buck_rule::{NamedRule, Rule, Standing};
use buck_stem_shape::Stem;
use buck_value::Sheet;
use buckfleet_engine_files::EngineFault;
use buckfleet_engine_input::Input;
use buckfleet_tasks::Combination;
use std::alloc::Global;
use std::sync::Arc;
use std::thread;
use std::thread::Threads;

/// The prices of some sheets.
fn prices_of(alloc: Global, sheets: &[Arc<Sheet>]) -> Result<Vec<Vec<u32>>, Memory>
    ensures { IfOk result (λ made. map (λ w. w.items) made.items ≡ map (λ a. a.value.prices) sheets.now) }
{
    let mut made = Vec::with_capacity(alloc, sheets.len())?;
    for sheet in sheets {
        made.push(sheet.prices().to_vec(alloc)?)?;
    }
    Ok(made)
}

/// The journal of a book.
fn journal_of<F: Drop>(alloc: Global, book: Book<F>) -> Result<Journal, Memory>
    ensures history { IfOk result (λ j. history_of book.history.instruction j ≡ book.history) }
    ensures lawful { IsLawful book.history }
    ensures few { length book.history.postings ≤ MOST_POSTINGS }
    ensures firsts { AreFirsts book.history }
{
    let parts = book.into_parts();
    let sheets = prices_of(alloc, parts.sheets())?;
    Ok(Journal {
        sheets,
        entries: parts.into_entries(),
    })
}

/// The journal of lists of stems that were cut in turn by the rule of a name.
fn cut_by_name(
    alloc: Global,
    instruction: &Arc<Instruction>,
    named: NamedRule,
    lists: &[Vec<Arc<Stem>>],
) -> Result<Journal, EngineFault>
    requires few { length lists.now ≤ 64 }
    ensures ok { IfOk result (λ j. HasCut named lists.now (history_of instruction.now.value j)) }
    ensures stop { IfErr result (IsStop lists.now) }
{
    let rule = Rule::new(move |s: &Standing| named.price(s));
    match cut_in_turn(alloc, instruction.clone()?, rule, lists) {
        Ok(book) => Ok(journal_of(alloc, book)?),
        Err(CutFault::Full) => Err(EngineFault::Full),
        Err(CutFault::Memory) => Err(EngineFault::Memory),
    }
}

/// The line of a combination, whose run cuts the lists in turn; see [`run_sweep`](crate::run_sweep). Refused as `Full`
/// if there are more stems than 1,000,000, and as `Memory` if an allocation failed.
pub fn run_line(
    alloc: Global,
    input: &Input,
    combination: &Combination,
) -> Result<Vec<u8>, EngineFault>
    requires few { length input.now.lists.items ≤ 64 }
    ensures ok { IfOk result (λ line.
        IsRunLine input.now.instruction input.now.lists.items combination.now line.items) }
    ensures stop { IfErr result (IsStop input.now.lists.items) }
{
    let own = input.instruction.copy(alloc)?;
    let instruction = Arc::new(alloc, own.with(&combination.settings))?;
    let lists = input.lists.as_slice();
    let journal = cut_by_name(alloc, &instruction, combination.rule, lists)?;
    Ok(line_of(alloc, combination.rule, &instruction, &journal)?)
}

/// The lines of combinations, in their order.
pub(crate) fn lines_of(
    alloc: Global,
    input: &Input,
    combinations: &[Combination],
) -> Result<Vec<u8>, EngineFault>
    requires few { length input.now.lists.items ≤ 64 }
    ensures { IsPart input.now.instruction input.now.lists.items combinations.now result }
{
    let mut text = Vec::new(alloc);
    for combination in combinations {
        let line = run_line(alloc, input, combination)?;
        text.extend_from_slice(line.as_slice())?;
    }
    Ok(text)
}

/// The lines of combinations, in their order, each run of so many neighbours made in a thread of its own.
pub(crate) fn lines_in_parts<T: Threads + Sync>(
    rt: &T,
    alloc: Global,
    input: &Input,
    combinations: &[Combination],
    size: usize,
) -> Result<Vec<u8>, EngineFault>
    requires few { length input.now.lists.items ≤ 64 }
    requires size { 0 < size }
    ensures { IsPart input.now.instruction input.now.lists.items combinations.now result }
{
    let make = |_: usize, part: &[Combination]| -> Result<Vec<u8>, EngineFault>
        requires { length input.now.lists.items ≤ 64 }
        ensures { IsPart input.entry.now.instruction input.entry.now.lists.items part.now result }
    { lines_of(alloc, input, part) };
    let parts = thread::map_chunks(rt, alloc, combinations, size, &make)?;
    let mut text = Vec::new(alloc);
    for k in 0..parts.len() {
        match &parts[k] {
            Ok(lines) => text.extend_from_slice(lines.as_slice())?,
            Err(fault) => return Err(*fault),
        }
    }
    Ok(text)
}
