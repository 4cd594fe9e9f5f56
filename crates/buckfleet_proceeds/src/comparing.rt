//! `run_compare`: from the bytes of an instruction and two journals to a comparison.
ghost use Rattle.std.specs.Prelude.{◌≡◌, ◌⊎◌, ◌<◌, ◌≤◌, IfErr, IfOk, OnOk, length, map};
ghost use Rattle.buck_record.specs.Reading.{listed};
ghost use Rattle.buck_apt_instruction.specs.Settings.{with_settings};
ghost use Rattle.buck_book_postings.specs.History.{IsLawful};
ghost use Rattle.buck_book_postings.specs.declared.posting.TheConstants.{MOST_POSTINGS};
ghost use Rattle.buck_book_journal.specs.declared.replay_fault.ReplayFault.{ReplayFault};
ghost use Rattle.buck_book_replay.specs.Replay.{IsFirstFault};
ghost use Rattle.buck_book_journal.specs.Journal.{history_of};
ghost use Rattle.buckfleet_engine_files.specs.declared.fault.EngineFault.TheVariants.{ReplayOf};
ghost use Rattle.buckfleet_engine_files.specs.Written.{WritesText};
ghost use Rattle.buckfleet_proceeds.specs.Serving.{AnswersCompare};

use crate::compared::{Run, comparison_text};
use buck_apt_instruction::{Instruction, Settings};
use buck_book_journal::{Journal, ReplayFault};
use buck_dp::Planner;
use buck_page_figures::{figures_of, grade_free_of};
use buck_record::Memory;
use buck_value::Sheet;
use buckfleet_engine_files::{EngineFault, Workers, read_several, write_text};
use buckfleet_tasks::CompareTask;
use std::alloc::Global;
use std::io;
use std::slice::from_ref;
use std::sync::Arc;

/// The instruction with a run's numbers in the place of its own.
fn instruction_with(
    alloc: Global,
    instruction: &Arc<Instruction>,
    settings: &Settings,
) -> Result<Arc<Instruction>, Memory>
    ensures { IfOk result (λ i. i.value ≡ with_settings settings.now instruction.now.value) }
{
    Ok(Arc::new(alloc, instruction.copy(alloc)?.with(settings))?)
}

/// That a journal is lawful for an instruction, else its first fault, with the journal's number.
fn check_one<T: Workers>(
    workers: &T,
    alloc: Global,
    instruction: &Arc<Instruction>,
    journal: &Journal,
    number: u32,
) -> Result<(), EngineFault>
    requires share { T.can_share }
    requires few { length journal.now.entries ≤ MOST_POSTINGS }
    ensures lawful { OnOk result (IsLawful (history_of instruction.now.value journal.now)) }
    ensures refused { IfErr result (λ e. (e ≡ EngineFault.Memory) ⊎ ((why : ReplayFault) × (e ≡ ReplayOf number why)
        × IsFirstFault (history_of instruction.now.value journal.now) why)) }
{
    match workers.replay(alloc, instruction, journal) {
        Ok(()) => Ok(()),
        Err(fault) => match fault {
            ReplayFault::Memory => Err(EngineFault::Memory),
            _ => Err(EngineFault::ReplayOf {
                journal: number,
                fault,
            }),
        },
    }
}

/// The figures of a lawful journal.
fn run_of<'a>(
    alloc: Global,
    instruction: &'a Arc<Instruction>,
    journal: &'a Journal,
) -> Result<Run<'a>, Memory>
    requires few { length journal.now.entries ≤ MOST_POSTINGS }
    requires lawful { IsLawful (history_of instruction.now.value journal.now) }
    ensures { IfOk result (λ run. run.figures.instruction.now ≡ instruction.now.value) }
{
    let base = Sheet::base(alloc, instruction.clone()?)?;
    let mut planner = Planner::make(alloc, Arc::new(alloc, base)?)?;
    let figures = figures_of(alloc, &mut planner, instruction, from_ref(journal))?;
    let free = grade_free_of(alloc, &figures)?;
    Ok(Run { figures, free })
}

/// The text of a comparison of two journals, each lawful for an instruction. The instructions have as many assortments.
fn text_of(
    alloc: Global,
    first: &Arc<Instruction>,
    one: &Journal,
    second: &Arc<Instruction>,
    other: &Journal,
) -> Result<Vec<u8>, Memory>
    requires few { (length one.now.entries ≤ MOST_POSTINGS) × (length other.now.entries ≤ MOST_POSTINGS) }
    requires one { IsLawful (history_of first.now.value one.now) }
    requires other { IsLawful (history_of second.now.value other.now) }
    requires same { length second.now.value.assortments ≡ length first.now.value.assortments }
{
    let one = run_of(alloc, first, one)?;
    let other = run_of(alloc, second, other)?;
    comparison_text(alloc, &one, &other)
}

/// The text of a comparison over files, or why there is none.
#[tactic(auto, using(crate::proofs::Answered::compared))]
fn answer_of<T: Workers, R: io::Read>(
    workers: &T,
    alloc: Global,
    task: &CompareTask<'_>,
    apt: &mut R,
    journals: &mut [R],
) -> Result<Vec<u8>, EngineFault>
    requires share { T.can_share }
    requires two { length journals.old ≡ 2 }
    ensures { AnswersCompare task.now (R.remaining apt.old) (map R.remaining journals.old) (listed result) }
{
    let several = read_several(workers, alloc, apt, journals, &Settings::own())?;
    let one = &several.journals[0];
    let other = &several.journals[1];
    let first = instruction_with(alloc, &several.instruction, &task.first)?;
    let second = instruction_with(alloc, &several.instruction, &task.second)?;
    check_one(workers, alloc, &first, one, 1)?;
    check_one(workers, alloc, &second, other, 2)?;
    Ok(text_of(alloc, &first, one, &second, other)?)
}

/// Reads an instruction file and two journals, and writes their figures side by side: a line for each figure. Nothing
/// is written before the whole text is there.
///
/// The files are read, and refused, as by [`read_several`](buckfleet_engine_files::read_several). Then each journal is
/// replayed with numbers of its own in the place of the instruction's; the first that isn't lawful is `ReplayOf`.
/// `Write` if the writer fails, which leaves a prefix of the text, and `Memory` if an allocation failed.
#[tactic(auto, using(crate::proofs::Stopped::texts))]
pub fn run_compare<T: Workers, R: io::Read, W: io::Write>(
    workers: &T,
    alloc: Global,
    task: &CompareTask<'_>,
    apt: &mut R,
    journals: &mut [R],
    out: &mut W,
) -> Result<(), EngineFault>
    requires share { T.can_share }
    requires two { length journals.old ≡ 2 }
    ensures { WritesText (AnswersCompare task.now (R.remaining apt.old) (map R.remaining journals.old))
        (W.contents out.old) (W.contents out.new) result }
{
    let text = answer_of(workers, alloc, task, apt, journals)?;
    write_text(out, text.as_slice())
}
