//! Whole runs of requests.
ghost use Rattle.std.specs.Prelude.{◌≡◌, ℕ, IfErr, IfOk, List, Ok, Option};
ghost use Rattle.buck_apt.specs.Apt.{apt_of};
ghost use Rattle.buckfleet_engine_files.specs.declared.fault.EngineFault.{EngineFault};
ghost use Rattle.buckfleet_engine_files.specs.Reading.{Says};
ghost use Rattle.buckfleet_engine_files.specs.Lent.{of_made, of_writer};
ghost use Rattle.buck_book_cutter.specs.Cut.{opening};
ghost use Rattle.buckfleet_live.specs.Serving.{AnswersLive, KeepsJournal, RunsLive};

use crate::live::Live;
use crate::replies::Replies;
use buck_apt_instruction::Instruction;
use buck_rule::{Rule, Standing};
use buck_stem_shape::Stem;
use buckfleet_engine_files::{
    EngineFault, Make, Onlooker, Open, make_journal, open_inputs, read_instruction, write_text,
};
use buckfleet_tasks::LiveTask;
use std::alloc::Global;
use std::io;
use std::sync::Arc;

fn write_journal<F: Drop, J: io::Write>(
    alloc: Global,
    live: &Live<F>,
    journal: &mut J,
) -> Result<(), EngineFault>
    ensures { KeepsJournal (of_writer (J.contents journal.old) (J.contents journal.new)) live.now.history result }
{
    let text = live.journal(alloc)?;
    write_text(journal, text.as_slice())
}

/// Writes the journal of a book into the file that was made for it, if there is one.
fn keep_journal<F: Drop, J: io::Write + Drop>(
    alloc: Global,
    live: &Live<F>,
    journal: Option<J>,
) -> Result<(), EngineFault>
    ensures { of_made J.contents journal (λ kept. KeepsJournal kept live.now.history result) }
{
    match journal {
        None => Ok(()),
        Some(mut journal) => write_journal(alloc, live, &mut journal),
    }
}

/// A book of an instruction with no posting. Refused as `Memory` alone.
fn opened<F: Fn(&Standing) -> u64 + Drop>(
    alloc: Global,
    instruction: Instruction,
    rule: Rule<F>,
) -> Result<Live<F>, EngineFault>
    ensures rule { IfOk result (λ l. l.rule ≡ rule) }
    ensures history { IfOk result (λ l. l.history ≡ opening instruction) }
    ensures refused { IfErr result (λ e. e ≡ EngineFault.Memory) }
{
    let instruction = Arc::new(alloc, instruction)?;
    Ok(Live::open(alloc, instruction, rule)?)
}

/// Answers requests by a book of the instruction that a file has and by the task's rule, and then writes its journal,
/// if one is wanted, however that ended.
fn live_made<R: io::Read, J: io::Write + Drop, W: Replies>(
    alloc: Global,
    task: &LiveTask<'_>,
    own: Instruction,
    input: &mut R,
    journal: Option<J>,
    out: &mut W,
) -> Result<(), EngineFault>
    ensures { (apt : Option (List ℕ)) → Says apt_of apt (Ok own) → of_made J.contents journal (λ kept.
        AnswersLive task.now apt (R.remaining input.old) (input.new ≡ input.old) kept
        (W.contents out.old) (W.contents out.new) result) }
{
    let instruction = own.with(&task.settings);
    let named = task.rule;
    let rule = Rule::new(move |s: &Standing| named.price(s));
    let mut live = opened(alloc, instruction, rule)?;
    let ran = live.run(alloc, input, out);
    let kept = keep_journal(alloc, &live, journal);
    kept.and(ran)
}

/// Answers the requests of the input, one a line, each before the next is read.
///
/// The instruction file is opened, then the file of the journal is made, if one is wanted, and then the instruction
/// is read, with the numbers of the task in the place of its own. Faults until then are those of
/// [`read_instruction`]; nothing is read of the input then. The onlooker is shown the instruction. After the last
/// request, or if the input can't be read or an answer can't be written, the journal of all that was cut is written.
/// The output hears of each line and its answer before that is written.
pub fn serve_live<L: Onlooker, R: io::Read, O: Open + Make, W: Replies>(
    alloc: Global,
    task: &LiveTask<'_>,
    onlooker: &L,
    input: &mut R,
    opener: &mut O,
    out: &mut W,
) -> Result<(), EngineFault>
    ensures { RunsLive O.opens O.makes O.File.remaining O.Made.contents opener.old opener.new task.now
        (R.remaining input.old) (input.new ≡ input.old) (W.contents out.old) (W.contents out.new) result }
{
    let (mut apt, _) = open_inputs(alloc, opener, task.apt, &[])?;
    let journal = make_journal(opener, task.journal)?;
    let own = read_instruction(alloc, &mut apt)?;
    onlooker.read::<Stem>(&own, &[]);
    live_made(alloc, task, own, input, journal, out)
}
