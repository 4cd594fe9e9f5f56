//! Requests, one after the other, each answered before the next is read.
ghost use Rattle.std.specs.Prelude.{◌≡◌, ◌<◌, IfOk, vec_capacity};
ghost use Rattle.buck_rule.specs.Stored.{Answers};
ghost use Rattle.buck_book_postings.specs.Book.{IsBook};
ghost use Rattle.buck_book_journal.specs.Written.{journal_text};
ghost use Rattle.buck_book_cutter.specs.Cut.{StaysByRule, opening};
ghost use Rattle.buckfleet_live.specs.Lines.{longest_line};
ghost use Rattle.buckfleet_live.specs.Live.{IsLiveRun};
ghost use Rattle.buckfleet_live.specs.inner.Answering.{told};
ghost use Rattle.buckfleet_live.specs.inner.Running.{IsSaid};

use crate::answering::answer;
use crate::lines::{LONGEST, read_bytes};
use crate::replies::Replies;
use buck_apt_instruction::Instruction;
use buck_book_cutter::Cutter;
use buck_book_postings::MOST_POSTINGS;
use buck_record::Memory;
use buck_rule::{Rule, Standing};
use buckfleet_engine_files::{EngineFault, write_fault, write_text};
use std::alloc::Global;
use std::io;
use std::marker::Model;
use std::sync::Arc;

/// A book of one thread that answers requests as they come. Its history is lawful at every moment.
#[derive(Drop)]
pub struct Live<F> {
    cutter: Cutter<F>,
    line: Vec<u8>,
}

impl<F> Model for Live<F> {
    ghost use Rattle.std.specs.Prelude.{◌≡◌, ◌<◌, vec_capacity};
    ghost use Rattle.buck_book_postings.specs.Book.{BookParts};
    ghost use Rattle.buck_book_postings.specs.declared.posting.TheConstants.{MOST_POSTINGS};
    ghost use Rattle.buckfleet_live.specs.Lines.{longest_line};

    ghost Value = { BookParts F };

    ghost view = { λ l. l.cutter };

    ghost invariant = { λ l. (longest_line < vec_capacity l.line) × (l.cutter.capacity ≡ MOST_POSTINGS) };
}

/// Writes an answer: a text, or the line of a fault.
fn put<W: io::Write>(out: &mut W, answer: &Result<Vec<u8>, EngineFault>) -> Result<(), EngineFault>
    ensures { IsSaid (W.contents out.old) (W.contents out.new) (told answer.now) result }
{
    match answer {
        Ok(text) => write_text(out, text.as_slice()),
        Err(fault) => {
            if write_fault(out, fault) {
                Ok(())
            } else {
                Err(EngineFault::Write)
            }
        }
    }
}

/// Tells of a line and its answer, and then writes that, so that nothing of it waits in a buffer.
fn say<W: Replies>(
    out: &mut W,
    line: &[u8],
    instruction: &Instruction,
    answer: &Result<Vec<u8>, EngineFault>,
) -> Result<(), EngineFault>
    ensures { IsSaid (W.contents out.old) (W.contents out.new) (told answer.now) result }
{
    let few = line.len().min(LONGEST);
    out.hear(&line[..few], line.len() == few, instruction, answer);
    put(out, answer)?;
    match out.flush() {
        Ok(()) => Ok(()),
        Err(_) => Err(EngineFault::Write),
    }
}

/// Reads all lines and answers each before it reads the next.
#[tactic(auto, using(buck_book_cutter::proofs::Adding::as_before))]
fn answer_all<F: Fn(&Standing) -> u64 + Drop, R: io::Read, W: Replies>(
    alloc: Global,
    cutter: &mut Cutter<F>,
    line: &mut Vec<u8>,
    input: &mut R,
    out: &mut W,
) -> Result<(), EngineFault>
    requires answers { Answers F.Fn cutter.old.rule }
    requires capacity { cutter.old.capacity ≡ MOST_POSTINGS }
    requires room { longest_line < vec_capacity line.old }
    ensures rule { cutter.new.rule ≡ cutter.old.rule }
    ensures capacity { cutter.new.capacity ≡ cutter.old.capacity }
    ensures room { vec_capacity line.new ≡ vec_capacity line.old }
    ensures run { IsLiveRun cutter.old.history (R.remaining input.old)
        (W.contents out.old) (W.contents out.new) result cutter.new.history }
    ensures given { StaysByRule F.Fn cutter.old cutter.new }
{
    'requests: for _ in 0..u64::MAX {
        let Ok(fed) = read_bytes(input, line) else {
            return Err(EngineFault::Read { file: 1 });
        };
        let held = line.as_slice();
        let answer = answer(alloc, cutter, held, fed);
        match say(out, held, cutter.book().instruction(), &answer) {
            Err(fault) => return Err(fault),
            Ok(()) => {
                if !fed {
                    return Ok(());
                }
            }
        }
    }
    Err(EngineFault::Read { file: 1 })
}

impl<F: Fn(&Standing) -> u64 + Drop> Live<F> {
    /// A book with no posting and the base sheet in force. Refused as `Memory` alone.
    pub fn open(
        alloc: Global,
        instruction: Arc<Instruction>,
        rule: Rule<F>,
    ) -> Result<Live<F>, Memory>
        ensures rule { IfOk result (λ l. l.rule ≡ rule) }
        ensures history { IfOk result (λ l. l.history ≡ opening instruction.value) }
    {
        let cutter = Cutter::open(alloc, instruction, rule, MOST_POSTINGS)?;
        // All at once: if it grew with the line, a request could fail for memory.
        let line = Vec::with_capacity(alloc, LONGEST + 1)?;
        Ok(Live { cutter, line })
    }

    /// Reads requests, one a line, and answers each before it reads the next: no byte of the input is asked for while
    /// an answer isn't written and flushed. The input is read byte by byte; a slow one is to be buffered. It goes on to
    /// the end of the input, whatever is refused. The output hears of each line and its answer before that is written.
    ///
    /// `Read` with the number 1 comes if the input can't be read, and `Write` if an answer can't be written; what
    /// was cut before stands, and so does what an answer says that wasn't written.
    pub fn run<R: io::Read, W: Replies>(
        &mut self,
        alloc: Global,
        input: &mut R,
        out: &mut W,
    ) -> Result<(), EngineFault>
        requires answers { Answers F.Fn self.old.rule }
        ensures rule { self.new.rule ≡ self.old.rule }
        // The history is lawful, and each cutting the first of the best under the sheet of its place.
        ensures kept { IsBook self.new }
        // Each line has its answer, by the history that came of those before it; a fault comes after the first lines.
        ensures run { IsLiveRun self.old.history (R.remaining input.old)
            (W.contents out.old) (W.contents out.new) result self.new.history }
        // The prices that come into force are answers that the closure can give to how the classes then stand.
        ensures given { StaysByRule F.Fn self.old self.new }
    {
        let ran = answer_all(alloc, &mut self.cutter, &mut self.line, input, out);
        let _kept = self.cutter.book().len();
        ran
    }
}

impl<F: Drop> Live<F> {
    /// The journal of all postings so far. Refused as `Memory` alone.
    pub fn journal(&self, alloc: Global) -> Result<Vec<u8>, Memory>
        ensures { IfOk result (λ text.
            text.items ≡ journal_text self.now.history.sheets self.now.history.postings) }
    {
        self.cutter.journal(alloc)
    }
}
