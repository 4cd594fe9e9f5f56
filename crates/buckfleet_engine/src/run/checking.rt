//! `run_check`: a check of a journal by its instruction.
ghost use Rattle.std.specs.Prelude.{◌≡◌, ◌≢◌, OnOk, IfOk, IfErr};
ghost use Rattle.buck_record.specs.Reading.{listed};
ghost use Rattle.buck_book_postings.specs.History.{IsLawful};
ghost use Rattle.buck_book_journal.specs.Journal.{history_of};
ghost use Rattle.buck_book_replay.specs.Replay.{IsFirstFault};
ghost use Rattle.buckfleet_engine_files.specs.declared.fault.EngineFault.TheVariants.{Write};
ghost use Rattle.buckfleet_engine.specs.run.Checking.{AnswersCheck, AnswersReplay};
ghost use Rattle.buckfleet_engine_files.specs.Checking.{IsLawfulLine};
ghost use Rattle.buckfleet_engine_files.specs.Reading.{IfStopped};
ghost use Rattle.buckfleet_engine_files.specs.Written.{WritesText};

use buck_book_journal::ReplayFault;
use buckfleet_engine_files::{
    Both, EngineFault, lawful_text, read_own, replay_both, unlawful, write_text,
};
use std::alloc::Global;
use std::io;

/// The line of a journal, by what came of its replay.
fn text_of_both(
    alloc: Global,
    both: &Both,
    replayed: Result<(), ReplayFault>,
) -> Result<Vec<u8>, EngineFault>
    requires lawful { OnOk replayed (IsLawful (history_of both.now.instruction.value both.now.journal)) }
    requires refused { IfErr replayed (λ why.
        why ≢ ReplayFault.Memory → IsFirstFault (history_of both.now.instruction.value both.now.journal) why) }
    ensures { AnswersReplay IsLawfulLine both.now.instruction.value both.now.journal (listed result) }
{
    match replayed {
        Ok(()) => Ok(lawful_text(alloc, both.journal.entries.len())?),
        Err(why) => Err(unlawful(why)),
    }
}

/// The line of the journal of a file that is lawful for the instruction of another.
fn text_of_check<R: io::Read>(
    alloc: Global,
    apt: &mut R,
    journal: &mut R,
) -> Result<Vec<u8>, EngineFault>
    ensures answer { AnswersCheck (R.remaining apt.old) (R.remaining journal.old) (listed result) }
    ensures order { IfErr result (IfStopped (λ last. last ≡ 0 → journal.new ≡ journal.old)) }
{
    let both = read_own(alloc, apt, journal)?;
    text_of_both(alloc, &both, replay_both(alloc, &both))
}

/// Reads an instruction file and then a journal, and writes `LAWFUL` with the number of postings if the journal is
/// lawful for the instruction: each cutting is one that none outvalues under the prices then in force, and these move
/// only by the price relation.
///
/// The instruction file is file 0 and the journal is file 1. The instruction file is refused, if it must be, before
/// the journal is read. `Read` comes if a reader fails or a file is longer than 67,108,864 bytes, `Apt` and
/// `Journal` if the bytes of a file are refused, `Replay` with the first fault of a journal that isn't lawful, `Write`
/// if the writer fails, which leaves a prefix of the text, and `Memory` if an allocation failed.
pub fn run_check<R: io::Read, W: io::Write>(
    alloc: Global,
    apt: &mut R,
    journal: &mut R,
    writer: &mut W,
) -> Result<(), EngineFault>
    // The line of a journal is written that is lawful for the instruction; a fault is that of the first file that has
    // one, or the first of the journal, and nothing is written; a write fault leaves a prefix of the line.
    ensures run { WritesText (AnswersCheck (R.remaining apt.old) (R.remaining journal.old))
        (W.contents writer.old) (W.contents writer.new) result }
    // If the instruction file has a fault, nothing was read of the journal.
    ensures order { IfErr result (IfStopped (λ last. last ≡ 0 → journal.new ≡ journal.old)) }
    // Only a failed write touches the writer.
    ensures untouched { IfErr result (λ fault. fault ≢ Write → writer.new ≡ writer.old) }
{
    let text = text_of_check(alloc, apt, journal)?;
    write_text(writer, text.as_slice())
}
