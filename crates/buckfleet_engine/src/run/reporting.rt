//! The report of a journal.
ghost use Rattle.std.specs.Prelude.{◌≡◌, ◌≢◌, ◌≤◌, length, IfOk, IfErr};
ghost use Rattle.buck_record.specs.Reading.{listed};
ghost use Rattle.buck_book_postings.specs.Walk.{walk_of};
ghost use Rattle.buck_book_postings.specs.History.{IsLawful, in_force};
ghost use Rattle.buck_apt_instruction.specs.Instruction.{classes};
ghost use Rattle.buck_book_journal.specs.Journal.{history_of};
ghost use Rattle.buckfleet_engine_files.specs.declared.fault.EngineFault.TheVariants.{Write};
ghost use Rattle.buckfleet_engine.specs.run.Checking.{AnswersJournal, AnswersReplay, AnswersReport, IsJournalReport};
ghost use Rattle.buckfleet_engine_files.specs.Reading.{IfStopped, apt_with};
ghost use Rattle.buckfleet_engine_files.specs.Written.{WritesText};
ghost use Rattle.buck_book_postings.specs.declared.posting.TheConstants.{MOST_POSTINGS};

use buck_apt_instruction::{Instruction, Settings};
use buck_book_journal::{Journal, ReplayFault};
use buck_book_postings::Walk;
use buck_book_replay::replay_to_end;
use buck_stem_shape::Stem;
use buckfleet_engine_files::{
    EngineFault, Nobody, OneThread, Onlooker, read_instruction_with, read_postings, write_text,
};
use buckfleet_engine_text::{Ending, TextFault, report_with};
use std::alloc::Global;
use std::io;
use std::sync::Arc;

/// The prices of the last sheet of a lawful journal, all of which was passed.
fn prices_in<'j>(instruction: &Instruction, journal: &'j Journal, walk: &Walk<'_>) -> &'j [u32]
    requires passed { walk.now ≡ walk_of instruction.now journal.now.entries (length journal.now.entries) }
    requires lawful { IsLawful (history_of instruction.now journal.now) }
    ensures { result.now ≡ (in_force (history_of instruction.now journal.now)).prices }
{
    journal.sheets[walk.version() as usize].as_slice()
}

/// The prices of the last sheet of a lawful journal, one for each class.
fn last_prices<'j>(instruction: &Instruction, journal: &'j Journal, walk: &Walk<'_>) -> &'j [u32]
    requires passed { walk.now ≡ walk_of instruction.now journal.now.entries (length journal.now.entries) }
    requires lawful { IsLawful (history_of instruction.now journal.now) }
    ensures prices { result.now ≡ (in_force (history_of instruction.now journal.now)).prices }
    ensures number { length result.now ≡ classes instruction.now }
{
    let _valid = instruction.assortments();
    prices_in(instruction, journal, walk)
}

/// The report of a lawful journal, all of which was passed.
fn report_at_end(
    alloc: Global,
    instruction: &Instruction,
    journal: &Journal,
    walk: &Walk<'_>,
) -> Result<Vec<u8>, TextFault>
    requires passed { walk.now ≡ walk_of instruction.now journal.now.entries (length journal.now.entries) }
    requires lawful { IsLawful (history_of instruction.now journal.now) }
    ensures { IfOk result (λ text. IsJournalReport instruction.now journal.now text.items) }
{
    let ending = Ending {
        instruction,
        targets: walk.targets(),
        counts: walk.counts(),
        prices: last_prices(instruction, journal, walk),
    };
    report_with(alloc, &ending, journal.entries.as_slice())
}

/// The report of a journal that is lawful for an instruction, or its first fault.
fn text_of_replay(
    alloc: Global,
    instruction: &Arc<Instruction>,
    journal: &Journal,
) -> Result<Vec<u8>, EngineFault>
    requires { length journal.now.entries ≤ MOST_POSTINGS }
    ensures { AnswersReplay IsJournalReport instruction.now.value journal.now (listed result) }
{
    match replay_to_end(alloc, instruction, journal) {
        Ok(walk) => Ok(report_at_end(alloc, instruction, journal, &walk)?),
        Err(ReplayFault::Memory) => Err(EngineFault::Memory),
        Err(fault) => Err(EngineFault::Replay(fault)),
    }
}

/// The report of the journal of a file that is lawful for the instruction of another, with a run's numbers in the place
/// of its own. An onlooker is shown the instruction.
fn text_of_report<L: Onlooker, R: io::Read>(
    alloc: Global,
    onlooker: &L,
    apt: &mut R,
    journal: &mut R,
    settings: &Settings,
) -> Result<Vec<u8>, EngineFault>
    ensures answer { AnswersJournal (apt_with settings.now) IsJournalReport (R.remaining apt.old)
        (R.remaining journal.old) (listed result) }
    ensures order { IfErr result (IfStopped (λ last. last ≡ 0 → journal.new ≡ journal.old)) }
{
    let instruction = Arc::new(alloc, read_instruction_with(alloc, apt, settings)?)?;
    onlooker.read::<Stem>(&instruction, &[]);
    let postings = read_postings(&OneThread, alloc, journal)?;
    text_of_replay(alloc, &instruction, &postings)
}

/// [`text_of_report`] by the instruction's own numbers.
fn text_of_own_report<R: io::Read>(
    alloc: Global,
    apt: &mut R,
    journal: &mut R,
) -> Result<Vec<u8>, EngineFault>
    ensures answer { AnswersReport (R.remaining apt.old) (R.remaining journal.old) (listed result) }
    ensures order { IfErr result (IfStopped (λ last. last ≡ 0 → journal.new ≡ journal.old)) }
{
    text_of_report(alloc, &Nobody, apt, journal, &Settings::own())
}

/// Reads an instruction file and then a journal, as [`run_check`](crate::run_check) does, and writes the report of the
/// journal's history if that is lawful, as the fleet printed it that wrote the journal; see
/// [`report_of`](buckfleet_engine_text::report_of). Each fault is that of [`run_check`](crate::run_check).
pub fn run_report<R: io::Read, W: io::Write>(
    alloc: Global,
    apt: &mut R,
    journal: &mut R,
    writer: &mut W,
) -> Result<(), EngineFault>
    // The report of a journal is written that is lawful for the instruction; a fault is that of the first file that has
    // one, or the first of the journal, and nothing is written; a write fault leaves a prefix of the report.
    ensures run { WritesText (AnswersReport (R.remaining apt.old) (R.remaining journal.old))
        (W.contents writer.old) (W.contents writer.new) result }
    // If the instruction file has a fault, nothing was read of the journal.
    ensures order { IfErr result (IfStopped (λ last. last ≡ 0 → journal.new ≡ journal.old)) }
    // Only a failed write touches the writer.
    ensures untouched { IfErr result (λ fault. fault ≢ Write → writer.new ≡ writer.old) }
{
    let text = text_of_own_report(alloc, apt, journal)?;
    write_text(writer, text.as_slice())
}

/// [`run_report`] with a run's numbers in the place of the instruction's own. An onlooker is shown the instruction.
pub(crate) fn run_report_with<L: Onlooker, R: io::Read, W: io::Write>(
    alloc: Global,
    onlooker: &L,
    apt: &mut R,
    journal: &mut R,
    settings: &Settings,
    writer: &mut W,
) -> Result<(), EngineFault>
    ensures { WritesText
        (AnswersJournal (apt_with settings.now) IsJournalReport (R.remaining apt.old) (R.remaining journal.old))
        (W.contents writer.old) (W.contents writer.new) result }
{
    let text = text_of_report(alloc, onlooker, apt, journal, settings)?;
    write_text(writer, text.as_slice())
}
