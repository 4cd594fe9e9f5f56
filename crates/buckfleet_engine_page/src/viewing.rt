//! A journal shown: as the page that a mill opens, or as a table for a spreadsheet.
ghost use Rattle.std.specs.Prelude.{◌≡◌, ◌≢◌, ◌<◌, ◌≤◌, All, length, OnOk, IfOk, IfErr};
ghost use Rattle.std.specs.Io.KnownBytes.{Keeps};
ghost use Rattle.buck_apt.specs.Apt.{apt_of};
ghost use Rattle.buck_book_postings.specs.History.{IsLawful};
ghost use Rattle.buck_page_figures.specs.Figures.{base_sheet};
ghost use Rattle.buck_book_journal.specs.Several.{postings_of};
ghost use Rattle.buck_book_journal.specs.Journal.{history_of};
ghost use Rattle.buck_book_replay.specs.Replay.{IsFirstFault};
ghost use Rattle.buckfleet_engine_files.specs.declared.fault.EngineFault.TheVariants.{Write};
ghost use Rattle.buckfleet_engine_files.specs.Reading.{IfStopped};
ghost use Rattle.buckfleet_engine_page.specs.Viewing.{AppendsPage, AppendsTable, HasPage, ShowsPage, ShowsTable};
ghost use Rattle.buckfleet_engine_page.specs.inner.View.{ShowsFault, ShowsHistory, WritesAs};
ghost use Rattle.buck_book_postings.specs.declared.posting.TheConstants.{MOST_POSTINGS};

use buck_apt_instruction::Instruction;
use buck_book_journal::{Journal, ReplayFault};
use buck_dp::Planner;
use buck_page::{Files, fault_page, page};
use buck_page_figures::figures_of;
use buck_page_tables::{Table, table_of};
use buck_record::Memory;
use buck_value::Sheet;
use buckfleet_engine_files::{Both, EngineFault, read_own, replay_both, unlawful, write_text};
use std::alloc::Global;
use std::io;
use std::slice::from_ref;
use std::sync::Arc;

/// A planner at base prices.
fn base_planner(alloc: Global, instruction: &Arc<Instruction>) -> Result<Planner, Memory>
    ensures { IfOk result (λ planner. planner ≡ base_sheet instruction.now.value) }
{
    let base = Sheet::base(alloc, instruction.clone()?)?;
    Ok(Planner::make(alloc, Arc::new(alloc, base)?)?)
}

/// The page of lawful journals.
pub(crate) fn page_of(
    alloc: Global,
    instruction: &Arc<Instruction>,
    journals: &[Journal],
    files: &Files<'_>,
) -> Result<String, Memory>
    requires some { 0 < length journals.now }
    requires few { length (postings_of journals.now) ≤ MOST_POSTINGS }
    requires lawful { All (λ j. IsLawful (history_of instruction.now.value j)) journals.now }
{
    let mut planner = base_planner(alloc, instruction)?;
    let figures = figures_of(alloc, &mut planner, instruction, journals)?;
    page(alloc, &figures, &mut planner, files)
}

/// A table of lawful journals.
pub(crate) fn table_in(
    alloc: Global,
    instruction: &Arc<Instruction>,
    journals: &[Journal],
    table: Table,
) -> Result<Vec<u8>, Memory>
    requires some { 0 < length journals.now }
    requires few { length (postings_of journals.now) ≤ MOST_POSTINGS }
    requires lawful { All (λ j. IsLawful (history_of instruction.now.value j)) journals.now }
{
    let mut planner = base_planner(alloc, instruction)?;
    let figures = figures_of(alloc, &mut planner, instruction, journals)?;
    table_of(alloc, &figures, &mut planner, table)
}

/// Writes a page, once all of it is there.
#[tactic(auto, using(crate::proofs::Pages::page_written))]
pub(crate) fn write_page<W: io::Write>(
    writer: &mut W,
    page: Result<String, Memory>,
) -> Result<(), EngineFault>
    ensures { WritesAs (AppendsPage (W.contents writer.old) (W.contents writer.new)) (W.contents writer.old) (W.contents writer.new) result }
{
    let text = page?;
    write_text(writer, text.as_str().as_bytes())
}

/// Writes the page of the first fault of a journal that isn't lawful; the answer is that fault, or why it isn't written.
fn write_fault_page<W: io::Write>(
    alloc: Global,
    both: &Both,
    fault: ReplayFault,
    files: &Files<'_>,
    writer: &mut W,
) -> EngineFault
    ensures { ShowsFault (AppendsPage (W.contents writer.old) (W.contents writer.new)) fault (W.contents writer.old) (W.contents writer.new) result }
{
    let postings = both.journal.entries.as_slice();
    let text = fault_page(alloc, &both.instruction, postings, &fault, files, 0);
    match write_page(writer, text) {
        Ok(()) => EngineFault::Replay(fault),
        Err(fault) => fault,
    }
}

/// Writes the page of a journal, by what came of its replay: if it isn't lawful, that of its first fault.
#[tactic(auto, using(crate::proofs::Pages::histories))]
pub(crate) fn show_both<W: io::Write>(
    alloc: Global,
    both: &Both,
    replayed: Result<(), ReplayFault>,
    files: &Files<'_>,
    writer: &mut W,
) -> Result<(), EngineFault>
    requires few { length both.now.journal.entries ≤ MOST_POSTINGS }
    requires lawful { OnOk replayed (IsLawful (history_of both.now.instruction.value both.now.journal)) }
    requires refused { IfErr replayed (λ why.
        why ≢ ReplayFault.Memory → IsFirstFault (history_of both.now.instruction.value both.now.journal) why) }
    ensures { ShowsHistory HasPage (AppendsPage (W.contents writer.old) (W.contents writer.new)) (AppendsPage (W.contents writer.old) (W.contents writer.new))
        (history_of both.now.instruction.value both.now.journal) (W.contents writer.old) (W.contents writer.new) result }
{
    match replayed {
        Ok(()) => {
            let text = page_of(alloc, &both.instruction, from_ref(&both.journal), files);
            write_page(writer, text)
        }
        Err(ReplayFault::Memory) => Err(EngineFault::Memory),
        Err(fault) => Err(write_fault_page(alloc, both, fault, files, writer)),
    }
}

/// Reads an instruction file and then a journal, and writes the page of the journal, in which the files are named so.
/// If the journal isn't lawful for the instruction, it writes the page of its first fault, and the answer is
/// `Replay` with that fault. Nothing is written before the whole page is there.
///
/// The files are read, and refused, as by `run_check`.
#[tactic(auto, using(crate::proofs::Pages::shown))]
pub fn run_view<R: io::Read, W: io::Write>(
    alloc: Global,
    apt: &mut R,
    journal: &mut R,
    files: &Files<'_>,
    writer: &mut W,
) -> Result<(), EngineFault>
    // A page is written of a lawful journal, or the page of its first fault; if a file has a fault nothing is
    // written; if the output can't be written, some first bytes of such a page may be.
    ensures run { ShowsPage apt_of (R.remaining apt.old) (R.remaining journal.old)
        (W.contents writer.old) (W.contents writer.new) result }
    // If the instruction file has a fault, nothing was read of the journal.
    ensures order { IfErr result (IfStopped (λ last. last ≡ 0 → journal.new ≡ journal.old)) }
{
    let both = read_own(alloc, apt, journal)?;
    let replayed = replay_both(alloc, &both);
    show_both(alloc, &both, replayed, files, writer)
}

/// Writes a table, once all of it is there.
#[tactic(auto, using(crate::proofs::Pages::table_written))]
pub(crate) fn write_table<W: io::Write>(
    writer: &mut W,
    table: Result<Vec<u8>, Memory>,
) -> Result<(), EngineFault>
    ensures written { WritesAs (AppendsTable (W.contents writer.old) (W.contents writer.new)) (W.contents writer.old) (W.contents writer.new) result }
    ensures untouched { IfErr result (λ fault. fault ≢ Write → writer.new ≡ writer.old) }
{
    let text = table?;
    write_text(writer, text.as_slice())
}

/// Writes a table of a journal, by what came of its replay: if it is lawful.
#[tactic(auto, using(crate::proofs::Pages::lists))]
pub(crate) fn list_both<W: io::Write>(
    alloc: Global,
    both: &Both,
    replayed: Result<(), ReplayFault>,
    table: Table,
    writer: &mut W,
) -> Result<(), EngineFault>
    requires few { length both.now.journal.entries ≤ MOST_POSTINGS }
    requires lawful { OnOk replayed (IsLawful (history_of both.now.instruction.value both.now.journal)) }
    requires refused { IfErr replayed (λ why.
        why ≢ ReplayFault.Memory → IsFirstFault (history_of both.now.instruction.value both.now.journal) why) }
    ensures shown { ShowsHistory IsLawful (AppendsTable (W.contents writer.old) (W.contents writer.new)) (Keeps (W.contents writer.old) (W.contents writer.new))
        (history_of both.now.instruction.value both.now.journal) (W.contents writer.old) (W.contents writer.new) result }
    ensures untouched { IfErr result (λ fault. fault ≢ Write → writer.new ≡ writer.old) }
{
    match replayed {
        Ok(()) => {
            let text = table_in(alloc, &both.instruction, from_ref(&both.journal), table);
            write_table(writer, text)
        }
        Err(why) => Err(unlawful(why)),
    }
}

/// Reads an instruction file and then a journal, and writes a table of the journal, if it is lawful for the
/// instruction. Nothing is written before the whole table is there.
///
/// The files are read, and refused, as by `run_check`.
#[tactic(auto, using(crate::proofs::Pages::shown))]
pub fn run_table<R: io::Read, W: io::Write>(
    alloc: Global,
    apt: &mut R,
    journal: &mut R,
    table: Table,
    writer: &mut W,
) -> Result<(), EngineFault>
    // A table is written of a lawful journal; a fault is that of the first file that has one, or the first of the
    // journal, and nothing is written; if the output can't be written, some first bytes of it may be.
    ensures run { ShowsTable apt_of (R.remaining apt.old) (R.remaining journal.old)
        (W.contents writer.old) (W.contents writer.new) result }
    // If the instruction file has a fault, nothing was read of the journal.
    ensures order { IfErr result (IfStopped (λ last. last ≡ 0 → journal.new ≡ journal.old)) }
    // Only a failed write touches the writer.
    ensures untouched { IfErr result (λ fault. fault ≢ Write → writer.new ≡ writer.old) }
{
    let both = read_own(alloc, apt, journal)?;
    let replayed = replay_both(alloc, &both);
    list_both(alloc, &both, replayed, table, writer)
}
