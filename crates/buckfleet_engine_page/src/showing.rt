//! Whole runs that show journals, from their task to the exit status.
ghost use Rattle.std.specs.Prelude.{◌≡◌, ◌≢◌, ◌<◌, ◌≤◌, OnOk, IfErr, length, map};
ghost use Rattle.std.specs.Io.KnownBytes.{Keeps};
ghost use Rattle.buck_book_journal.specs.Several.{postings_of};
ghost use Rattle.buckfleet_engine_files.specs.Several.{AreLawful, IsFirstUnlawful, replay_fault};
ghost use Rattle.buckfleet_engine_page.specs.Several.{HavePage};
ghost use Rattle.buckfleet_engine_page.specs.Viewing.{AppendsPage, AppendsTable};
ghost use Rattle.buckfleet_engine_page.specs.inner.Several.{ShowsAll, ShowsUnlawful};
ghost use Rattle.buck_book_postings.specs.declared.posting.TheConstants.{MOST_POSTINGS};
ghost use Rattle.buckfleet_engine_files.specs.Reading.{apt_with};
ghost use Rattle.buckfleet_engine_page.specs.Showing.{RunsView, Shows};

use crate::viewing::{page_of, table_in, write_page, write_table};
use buck_book_journal::ReplayFault;
use buck_page::{Files, fault_page};
use buck_page_tables::Table;
use buck_record::Memory;
use buckfleet_engine_files::{
    Among, EngineFault, FirstUnlawful as Unlawful, Journals as Several, Onlooker, Open,
    SeveralThreads, Workers, open_inputs, read_several, replay_several, unlawful_among,
};
use buckfleet_tasks::{Shown, ViewTask};
use std::alloc::Global;
use std::io;
use std::thread::Threads;

/// The names of the files of a task, as a page has them.
fn names_of<'a>(alloc: Global, task: &ViewTask<'a>) -> Result<Vec<&'a [u8]>, Memory> {
    let mut names = Vec::new(alloc);
    for name in task.journals.as_slice() {
        names.push(name.as_bytes())?;
    }
    Ok(names)
}

/// Writes the page of the first fault of a journal that isn't lawful; the answer is that fault, or why none is written.
fn write_unlawful<W: io::Write>(
    alloc: Global,
    several: &Several,
    unlawful: Unlawful,
    files: &Files<'_>,
    writer: &mut W,
) -> EngineFault
    requires number { length several.now.journals.items ≤ 64 }
    requires within { unlawful.place < length several.now.journals.items }
    ensures { ShowsUnlawful (AppendsPage (W.contents writer.old) (W.contents writer.new))
        (replay_fault (length several.now.journals.items) unlawful.place unlawful.fault)
        (W.contents writer.old) (W.contents writer.new) result }
{
    let Unlawful { place, fault } = unlawful;
    let journal = &several.journals[place];
    let postings = journal.entries.as_slice();
    let text = fault_page(alloc, &several.instruction, postings, &fault, files, place);
    let number = several.journals.len();
    match write_page(writer, text) {
        Ok(()) => unlawful_among(Among { place, number }, fault),
        Err(fault) => fault,
    }
}

/// The page of some lawful journals, or of the first fault of the first that isn't.
#[tactic(auto, using(crate::proofs::Several::pages))]
fn show_page<W: io::Write>(
    alloc: Global,
    task: &ViewTask<'_>,
    several: &Several,
    replayed: Result<(), Unlawful>,
    writer: &mut W,
) -> Result<(), EngineFault>
    requires number { (0 < length several.now.journals.items) × (length several.now.journals.items ≤ 64) }
    requires few { length (postings_of several.now.journals.items) ≤ MOST_POSTINGS }
    requires lawful { OnOk replayed (AreLawful several.now.instruction.value several.now.journals.items) }
    requires within { IfErr replayed (λ u. u.place < length several.now.journals.items) }
    requires refused { IfErr replayed (λ u. u.fault ≢ ReplayFault.Memory
        → IsFirstUnlawful several.now.instruction.value several.now.journals.items u.place u.fault) }
    ensures { ShowsAll HavePage (AppendsPage (W.contents writer.old) (W.contents writer.new))
        (AppendsPage (W.contents writer.old) (W.contents writer.new)) several.now.instruction.value
        several.now.journals.items (W.contents writer.old) (W.contents writer.new) result }
{
    let names = names_of(alloc, task)?;
    let files = Files {
        instruction: task.apt.as_bytes(),
        journals: names.as_slice(),
    };
    let journals = several.journals.as_slice();
    match replayed {
        Ok(()) => write_page(
            writer,
            page_of(alloc, &several.instruction, journals, &files),
        ),
        Err(unlawful) => match unlawful.fault {
            ReplayFault::Memory => Err(EngineFault::Memory),
            _ => Err(write_unlawful(alloc, several, unlawful, &files, writer)),
        },
    }
}

/// A table of some lawful journals.
#[tactic(auto, using(crate::proofs::Several::tables))]
fn show_table<W: io::Write>(
    alloc: Global,
    several: &Several,
    replayed: Result<(), Unlawful>,
    table: Table,
    writer: &mut W,
) -> Result<(), EngineFault>
    requires number { (0 < length several.now.journals.items) × (length several.now.journals.items ≤ 64) }
    requires few { length (postings_of several.now.journals.items) ≤ MOST_POSTINGS }
    requires lawful { OnOk replayed (AreLawful several.now.instruction.value several.now.journals.items) }
    requires within { IfErr replayed (λ u. u.place < length several.now.journals.items) }
    requires refused { IfErr replayed (λ u. u.fault ≢ ReplayFault.Memory
        → IsFirstUnlawful several.now.instruction.value several.now.journals.items u.place u.fault) }
    ensures { ShowsAll AreLawful (AppendsTable (W.contents writer.old) (W.contents writer.new))
        (Keeps (W.contents writer.old) (W.contents writer.new)) several.now.instruction.value
        several.now.journals.items (W.contents writer.old) (W.contents writer.new) result }
{
    let journals = several.journals.as_slice();
    match replayed {
        Ok(()) => write_table(
            writer,
            table_in(alloc, &several.instruction, journals, table),
        ),
        Err(Unlawful { place, fault }) => match fault {
            ReplayFault::Memory => Err(EngineFault::Memory),
            _ => {
                let number = journals.len();
                Err(unlawful_among(Among { place, number }, fault))
            }
        },
    }
}

/// Shows what the task asks for, over the files that are open.
#[tactic(auto, using(crate::proofs::Several::shown))]
fn show_opened<T: Workers, R: io::Read, W: io::Write>(
    workers: &T,
    alloc: Global,
    task: &ViewTask<'_>,
    apt: &mut R,
    files: &mut [R],
    writer: &mut W,
) -> Result<(), EngineFault>
    requires share { T.can_share }
    requires number { (0 < length files.old) × (length files.old ≤ 64) }
    ensures { Shows (apt_with task.now.settings) task.now.shown (R.remaining apt.old) (map R.remaining files.old)
        (W.contents writer.old) (W.contents writer.new) result }
{
    let several = read_several(workers, alloc, apt, files, &task.settings)?;
    let replayed = replay_several(workers, alloc, &several);
    match task.shown {
        Shown::Page => show_page(alloc, task, &several, replayed, writer),
        Shown::Table(table) => show_table(alloc, &several, replayed, table, writer),
    }
}

/// Shows what the task asks for, of journals that are each replayed by itself in several threads at once. The onlooker
/// is shown the instruction.
///
/// The instruction file is opened and then the journals in their order, before one of them is read; one that can't be
/// opened is `Read` with its number. All are read before one is replayed, and the first that is refused, or else the
/// first that isn't lawful, is the fault, with its number if there are several; of one journal each fault and what
/// is written before it are those of [`run_view`](crate::run_view) and [`run_table`](crate::run_table). `Full` if
/// the journals have more than 1,000,000 postings together. The instruction is read, and refused, by its own numbers;
/// then those of the task take their place.
pub fn serve_view<T: Threads + Sync, L: Onlooker, O: Open, W: io::Write>(
    rt: &T,
    alloc: Global,
    task: &ViewTask<'_>,
    onlooker: &L,
    opener: &mut O,
    writer: &mut W,
) -> Result<(), EngineFault>
    ensures { RunsView O.opens O.File.remaining opener.old opener.new task.now
        (W.contents writer.old) (W.contents writer.new) result }
{
    let journals = task.journals.as_slice();
    let (mut instruction, mut files) = open_inputs(alloc, opener, task.apt, journals)?;
    show_opened(
        &SeveralThreads::of(rt, task.threads, onlooker),
        alloc,
        task,
        &mut instruction,
        files.as_mut_slice(),
        writer,
    )
}
