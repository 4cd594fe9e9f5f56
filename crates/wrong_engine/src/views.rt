//! Wrong bodies of what shows a journal.
ghost use Rattle.std.specs.Prelude.{◌≡◌, ◌≢◌, ◌+◌, ◌<◌, [], ◌∷◌, IfSome, None, Ok, length, slice_index_or};
ghost use Rattle.buck_apt_instruction.specs.Instruction.{InstructionParts};
ghost use Rattle.buck_apt.specs.Apt.{apt_of};
ghost use Rattle.buck_apt_instruction.specs.Settings.{own_numbers};
ghost use Rattle.buck_book_postings.specs.History.{IsLawful};
ghost use Rattle.buck_book_journal.specs.Journal.{JournalParts, history_of};
ghost use Rattle.buck_book_journal.specs.Reading.{journal_of};
ghost use Rattle.buckfleet_engine_files.specs.Reading.{apt_with};

use crate::opened::Missing;
use buckfleet_engine::{Settings, conclude};
use buckfleet_engine_files::{EngineFault, Nobody, Open};
use buckfleet_engine_page::{Files, Shown, Table, ViewTask, run_table, run_view, serve_view};
use std::alloc::Global;
use std::io;
use std::thread::Threads;

/// Takes all that is written, and counts the calls.
#[derive(Drop)]
pub(crate) struct Calls {
    pub(crate) number: u64,
}

impl io::Write for Calls {
    fn write(&mut self, buf: &[u8]) -> io::Result<usize> {
        self.number = self.number.saturating_add(1);
        Ok(buf.len())
    }

    fn flush(&mut self) -> io::Result<()> {
        Ok(())
    }
}

/// A journal that isn't lawful is shown as one that is.
pub fn page_of_an_unlawful_journal<'x>(
    alloc: Global,
    apt: &'x [u8],
    journal: &'x [u8],
    files: &Files<'_>,
    out: &mut Vec<u8>,
)
    requires unlawful { (i : InstructionParts) (j : JournalParts) → apt_of apt.now ≡ Ok i → journal_of journal.now ≡ Ok j
        → ¬ IsLawful (history_of i j) }
{
    let mut instruction = apt;
    let mut postings = journal;
    let right = run_view(alloc, &mut instruction, &mut postings, files, out);
    let is_refused = right.is_err();
    prove!(is_refused);
}

/// A table is made of a journal that isn't lawful.
pub fn table_of_an_unlawful_journal<'x>(
    alloc: Global,
    apt: &'x [u8],
    journal: &'x [u8],
    table: Table,
    out: &mut Vec<u8>,
)
    requires unlawful { (i : InstructionParts) (j : JournalParts) → apt_of apt.now ≡ Ok i → journal_of journal.now ≡ Ok j
        → ¬ IsLawful (history_of i j) }
{
    let mut instruction = apt;
    let mut postings = journal;
    let right = run_table(alloc, &mut instruction, &mut postings, table, out);
    let is_refused = right.is_err();
    prove!(is_refused);
}

/// Lines of a table are written before the first fault of the journal is found.
pub fn table_written_before_the_fault<'x>(
    alloc: Global,
    apt: &'x [u8],
    journal: &'x [u8],
    table: Table,
) {
    let mut instruction = apt;
    let mut postings = journal;
    let mut out = Vec::new(alloc);
    let outcome = run_table(alloc, &mut instruction, &mut postings, table, &mut out);
    let is_wrong = !out.is_empty() && matches!(outcome, Err(EngineFault::Replay(_)));
    prove!(!is_wrong);
}

/// The writer is called before the first fault of the journal is found, though with nothing to write.
pub fn table_calls_the_writer_before_the_fault<'x>(
    alloc: Global,
    apt: &'x [u8],
    journal: &'x [u8],
    table: Table,
) {
    let mut instruction = apt;
    let mut postings = journal;
    let mut out = Calls { number: 0 };
    let outcome = run_table(alloc, &mut instruction, &mut postings, table, &mut out);
    let is_wrong = out.number != 0 && matches!(outcome, Err(EngineFault::Replay(_)));
    prove!(!is_wrong);
}

/// A failed write of a page is reported, though the journal is refused and there is no page.
pub fn write_fault_without_a_page<'x, W: io::Write>(
    alloc: Global,
    apt: &'x [u8],
    journal: &'x [u8],
    files: &Files<'_>,
    out: &mut W,
)
    requires refused { (j : JournalParts) → journal_of journal.now ≢ Ok j }
{
    let mut instruction = apt;
    let mut postings = journal;
    let outcome = run_view(alloc, &mut instruction, &mut postings, files, out);
    let is_write = outcome == Err(EngineFault::Write);
    prove!(!is_write);
}

/// A failed write of a table is reported, though the journal isn't lawful and there is no table.
pub fn write_fault_without_a_table<'x, W: io::Write>(
    alloc: Global,
    apt: &'x [u8],
    journal: &'x [u8],
    table: Table,
    out: &mut W,
)
    requires unlawful { (i : InstructionParts) (j : JournalParts) → apt_of apt.now ≡ Ok i → journal_of journal.now ≡ Ok j
        → ¬ IsLawful (history_of i j) }
{
    let mut instruction = apt;
    let mut postings = journal;
    let outcome = run_table(alloc, &mut instruction, &mut postings, table, out);
    let is_write = outcome == Err(EngineFault::Write);
    prove!(!is_write);
}

/// The head of a page is written before there is memory for the rest.
pub fn page_written_before_it_is_whole<'x>(
    alloc: Global,
    apt: &'x [u8],
    journal: &'x [u8],
    files: &Files<'_>,
) {
    let mut instruction = apt;
    let mut postings = journal;
    let mut out = Vec::new(alloc);
    let outcome = run_view(alloc, &mut instruction, &mut postings, files, &mut out);
    let is_wrong = !out.is_empty() && matches!(outcome, Err(EngineFault::Memory));
    prove!(!is_wrong);
}

/// A task over two journals.
fn two_journals(alloc: Global, shown: Shown) -> Option<ViewTask<'static>>
    ensures names { IfSome result (λ task. length task.journals.items ≡ 2) }
    ensures shown { IfSome result (λ task. task.shown ≡ shown) }
    ensures settings { IfSome result (λ task. task.settings ≡ own_numbers) }
{
    let mut journals = Vec::new(alloc);
    let Ok(()) = journals.push("monday.jrn") else {
        return None;
    };
    let Ok(()) = journals.push("tuesday.jrn") else {
        return None;
    };
    Some(ViewTask {
        apt: "pine.apt",
        journals,
        shown,
        settings: Settings::own(),
        threads: Some(2),
    })
}

/// A journal is opened first, in the place of the instruction file.
pub fn view_files_swapped<T: Threads + Sync>(rt: &T, alloc: Global, output: &mut Vec<u8>) {
    let mut journals = Vec::new(alloc);
    let Ok(()) = journals.push("stems.jrn") else {
        return;
    };
    let task = ViewTask {
        apt: "pine.apt",
        journals,
        shown: Shown::Page,
        settings: Settings::own(),
        threads: Some(2),
    };
    let mut files = Missing { asked: 0 };
    let _ = serve_view(rt, alloc, &task, &Nobody, &mut files, output);
    let right = files.asked;
    let wrong = "stems.jrn".len();
    prove!(right != wrong);
}

/// Opens an empty file for so many names, and nothing for others.
#[derive(Drop)]
struct Firsts {
    left: u8,
}

impl Open for Firsts {
    type File = &'static [u8];

    ghost opens = { λ old name file new. (old.left ≡ 0 → file ≡ None)
        × (0 < old.left → (file ≢ None) × (new.left + 1 ≡ old.left)) };

    fn open(&mut self, _name: &str) -> Option<&'static [u8]> {
        if self.left == 0 {
            return None;
        }
        self.left -= 1;
        Some(&[])
    }
}

/// A second journal that is missing is reported as the first.
pub fn second_journal_missing_told_as_the_first<T: Threads + Sync>(
    rt: &T,
    alloc: Global,
    output: &mut Vec<u8>,
) {
    let Some(task) = two_journals(alloc, Shown::Page) else {
        return;
    };
    let mut files = Firsts { left: 2 };
    let mut errors = Vec::new(alloc);
    let outcome = serve_view(rt, alloc, &task, &Nobody, &mut files, output);
    let _ = conclude(&mut errors, &outcome);
    let wrong = b"read fault 1\n".as_slice();
    prove!(errors.as_slice() != wrong);
}

/// Lines of a table of two journals are written before the first fault is found.
pub fn table_of_two_written_before_the_fault<T: Threads + Sync, O: Open>(
    rt: &T,
    alloc: Global,
    files: &mut O,
    errors: &mut Vec<u8>,
) {
    let Some(task) = two_journals(alloc, Shown::Table(Table::Logs)) else {
        return;
    };
    let mut output = Vec::new(alloc);
    let outcome = serve_view(rt, alloc, &task, &Nobody, files, &mut output);
    if conclude(errors, &outcome) == 4 {
        let is_unwritten = output.is_empty();
        prove!(is_unwritten);
    }
}

/// Has three files, and gives one after the other.
#[derive(Drop)]
struct Three<'x> {
    given: u8,
    apt: &'x [u8],
    first: &'x [u8],
    second: &'x [u8],
}

impl<'x> Open for Three<'x> {
    type File = &'x [u8];

    ghost opens = { λ old name file new. IfSome file (λ f.
        (f.now ≡ slice_index_or (old.apt.now ∷ old.first.now ∷ old.second.now ∷ []) old.given [])
        × (new.given ≡ old.given + 1)
        × (new.apt.now ∷ new.first.now ∷ new.second.now ∷ [] ≡ old.apt.now ∷ old.first.now ∷ old.second.now ∷ [])) };

    fn open(&mut self, _name: &str) -> Option<&'x [u8]> {
        let file = match self.given {
            0 => self.apt,
            1 => self.first,
            2 => self.second,
            _ => return None,
        };
        self.given += 1;
        Some(file)
    }
}

/// The page of two journals is written as that of lawful ones, though the second isn't lawful.
pub fn second_journal_not_replayed<'x, T: Threads + Sync>(
    rt: &T,
    alloc: Global,
    apt: &'x [u8],
    first: &'x [u8],
    second: &'x [u8],
    output: &mut Vec<u8>,
    errors: &mut Vec<u8>,
)
    requires unlawful { (i : InstructionParts) (j : JournalParts) → apt_with own_numbers apt.now ≡ Ok i
        → journal_of second.now ≡ Ok j → ¬ IsLawful (history_of i j) }
{
    let Some(task) = two_journals(alloc, Shown::Page) else {
        return;
    };
    let mut files = Three {
        given: 0,
        apt,
        first,
        second,
    };
    let outcome = serve_view(rt, alloc, &task, &Nobody, &mut files, output);
    let right = conclude(errors, &outcome);
    let wrong = 0;
    prove!(right != wrong);
}

/// There is a task of 65 journals.
pub fn journals_65_accepted(task: &ViewTask<'_>) {
    let right = task.journals.len();
    let wrong = 65;
    prove!(right != wrong);
}
