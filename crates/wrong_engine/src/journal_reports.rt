//! Wrong bodies of the report of a journal.
ghost use Rattle.std.specs.Prelude.{◌≡◌, ◌≢◌, List, ℕ, Ok};
ghost use Rattle.buck_apt_instruction.specs.Instruction.{InstructionParts};
ghost use Rattle.buck_apt.specs.Apt.{apt_of};
ghost use Rattle.buck_book_postings.specs.History.{IsLawful};
ghost use Rattle.buck_book_journal.specs.Journal.{JournalParts, history_of};
ghost use Rattle.buck_book_journal.specs.Reading.{journal_of};
ghost use Rattle.buckfleet_engine_text.specs.Report.{ending_of, report_of};

use crate::opened::Missing;
use buckfleet_engine::{Settings, Task, run_report, serve};
use buckfleet_engine_files::{EngineFault, Nobody};
use std::alloc::Global;

/// The report of a journal is written that isn't lawful.
pub fn report_of_an_unlawful_journal<'x>(
    alloc: Global,
    apt: &'x [u8],
    journal: &'x [u8],
    out: &mut Vec<u8>,
)
    requires unlawful { (i : InstructionParts) (j : JournalParts) → apt_of apt.now ≡ Ok i → journal_of journal.now ≡ Ok j
        → ¬ IsLawful (history_of i j) }
{
    let mut instruction = apt;
    let mut postings = journal;
    let right = run_report(alloc, &mut instruction, &mut postings, out);
    let is_refused = right.is_err();
    prove!(is_refused);
}

/// The report is that of another history: no report of what the journal has is so.
pub fn report_of_another_history<'x>(alloc: Global, apt: &'x [u8], journal: &'x [u8], wrong: &[u8])
    requires differ { (i : InstructionParts) (j : JournalParts) (counts : List ℕ) → apt_of apt.now ≡ Ok i
        → journal_of journal.now ≡ Ok j
        → let h = history_of i j in wrong.now ≢ report_of h.postings (ending_of h counts) }
{
    let mut instruction = apt;
    let mut postings = journal;
    let mut right = Vec::new(alloc);
    let outcome = run_report(alloc, &mut instruction, &mut postings, &mut right);
    if outcome.is_ok() {
        prove!(right.as_slice() != wrong);
    }
}

/// Something is written of a journal that isn't lawful, before its first fault is found.
pub fn report_written_before_the_fault<'x>(alloc: Global, apt: &'x [u8], journal: &'x [u8]) {
    let mut instruction = apt;
    let mut postings = journal;
    let mut out = Vec::new(alloc);
    let outcome = run_report(alloc, &mut instruction, &mut postings, &mut out);
    let is_wrong = !out.is_empty() && matches!(outcome, Err(EngineFault::Replay(_)));
    prove!(!is_wrong);
}

/// The journal is opened first, in the place of the instruction file.
pub fn report_files_swapped(alloc: Global, output: &mut Vec<u8>) {
    let task = Task::Report {
        apt: "pine.apt",
        journal: "stems.jrn",
        settings: Settings::own(),
    };
    let mut input = b"".as_slice();
    let mut files = Missing { asked: 0 };
    let _ = serve(alloc, &task, &Nobody, &mut input, &mut files, output);
    let right = files.asked;
    let wrong = "stems.jrn".len();
    prove!(right != wrong);
}
