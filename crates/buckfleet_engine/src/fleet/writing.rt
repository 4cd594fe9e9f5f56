//! The writing of a history's journal and report.
ghost use Rattle.std.specs.Prelude.{◌≡◌, ◌≢◌, IfOk, IfErr};
ghost use Rattle.buck_book_journal.specs.Written.{journal_text};
ghost use Rattle.buckfleet_engine_files.specs.declared.fault.EngineFault.TheVariants.{Write};
ghost use Rattle.buckfleet_engine_files.specs.Lent.{no_writer, of_made, of_writer};
ghost use Rattle.buckfleet_engine.specs.inner.Fleet.{AreWritten};

use buck_book_postings::Parts;
use buck_book_writer::journal_text;
use buck_record::Memory;
use buckfleet_engine_files::{EngineFault, write_text};
use buckfleet_engine_text::report_of;
use std::alloc::Global;
use std::io;

/// Writes the report of a history.
pub(crate) fn write_report<W: io::Write>(
    alloc: Global,
    history: &Parts,
    out: &mut W,
) -> Result<(), EngineFault>
    ensures written { AreWritten history.now no_writer (W.contents out.old) (W.contents out.new) result }
    ensures untouched { IfErr result (λ fault. fault ≢ Write → out.new ≡ out.old) }
{
    let report = report_of(alloc, history)?;
    write_text(out, report.as_slice())
}

/// The text of a history's journal.
fn text_of_journal(alloc: Global, history: &Parts) -> Result<Vec<u8>, Memory>
    ensures { IfOk result (λ text. text.items ≡ journal_text history.now.sheets history.now.postings) }
{
    journal_text(alloc, history.sheets(), history.entries())
}

/// Writes the journal of a history, and then its report. Both texts are there before the first byte is written.
#[tactic(auto, using(crate::proofs::Harvests::texts))]
pub(crate) fn write_journal_and_report<J: io::Write, W: io::Write>(
    alloc: Global,
    history: &Parts,
    journal: &mut J,
    out: &mut W,
) -> Result<(), EngineFault>
    ensures written { AreWritten history.now (of_writer (J.contents journal.old) (J.contents journal.new))
        (W.contents out.old) (W.contents out.new) result }
    ensures untouched { IfErr result (λ fault. fault ≢ Write → out.new ≡ out.old) }
{
    let text = text_of_journal(alloc, history)?;
    let report = report_of(alloc, history)?;
    match write_text(journal, text.as_slice()) {
        Ok(()) => write_text(out, report.as_slice()),
        Err(fault) => Err(fault),
    }
}

/// Writes the journal of a history into the file that was made for it, if there is one, and then its report.
pub(crate) fn write_made<J: io::Write + Drop, W: io::Write>(
    alloc: Global,
    history: &Parts,
    journal: Option<J>,
    out: &mut W,
) -> Result<(), EngineFault>
    ensures { of_made J.contents journal
        (λ kept. AreWritten history.now kept (W.contents out.old) (W.contents out.new) result) }
{
    match journal {
        None => write_report(alloc, history, out),
        Some(mut journal) => write_journal_and_report(alloc, history, &mut journal, out),
    }
}
