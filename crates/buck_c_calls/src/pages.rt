//! The calls that C makes to show a journal: as a page, and as tables.
ghost use Rattle.std.specs.Prelude.{◌≡◌, ◌≤◌, ◌↔◌, Some, IfOk, IfErr, IsSome};
ghost use Rattle.buckfleet_engine_files.specs.Checking.{IsReadFault};
ghost use Rattle.buck_c_calls.specs.Room.{IsPut};
ghost use Rattle.buck_c_calls.specs.Pages.{IsListed, IsOfLawful, IsPage, IsTableFault, IsViewed};

use crate::book::{DONE, MISUSED};
use crate::room::put;
use crate::telling::put_fault;
use buckfleet_engine_files::{EngineFault, status};
use buckfleet_engine_page::{Files, Table, run_table, run_view};
use std::alloc::Global;

/// The names of two files, which stand before and after a line feed.
fn names_of(names: &[u8]) -> (&[u8], &[u8]) {
    match names.iter().position(|byte| *byte == b'\n') {
        Some(at) => (&names[..at], &names[at + 1..]),
        None => (names, &[]),
    }
}

/// The page of a lawful journal, or of the first fault of another, with its status.
#[tactic(auto, using(crate::proofs::Paged::read_fault, crate::proofs::Paged::a_page))]
fn page_of<'x>(
    alloc: Global,
    apt: &'x [u8],
    journal: &'x [u8],
    files: &Files<'_>,
) -> Result<(Vec<u8>, u8), EngineFault>
    ensures page { IfOk result (λ page. IsPage apt.now journal.now page.0.items page.1) }
    ensures refused { IfErr result (IsReadFault (Some apt.now) (Some journal.now)) }
{
    let mut apt = apt;
    let mut journal = journal;
    let mut text = Vec::new(alloc);
    match run_view(alloc, &mut apt, &mut journal, files, &mut text) {
        Ok(()) => Ok((text, DONE)),
        Err(EngineFault::Replay(why)) => Ok((text, status(&EngineFault::Replay(why)))),
        // A list takes each text, unless an allocation fails.
        Err(EngineFault::Write) => Err(EngineFault::Memory),
        Err(fault) => Err(fault),
    }
}

/// The table of a number.
fn table_of(number: u8) -> Option<Table>
    ensures { IsSome result ↔ number ≤ 5 }
{
    match number {
        0 => Some(Table::Classes),
        1 => Some(Table::Postings),
        2 => Some(Table::Logs),
        3 => Some(Table::Degrees),
        4 => Some(Table::Assortments),
        5 => Some(Table::Lacking),
        _ => None,
    }
}

/// A table of a lawful journal.
#[tactic(auto, using(crate::proofs::Paged::table_fault))]
fn listed<'x>(
    alloc: Global,
    apt: &'x [u8],
    journal: &'x [u8],
    table: Table,
) -> Result<Vec<u8>, EngineFault>
    ensures lawful { IfOk result (λ _. IsOfLawful apt.now journal.now) }
    ensures refused { IfErr result (IsTableFault (Some apt.now) (Some journal.now)) }
{
    let mut apt = apt;
    let mut journal = journal;
    let mut text = Vec::new(alloc);
    match run_table(alloc, &mut apt, &mut journal, table, &mut text) {
        Ok(()) => Ok(text),
        // A list takes each text, unless an allocation fails.
        Err(EngineFault::Write) => Err(EngineFault::Memory),
        Err(fault) => Err(fault),
    }
}

/// Shows a journal, as the program's `view` does: the page of a lawful journal, or of the first fault of another, or
/// the line of a fault, goes to the start of `out`, and its length to `written`. `names` are the two files' names, as
/// they stand on the page: the instruction's, a line feed, the journal's. The answer is the program's exit status, or
/// 6 if `out` is too small: then nothing else is written.
pub fn buckfleet_view(
    alloc: Global,
    apt: &[u8],
    journal: &[u8],
    names: &[u8],
    out: &mut [u8],
    written: &mut usize,
) -> u8
    ensures { IsPut (IsViewed apt.now journal.now) out.old out.new written.new result }
{
    let (instruction, name) = names_of(names);
    let journals = [name];
    let files = Files {
        instruction,
        journals: journals.as_slice(),
    };
    match page_of(alloc, apt, journal, &files) {
        Ok((page, status)) => put(page.as_slice(), status, out, written),
        Err(fault) => put_fault(alloc, &fault, out, written),
    }
}

/// Lists a journal as a table, as the program's `table` does: its classes (0), its postings (1), its logs (2), its
/// degrees (3), its assortments (4) or the classes that lack logs (5). The table of a lawful journal, or the line of a
/// fault, goes to the start of `out`, and its length to `written`. The answer is the program's exit status, 6 if
/// `out` is too small, or 8 if there is no such table: then no text is put.
pub fn buckfleet_table(
    alloc: Global,
    apt: &[u8],
    journal: &[u8],
    table: u8,
    out: &mut [u8],
    written: &mut usize,
) -> u8
    ensures { IsPut (IsListed table apt.now journal.now) out.old out.new written.new result }
{
    let Some(table) = table_of(table) else {
        return put(&[], MISUSED, out, written);
    };
    match listed(alloc, apt, journal, table) {
        Ok(text) => put(text.as_slice(), DONE, out, written),
        Err(fault) => put_fault(alloc, &fault, out, written),
    }
}
