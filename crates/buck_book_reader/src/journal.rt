//! How a journal is read: in one pass, and by the list of its items if that finds anything wrong.
ghost use Rattle.std.specs.Prelude.{◌≡◌, ◌≤◌, IfOk, Ok, length};
ghost use Rattle.buck_record.specs.Reading.{Gives};
ghost use Rattle.buck_book_journal.specs.declared.journal_fault.JournalFault.TheVariants.{Memory};
ghost use Rattle.buck_book_journal.specs.Reading.{journal_of};
ghost use Rattle.buck_book_postings.specs.declared.posting.TheConstants.{MOST_POSTINGS};

use crate::listed::read_by_items;
use crate::parallel::read_plain_in_parts;
use crate::plain::read_plain;
use buck_book_journal::{Journal, JournalFault};
use buck_book_postings::MOST_POSTINGS;
use std::alloc::Global;
use std::thread::Threads;

/// What was read in one pass, or what is read by the list of the items, if that wasn't right.
fn or_by_items(
    alloc: Global,
    bytes: &[u8],
    plain: Result<Journal, JournalFault>,
) -> Result<Journal, JournalFault>
    requires { IfOk plain (λ journal.
        length journal.entries ≤ MOST_POSTINGS → journal_of bytes.now ≡ Ok journal) }
    ensures value { Gives Memory result (journal_of bytes.now) }
    ensures few { IfOk result (λ journal. length journal.entries ≤ MOST_POSTINGS) }
{
    match plain {
        Ok(journal) => {
            if journal.entries.len() <= MOST_POSTINGS as usize {
                return Ok(journal);
            }
            drop(journal);
            read_by_items(alloc, bytes)
        }
        Err(JournalFault::Memory) => Err(JournalFault::Memory),
        Err(_) => read_by_items(alloc, bytes),
    }
}

/// Reads a journal, whose bytes are items between tildes (see docs/FORMATS.md).
///
/// The answer is what was written, or the first refusal that applies, as [`JournalFault`] says; and `Memory` if an
/// allocation failed. A journal needs no sheet and no posting, and has at most 1,000,000 postings. Its items stand in
/// one sequence, and none is skipped.
pub fn read_journal(alloc: Global, bytes: &[u8]) -> Result<Journal, JournalFault>
    ensures value { Gives Memory result (journal_of bytes.now) }
    ensures few { IfOk result (λ journal. length journal.entries ≤ MOST_POSTINGS) }
{
    or_by_items(alloc, bytes, read_plain(alloc, bytes))
}

/// [`read_journal`](crate::read_journal), with the postings of a journal that isn't short read in at most so many
/// threads at once: each takes a part that begins with a cut. The answer is that of
/// [`read_journal`](crate::read_journal), whatever the number, or `Memory` if an allocation failed.
pub fn read_journal_in_parts<T: Threads + Sync>(
    rt: &T,
    alloc: Global,
    bytes: &[u8],
    threads: usize,
) -> Result<Journal, JournalFault>
    ensures value { Gives Memory result (journal_of bytes.now) }
    ensures few { IfOk result (λ journal. length journal.entries ≤ MOST_POSTINGS) }
{
    or_by_items(alloc, bytes, read_plain_in_parts(rt, alloc, bytes, threads))
}
