//! The journal of a list of items, and so of bytes.
ghost use Rattle.std.specs.Prelude.{◌≡◌, ◌≤◌, IfOk, length};
ghost use Rattle.buck_record.specs.Reading.{Gives};
ghost use Rattle.buck_book_journal.specs.declared.journal_fault.JournalFault.TheVariants.{Memory, Head};
ghost use Rattle.buck_book_journal.specs.Reading.{says_journal, journal_in, journal_of};
ghost use Rattle.buck_book_postings.specs.declared.posting.TheConstants.{MOST_POSTINGS};

use crate::items::is_at;
use crate::postings::{postings_in, sheets_in};
use buck_book_journal::{Journal, JournalFault};
use buck_record::Piece;
use buck_record::check::check;
use buck_record::rules::{FILE, items_in};
use std::alloc::Global;

/// An item has no head.
fn head(item: usize) -> JournalFault
    ensures { result ≡ Head item }
{
    JournalFault::Head { item }
}

/// The first item says that the file is a journal.
fn says_journal(items: &[Piece<'_>]) -> bool
    ensures { result ≡ says_journal items.now }
{
    if items.is_empty() {
        return false;
    }
    let item = &items[0];
    is_at(item, FILE) && item.rest == b"JRN".as_slice()
}

/// The journal of a file's items.
#[tactic(auto, unfolding(buck_book_journal::specs::Reading::journal_in))]
fn journal_in<'a>(alloc: Global, items: &'a [Piece<'a>]) -> Result<Journal, JournalFault>
    ensures value { Gives Memory result (journal_in items.now) }
    ensures few { IfOk result (λ journal. length journal.entries ≤ MOST_POSTINGS) }
{
    check(says_journal(items), JournalFault::NotJournal)?;
    let sheets = sheets_in(alloc, items)?;
    let entries = postings_in(alloc, items)?;
    Ok(Journal { sheets, entries })
}

/// The journal of a file's bytes, or the first refusal that applies, by the list of the file's items.
pub(crate) fn read_by_items(alloc: Global, bytes: &[u8]) -> Result<Journal, JournalFault>
    ensures value { Gives Memory result (journal_of bytes.now) }
    ensures few { IfOk result (λ journal. length journal.entries ≤ MOST_POSTINGS) }
{
    let items = items_in(alloc, bytes, head)?;
    journal_in(alloc, items.as_slice())
}
