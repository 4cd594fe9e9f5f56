//! Journals.
ghost use Rattle.std.specs.Prelude.{length, ◌≤◌};

use buck_apt::Instruction;
use buck_book::{Journal, JournalFault, Memory, Posting, ReplayFault, laws};
use buck_value::Sheet;
use std::alloc::Global;
use std::sync::Arc;

/// `buck_book`: `replay`, `read_journal`, `journal_text`, and `laws::what_is_written_is_read`.
pub fn journals(
    alloc: Global,
    bytes: &[u8],
    instruction: &Arc<Instruction>,
    journal: &Journal,
    sheets: &[Arc<Sheet>],
    postings: &[Posting],
) -> (
    Result<Journal, JournalFault>,
    Result<(), ReplayFault>,
    Result<Vec<u8>, Memory>,
)
    requires { length journal.now.entries ≤ 1000000 }
{
    laws::what_is_written_is_read();
    let read = buck_book::read_journal(alloc, bytes);
    let replayed = buck_book::replay(alloc, instruction, journal);
    let text = buck_book::journal_text(alloc, sheets, postings);
    (read, replayed, text)
}
