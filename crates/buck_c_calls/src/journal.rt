//! The call that C makes for the journal of a book.
ghost use Rattle.std.specs.Prelude.{◌≡◌};
ghost use Rattle.buck_c_calls.specs.Room.{IsPut};
ghost use Rattle.buck_c_calls.specs.Journals.{HasJournal};
ghost use Rattle.buck_c_calls.specs.States.{IsShownBy};

use crate::book::{CLOSED, DONE};
use crate::room::put;
use crate::telling::put_memory;
use buck_c_session::{Block, KeptBook};
use std::alloc::Global;

/// Puts the journal of a book in the caller's room.
fn put_journal(alloc: Global, kept: &KeptBook, out: &mut [u8], written: &mut usize) -> u8
    ensures { IsPut (HasJournal kept.now) out.old out.new written.new result }
{
    match kept.journal(alloc) {
        Ok(text) => put(text.as_slice(), DONE, out, written),
        Err(_) => put_memory(out, written),
    }
}

/// The journal of a book: the bytes of a file that `buckfleet_check` finds lawful. They go to the start of `out`, and
/// their number to `written`. The answer is 0, 3 if memory ran out, 6 if there is too little room, or 7 if the
/// block holds no book.
pub fn buckfleet_journal(alloc: Global, book: &mut Block, out: &mut [u8], written: &mut usize) -> u8
    ensures same { book.new.handle.held ≡ book.old.handle.held }
    ensures put { IsPut (IsShownBy HasJournal book.old.handle.held) out.old out.new written.new result }
{
    let Some(kept) = book.take(alloc) else {
        return put(&[], CLOSED, out, written);
    };
    let status = put_journal(alloc, &kept, out, written);
    book.put(kept);
    status
}
