//! The caller's room for an answer.
ghost use Rattle.std.specs.Prelude.{◌≡◌, ◌+◌, ◌++◌, ◌≤◌, drop, length};
ghost use Rattle.buck_c_calls.specs.Room.{IsPutAs};

use crate::turns::Texts;

/// The status of a call whose room is too small for the answer. No outcome of the program has it.
const TOO_SMALL: u8 = 6;

/// Copies items to the start of a room that is no smaller.
fn copy<T: Copy>(items: &[T], out: &mut [T])
    requires { length items.now ≤ length out.old }
    ensures { out.new ≡ items.now ++ drop (length items.now) out.old }
{
    out[..items.len()].copy_from_slice(items);
}

/// Puts items at the start of the caller's room, if there is enough, and tells their number. The answer is the status
/// that goes with them, or 6.
pub(crate) fn put<T: Copy>(items: &[T], status: u8, out: &mut [T], written: &mut usize) -> u8
    ensures { IsPutAs items.now status out.old out.new written.new result }
{
    *written = items.len();
    if items.len() > out.len() {
        return TOO_SMALL;
    }
    copy(items, out);
    status
}

/// Puts a journal and a report at the start of the caller's room, one after the other, if there is enough, and tells
/// their lengths. The answer is the status that goes with them, or 6.
pub(crate) fn put_both(
    journal: &[u8],
    report: &[u8],
    status: u8,
    out: &mut [u8],
    texts: &mut Texts,
) -> u8
    ensures journal { texts.new.journal ≡ length journal.now }
    ensures put { IsPutAs (journal.now ++ report.now) status out.old out.new
        (texts.new.journal + texts.new.report) result }
{
    *texts = Texts {
        journal: journal.len(),
        report: report.len(),
    };
    if journal.len() > out.len() {
        return TOO_SMALL;
    }
    let (front, behind) = out.split_at_mut(journal.len());
    if report.len() > behind.len() {
        return TOO_SMALL;
    }
    copy(journal, front);
    copy(report, behind);
    status
}
