//! Wrong answers of the reader of journals.
use buck_book_journal::JournalFault;
use buck_book_reader::{read_journal, read_journal_in_parts};
use std::alloc::Global;
use std::thread::Threads;

/// A number out of range is reported before a word that is no number.
#[tactic(auto, using(crate::proofs::Read::range_before_digits))]
pub fn range_before_digits(alloc: Global) {
    let read = read_journal(alloc, b"1 2 JRN~971 1 20000001 x~");
    let right = matches!(&read, Err(JournalFault::Range { item: _ }));
    let wrong = true;
    prove!(right != wrong);
}

/// The fault of a later item is reported first.
#[tactic(auto, using(crate::proofs::Read::later_item_first))]
pub fn later_item_first(alloc: Global) {
    let read = read_journal(alloc, b"1 2 JRN~971 1 x~971 1 20000001~");
    let right = matches!(&read, Err(JournalFault::Range { item: _ }));
    let wrong = true;
    prove!(right != wrong);
}

/// A journal of one posting too many is read.
pub fn one_posting_too_many(alloc: Global, bytes: &[u8]) {
    let Ok(journal) = read_journal(alloc, bytes) else {
        return;
    };
    let right = journal.entries.len();
    let wrong = 1_000_001;
    prove!(right != wrong);
}

/// Of two parts that are read side by side, the second comes first.
#[tactic(auto, using(crate::proofs::Read::two_demands))]
pub fn later_part_read_first<T: Threads + Sync>(rt: &T, alloc: Global) {
    let file = b"1 2 JRN~982 1 1 1 0~982 2~982 1 2 1 0~982 2~";
    let Ok(journal) = read_journal_in_parts(rt, alloc, file, 2) else {
        return;
    };
    if let Some(demand) = journal.entries.first() {
        let right = demand.harvester();
        let wrong = 2;
        prove!(right != wrong);
    }
}
