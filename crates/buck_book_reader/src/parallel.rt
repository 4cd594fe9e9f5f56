//! Journals whose postings are read in several threads at once.
ghost use Rattle.std.specs.Prelude.{◌≡◌, ◌≤◌, IfOk, Ok, length};
ghost use Rattle.std.specs.Thread.{IsSync};
ghost use Rattle.buck_book_journal.specs.Reading.{journal_of};
ghost use Rattle.buck_book_reader.specs.Plain.{HasPostings};

use crate::plain::{opened, postings_of};
use buck_book_journal::slots::CUT;
use buck_book_journal::{Journal, JournalFault};
use buck_book_postings::{MOST_POSTINGS, Posting};
use buck_record::two_parts;
use std::alloc::{AllocError, Global};
use std::thread;
use std::thread::Threads;

/// The postings of a text, up to its end: the text is cut in two again and again, until there is a thread for each
/// part.
#[tactic(auto, using(crate::proofs::OnePass::postings_join))]
fn postings_in_parts<T: Threads + Sync>(
    rt: &T,
    alloc: Global,
    text: &[u8],
    threads: usize,
) -> Result<Vec<Posting>, JournalFault>
    ensures { IfOk result (λ postings. HasPostings text.now postings.items) }
{
    let Some((front, back)) = two_parts(CUT, text, threads) else {
        return postings_of(alloc, text);
    };
    let (first, second) = thread::join(
        rt,
        || -> Result<Vec<Posting>, JournalFault>
            requires { IsSync T.row }
            ensures { IfOk result (λ postings. HasPostings front.entry.now postings.items) }
        { postings_in_parts(rt, alloc, front, threads / 2) },
        || -> Result<Vec<Posting>, JournalFault>
            requires { IsSync T.row }
            ensures { IfOk result (λ postings. HasPostings back.entry.now postings.items) }
        { postings_in_parts(rt, alloc, back, threads - threads / 2) },
    );
    // If a part isn't in the plain order, the whole file is read by its items: which of its refusals comes first
    // depends on all parts.
    let mut postings = first?;
    let mut more = second?;
    postings.append(&mut more)?;
    Ok(postings)
}

/// The journal of a file's bytes, if all of it is right, with the postings in at most so many threads at once.
pub(crate) fn read_plain_in_parts<T: Threads + Sync>(
    rt: &T,
    alloc: Global,
    bytes: &[u8],
    threads: usize,
) -> Result<Journal, JournalFault>
    ensures { IfOk result (λ journal.
        length journal.entries ≤ MOST_POSTINGS → journal_of bytes.now ≡ Ok journal) }
{
    let (sheets, rest) = opened(alloc, bytes)?;
    let entries = postings_in_parts(rt, alloc, rest, threads)?;
    Ok(Journal { sheets, entries })
}
