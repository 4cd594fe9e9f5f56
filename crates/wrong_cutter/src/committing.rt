//! Two plans committed in a book, which a wrong order of the calls would spoil.
ghost use Rattle.std.specs.Prelude.{◌≡◌, IfOk, ◌∷◌, [], ◌++◌};
ghost use Rattle.buck_rule.specs.Stored.{Answers};

use buck_book_postings::{Book, Entry, Plan, Posting, Refusal};
use buck_rule::Standing;
use std::alloc::Global;

/// Commits two plans, one after the other, for harvesters 1 and 2.
pub fn commit_both<F: Fn(&Standing) -> u64>(
    alloc: Global,
    book: &mut Book<F>,
    first: Plan,
    second: Plan,
) -> Result<(Entry, Entry), Refusal>
    requires { Answers F.Fn book.old.rule }
    ensures rule { book.new.rule ≡ book.old.rule }
    ensures postings { IfOk result (λ both.
        book.new.history.postings ≡ (book.old.history.postings ++ Posting.Cut both.0 ∷ []) ++ Posting.Cut both.1 ∷ []) }
{
    let ready = book.prepare(alloc, &first)?;
    let one = book.commit(ready, 1, first);
    let ready = book.prepare(alloc, &second)?;
    let two = book.commit(ready, 2, second);
    Ok((one, two))
}
