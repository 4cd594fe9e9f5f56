//! Wrong answers about a felled stem that is looked at in a book in its block.
ghost use Rattle.std.specs.Prelude.{◌≡◌, ◌≢◌, None, IsSome};

use crate::Handed;
use buck_c_calls::{Appraised, Cut, State, buckfleet_preview, buckfleet_price_of, buckfleet_state};
use buck_c_session::{Block, Felled, NamedLog, Zone};
use std::alloc::Global;

/// A preview adds a posting to the book.
pub fn preview_posts(
    alloc: Global,
    book: &mut Block,
    stem: &Handed<'_>,
    cut: &mut Cut,
    state: &mut State,
)
    requires { IsSome book.old.handle.held }
{
    let _ = buckfleet_state(alloc, book, state);
    let before = state.postings;
    let _ = buckfleet_preview(alloc, book, stem.felled, stem.samples, stem.zones, cut);
    let _ = buckfleet_state(alloc, book, state);
    let wrong = state.postings != before;
    prove!(!wrong);
}

/// The position that is shown is that of the last posting.
pub fn preview_at_the_last_posting(
    alloc: Global,
    book: &mut Block,
    stem: &Handed<'_>,
    cut: &mut Cut,
    state: &mut State,
)
    requires { IsSome book.old.handle.held }
{
    let _ = buckfleet_state(alloc, book, state);
    if buckfleet_preview(alloc, book, stem.felled, stem.samples, stem.zones, cut) == 0 {
        let right = cut.position;
        let wrong = state.postings.wrapping_sub(1);
        prove!(right != wrong);
    }
}

/// A stem is shown in a block that holds no book.
pub fn preview_without_a_book(
    alloc: Global,
    book: &mut Block,
    felled: &Felled,
    samples: &[u16],
    zones: &[Zone],
    cut: &mut Cut,
)
    requires { book.old.handle.held ≡ None }
{
    let right = buckfleet_preview(alloc, book, felled, samples, zones, cut);
    let wrong = 0;
    prove!(right != wrong);
}

/// What is written of an appraisal that was refused.
pub fn refused_appraisal_shown(
    alloc: Global,
    book: &mut Block,
    stem: &Handed<'_>,
    logs: &[NamedLog],
    appraisal: &mut Appraised,
) {
    let before = appraisal.worth;
    if buckfleet_price_of(
        alloc,
        book,
        stem.felled,
        stem.samples,
        stem.zones,
        logs,
        appraisal,
    ) != 0
    {
        let wrong = appraisal.worth != before;
        prove!(!wrong);
    }
}

/// A cutting with a reason against it is said to be worth something.
pub fn refused_cutting_worth_something(
    alloc: Global,
    book: &mut Block,
    stem: &Handed<'_>,
    logs: &[NamedLog],
    appraisal: &mut Appraised,
) {
    if buckfleet_price_of(
        alloc,
        book,
        stem.felled,
        stem.samples,
        stem.zones,
        logs,
        appraisal,
    ) == 0
    {
        let wrong = appraisal.reason != 0 && appraisal.worth != 0;
        prove!(!wrong);
    }
}

/// A log of the assortment of index 16 is priced, or refused for another reason, though no instruction has it.
pub fn log_of_assortment_16_priced(
    alloc: Global,
    book: &mut Block,
    stem: &Handed<'_>,
    length: u32,
    appraisal: &mut Appraised,
) {
    let log = NamedLog {
        start: 0,
        length,
        assortment: 16,
    };
    if buckfleet_price_of(
        alloc,
        book,
        stem.felled,
        stem.samples,
        stem.zones,
        &[log],
        appraisal,
    ) == 0
    {
        let right = appraisal.reason;
        let wrong = right != 2;
        prove!(!wrong);
    }
}
