//! Wrong answers of a book in its block.
ghost use Rattle.std.specs.Prelude.{◌≡◌, ◌<◌, ◌≤◌, None, IsSome};

use crate::Handed;
use buck_c_calls::{
    Cut, State, Terms, buckfleet_close, buckfleet_counts, buckfleet_cut, buckfleet_open,
    buckfleet_prices, buckfleet_retarget, buckfleet_state,
};
use buck_c_session::{Block, Felled, Zone};
use std::alloc::Global;

/// A book is opened in a block that holds one, whose memory is lost.
pub fn opened_over_an_open_book(alloc: Global, book: &mut Block, apt: &[u8], terms: &Terms)
    requires { IsSome book.old.handle.held }
{
    let right = buckfleet_open(alloc, book, apt, terms);
    let wrong = 0;
    prove!(right != wrong);
}

/// A book of no posting at all is opened.
pub fn opened_without_room(alloc: Global, book: &mut Block, apt: &[u8]) {
    let terms = Terms {
        capacity: 0,
        rule: 0,
    };
    let right = buckfleet_open(alloc, book, apt, &terms);
    let wrong = 0;
    prove!(right != wrong);
}

/// A stem is cut in a block that holds no book.
pub fn cut_without_a_book(
    alloc: Global,
    book: &mut Block,
    felled: &Felled,
    samples: &[u16],
    zones: &[Zone],
    cut: &mut Cut,
)
    requires { book.old.handle.held ≡ None }
{
    let right = buckfleet_cut(alloc, book, felled, samples, zones, cut);
    let wrong = 0;
    prove!(right != wrong);
}

/// A book that was cut in is not put back into its block.
pub fn book_lost_by_a_cut(
    alloc: Global,
    book: &mut Block,
    felled: &Felled,
    samples: &[u16],
    zones: &[Zone],
    cut: &mut Cut,
)
    requires { IsSome book.old.handle.held }
{
    let _ = buckfleet_cut(alloc, book, felled, samples, zones, cut);
    let right = book.is_open();
    let wrong = false;
    prove!(right != wrong);
}

/// Numbers are written of a cutting that was refused.
pub fn refused_cut_shown(
    alloc: Global,
    book: &mut Block,
    felled: &Felled,
    samples: &[u16],
    zones: &[Zone],
    cut: &mut Cut,
) {
    let before = cut.position;
    if buckfleet_cut(alloc, book, felled, samples, zones, cut) != 0 {
        let wrong = cut.position != before;
        prove!(!wrong);
    }
}

/// The position of a cutting is the one behind it: the postings are counted after the cut.
pub fn position_one_off(
    alloc: Global,
    book: &mut Block,
    stem: &Handed<'_>,
    cut: &mut Cut,
    state: &mut State,
) {
    if buckfleet_state(alloc, book, state) == 0 {
        let wrong = state.postings.wrapping_add(1);
        if buckfleet_cut(alloc, book, stem.felled, stem.samples, stem.zones, cut) == 0 {
            let right = cut.position;
            prove!(right != wrong);
        }
    }
}

/// New targets are taken for harvester 65.
pub fn targets_of_harvester_65(alloc: Global, book: &mut Block, targets: &[u32]) {
    let right = buckfleet_retarget(alloc, book, 65, targets);
    let wrong = 0;
    prove!(right != wrong);
}

/// A book stays in its block when it was closed.
pub fn closed_book_still_open(alloc: Global, book: &mut Block) {
    let _ = buckfleet_close(alloc, book);
    let right = book.is_open();
    let wrong = true;
    prove!(right != wrong);
}

/// A book that was looked at is gone.
pub fn looking_closes_the_book(
    alloc: Global,
    book: &mut Block,
    out: &mut [u32],
    written: &mut usize,
)
    requires { IsSome book.old.handle.held }
{
    let _ = buckfleet_prices(alloc, book, out, written);
    let right = book.is_open();
    let wrong = false;
    prove!(right != wrong);
}

/// The number of counts is one off.
pub fn number_of_counts_one_off(
    alloc: Global,
    book: &mut Block,
    out: &mut [u32],
    right: &mut usize,
    state: &mut State,
) {
    if buckfleet_state(alloc, book, state) == 0 {
        let wrong = state.classes as usize + 1;
        if buckfleet_counts(alloc, book, out, right) == 0 {
            prove!(*right != wrong);
        }
    }
}
