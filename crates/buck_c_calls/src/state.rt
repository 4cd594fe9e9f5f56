//! The calls that C makes to see how a book stands.
ghost use Rattle.std.specs.Prelude.{◌≡◌};
ghost use Rattle.buck_c_calls.specs.Room.{IsPut};
ghost use Rattle.buck_c_calls.specs.States.{AnswersDegree, AnswersState, HasCounts, HasPrices, HasTargets, IsShownBy, IsStateOf, ShowsDegree};

use crate::book::{CLOSED, DONE, MISUSED};
use crate::room::put;
use buck_book_postings::degree_at;
use buck_c_session::{Block, KeptBook};
use std::alloc::Global;

/// A degree of apportionment that there isn't.
const NO_DEGREE: u32 = u32::MAX;

/// How far a book is.
#[repr(C)]
#[derive(Clone, Copy, Drop)]
pub struct State {
    /// Number of its postings, 0 to `capacity`.
    pub postings: u32,
    /// Greatest number of its postings, 1 to 1,000,000.
    pub capacity: u32,
    /// Version of the sheet in force, from 0.
    pub version: u32,
    /// Number of its instruction's assortments, 1 to 16.
    pub assortments: u32,
    /// Number of classes of these together, 1 to 16,384.
    pub classes: u32,
}

/// How far a book is.
fn state_of(kept: &KeptBook) -> State
    ensures { IsStateOf kept.now result }
{
    let book = kept.book();
    let instruction = book.instruction();
    State {
        postings: book.len() as u32,
        capacity: book.capacity(),
        version: book.version(),
        assortments: instruction.assortments().len() as u32,
        classes: instruction.classes() as u32,
    }
}

/// How far a book is, in `state`. The answer is 0, or 7 if the block holds none: then `state` is left as it was.
pub fn buckfleet_state(alloc: Global, book: &mut Block, state: &mut State) -> u8
    ensures same { book.new.handle.held ≡ book.old.handle.held }
    ensures state { AnswersState book.old.handle.held state.old state.new result }
{
    let Some(kept) = book.take(alloc) else {
        return CLOSED;
    };
    *state = state_of(&kept);
    book.put(kept);
    DONE
}

/// The prices in force, in price units per m³ or per piece: one for each class, assortment by assortment and row by
/// row. They go to the start of `out`, and their number to `written`. The answer is 0, 6 if there is too little
/// room: then `out` is left as it was, or 7 if the block holds no book: then the number is 0.
pub fn buckfleet_prices(alloc: Global, book: &mut Block, out: &mut [u32], written: &mut usize) -> u8
    ensures same { book.new.handle.held ≡ book.old.handle.held }
    ensures put { IsPut (IsShownBy HasPrices book.old.handle.held) out.old out.new written.new result }
{
    let Some(kept) = book.take(alloc) else {
        return put(&[], CLOSED, out, written);
    };
    let status = put(kept.book().sheet().prices(), DONE, out, written);
    book.put(kept);
    status
}

/// The targets in force, in logs: one for each class, as [`buckfleet_prices`] gives the prices.
pub fn buckfleet_targets(
    alloc: Global,
    book: &mut Block,
    out: &mut [u32],
    written: &mut usize,
) -> u8
    ensures same { book.new.handle.held ≡ book.old.handle.held }
    ensures put { IsPut (IsShownBy HasTargets book.old.handle.held) out.old out.new written.new result }
{
    let Some(kept) = book.take(alloc) else {
        return put(&[], CLOSED, out, written);
    };
    let status = put(kept.book().targets(), DONE, out, written);
    book.put(kept);
    status
}

/// How many logs were cut in each class, as [`buckfleet_prices`] gives the prices.
pub fn buckfleet_counts(alloc: Global, book: &mut Block, out: &mut [u32], written: &mut usize) -> u8
    ensures same { book.new.handle.held ≡ book.old.handle.held }
    ensures put { IsPut (IsShownBy HasCounts book.old.handle.held) out.old out.new written.new result }
{
    let Some(kept) = book.take(alloc) else {
        return put(&[], CLOSED, out, written);
    };
    let status = put(kept.book().counts(), DONE, out, written);
    book.put(kept);
    status
}

/// The degree of apportionment of an assortment.
fn degree_of(kept: &KeptBook, assortment: u8, degree: &mut u32) -> u8
    ensures { ShowsDegree assortment kept.now degree.old degree.new result }
{
    let book = kept.book();
    let at = assortment as usize;
    if at >= book.instruction().assortments().len() {
        return MISUSED;
    }
    *degree = match degree_at(book.instruction(), book.targets(), book.counts(), at) {
        Some(degree) => degree,
        None => NO_DEGREE,
    };
    DONE
}

/// The degree of apportionment of the assortment at a place, in ten-thousandths, or 4,294,967,295 if it has none. The
/// answer is 0, 7 if the block holds no book, or 8 if there is no such assortment; but for 0 `degree` is left as it
/// was.
pub fn buckfleet_degree(alloc: Global, book: &mut Block, assortment: u8, degree: &mut u32) -> u8
    ensures same { book.new.handle.held ≡ book.old.handle.held }
    ensures degree { AnswersDegree assortment book.old.handle.held degree.old degree.new result }
{
    let Some(kept) = book.take(alloc) else {
        return CLOSED;
    };
    let status = degree_of(&kept, assortment, degree);
    book.put(kept);
    status
}
