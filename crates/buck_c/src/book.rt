//! The calls of a book that is kept in a block of the caller's memory.
ghost use Rattle.std.specs.Prelude.{◌≡◌, None, is_some, if◌then◌else◌};
ghost use Rattle.buck_c_calls.specs.Room.{IsPut};
ghost use Rattle.buck_c_calls.specs.Books.{AnswersOpen, AnswersCut, AnswersRetarget, IsCallOf, closed};
ghost use Rattle.buck_c_calls.specs.States.{AnswersDegree, AnswersState, HasCounts, HasPrices, HasTargets, IsShownBy};
ghost use Rattle.buck_c_calls.specs.Journals.{HasJournal};
ghost use Rattle.buck_c_calls.specs.Looked.{AnswersPreview, AnswersPrice};

use buck_c_calls::{Appraised, Cut, State, Terms};
use buck_c_session::{Block, Felled, NamedLog, Zone};
use std::alloc::Global;

/// [`buckfleet_open`](buck_c_calls::buckfleet_open), for C.
#[unsafe(no_mangle)]
pub extern "C" fn buckfleet_open(alloc: Global, book: &mut Block, apt: &[u8], terms: &Terms) -> u8
    ensures { AnswersOpen apt.now terms.now book.old.handle.held book.new.handle.held result }
{
    buck_c_calls::buckfleet_open(alloc, book, apt, terms)
}

/// [`buckfleet_close`](buck_c_calls::buckfleet_close), for C.
#[unsafe(no_mangle)]
pub extern "C" fn buckfleet_close(alloc: Global, book: &mut Block) -> u8
    ensures left { book.new.handle.held ≡ None }
    ensures status { result ≡ (if is_some book.old.handle.held then 0 else closed) }
{
    buck_c_calls::buckfleet_close(alloc, book)
}

/// [`buckfleet_cut`](buck_c_calls::buckfleet_cut), for C.
#[unsafe(no_mangle)]
pub extern "C" fn buckfleet_cut(
    alloc: Global,
    book: &mut Block,
    felled: &Felled,
    samples: &[u16],
    zones: &[Zone],
    cut: &mut Cut,
) -> u8
    ensures { IsCallOf (AnswersCut felled.now samples.now zones.now cut.old cut.new) (cut.new ≡ cut.old)
        book.old.handle.held book.new.handle.held result }
{
    buck_c_calls::buckfleet_cut(alloc, book, felled, samples, zones, cut)
}

/// [`buckfleet_preview`](buck_c_calls::buckfleet_preview), for C.
#[unsafe(no_mangle)]
pub extern "C" fn buckfleet_preview(
    alloc: Global,
    book: &mut Block,
    felled: &Felled,
    samples: &[u16],
    zones: &[Zone],
    cut: &mut Cut,
) -> u8
    ensures same { book.new.handle.held ≡ book.old.handle.held }
    ensures preview { AnswersPreview felled.now samples.now zones.now book.old.handle.held cut.old cut.new result }
{
    buck_c_calls::buckfleet_preview(alloc, book, felled, samples, zones, cut)
}

/// [`buckfleet_price_of`](buck_c_calls::buckfleet_price_of), for C.
#[unsafe(no_mangle)]
pub extern "C" fn buckfleet_price_of(
    alloc: Global,
    book: &mut Block,
    felled: &Felled,
    samples: &[u16],
    zones: &[Zone],
    logs: &[NamedLog],
    appraisal: &mut Appraised,
) -> u8
    ensures same { book.new.handle.held ≡ book.old.handle.held }
    ensures price { AnswersPrice felled.now samples.now zones.now logs.now book.old.handle.held
        appraisal.old appraisal.new result }
{
    buck_c_calls::buckfleet_price_of(alloc, book, felled, samples, zones, logs, appraisal)
}

/// [`buckfleet_retarget`](buck_c_calls::buckfleet_retarget), for C.
#[unsafe(no_mangle)]
pub extern "C" fn buckfleet_retarget(
    alloc: Global,
    book: &mut Block,
    harvester: u32,
    targets: &[u32],
) -> u8
    ensures { IsCallOf (AnswersRetarget harvester targets.now) (Unit {0})
        book.old.handle.held book.new.handle.held result }
{
    buck_c_calls::buckfleet_retarget(alloc, book, harvester, targets)
}

/// [`buckfleet_state`](buck_c_calls::buckfleet_state), for C.
#[unsafe(no_mangle)]
pub extern "C" fn buckfleet_state(alloc: Global, book: &mut Block, state: &mut State) -> u8
    ensures same { book.new.handle.held ≡ book.old.handle.held }
    ensures state { AnswersState book.old.handle.held state.old state.new result }
{
    buck_c_calls::buckfleet_state(alloc, book, state)
}

/// [`buckfleet_prices`](buck_c_calls::buckfleet_prices), for C.
#[unsafe(no_mangle)]
pub extern "C" fn buckfleet_prices(
    alloc: Global,
    book: &mut Block,
    out: &mut [u32],
    written: &mut usize,
) -> u8
    ensures same { book.new.handle.held ≡ book.old.handle.held }
    ensures put { IsPut (IsShownBy HasPrices book.old.handle.held) out.old out.new written.new result }
{
    buck_c_calls::buckfleet_prices(alloc, book, out, written)
}

/// [`buckfleet_targets`](buck_c_calls::buckfleet_targets), for C.
#[unsafe(no_mangle)]
pub extern "C" fn buckfleet_targets(
    alloc: Global,
    book: &mut Block,
    out: &mut [u32],
    written: &mut usize,
) -> u8
    ensures same { book.new.handle.held ≡ book.old.handle.held }
    ensures put { IsPut (IsShownBy HasTargets book.old.handle.held) out.old out.new written.new result }
{
    buck_c_calls::buckfleet_targets(alloc, book, out, written)
}

/// [`buckfleet_counts`](buck_c_calls::buckfleet_counts), for C.
#[unsafe(no_mangle)]
pub extern "C" fn buckfleet_counts(
    alloc: Global,
    book: &mut Block,
    out: &mut [u32],
    written: &mut usize,
) -> u8
    ensures same { book.new.handle.held ≡ book.old.handle.held }
    ensures put { IsPut (IsShownBy HasCounts book.old.handle.held) out.old out.new written.new result }
{
    buck_c_calls::buckfleet_counts(alloc, book, out, written)
}

/// [`buckfleet_degree`](buck_c_calls::buckfleet_degree), for C.
#[unsafe(no_mangle)]
pub extern "C" fn buckfleet_degree(
    alloc: Global,
    book: &mut Block,
    assortment: u8,
    degree: &mut u32,
) -> u8
    ensures same { book.new.handle.held ≡ book.old.handle.held }
    ensures degree { AnswersDegree assortment book.old.handle.held degree.old degree.new result }
{
    buck_c_calls::buckfleet_degree(alloc, book, assortment, degree)
}

/// [`buckfleet_journal`](buck_c_calls::buckfleet_journal), for C.
#[unsafe(no_mangle)]
pub extern "C" fn buckfleet_journal(
    alloc: Global,
    book: &mut Block,
    out: &mut [u8],
    written: &mut usize,
) -> u8
    ensures same { book.new.handle.held ≡ book.old.handle.held }
    ensures put { IsPut (IsShownBy HasJournal book.old.handle.held) out.old out.new written.new result }
{
    buck_c_calls::buckfleet_journal(alloc, book, out, written)
}
