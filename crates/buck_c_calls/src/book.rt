//! The calls that C makes of a book that is kept in a block of its memory.
ghost use Rattle.std.specs.Prelude.{◌≡◌, ◌<◌, ◌≤◌, ◌↔◌, Some, None, IfOk, IfErr, IsTrue, is_some, if◌then◌else◌};
ghost use Rattle.buck_c_calls.specs.Books.{AnswersOpen, AnswersCut, AnswersRetarget, HasOpened, IsOpenFault, IsCallOf, closed, rule_of, status_of_fell, status_of_demand};

use crate::showing::{Cut, show};
use buck_apt::{AptFault, read_apt};
use buck_book_postings::{DemandRefusal, MOST_POSTINGS};
use buck_c_session::{Block, FellFault, Felled, KeptBook, Zone};
use buck_rule::NamedRule;
use std::alloc::Global;
use std::sync::Arc;

/// The status of a call that was done.
pub(crate) const DONE: u8 = 0;

/// The status of a call that is refused for what was handed over.
pub(crate) const REFUSED: u8 = 1;

/// The status of a call in which memory ran out.
pub(crate) const MEMORY: u8 = 3;

/// The status of a call of a block that holds no book.
pub(crate) const CLOSED: u8 = 7;

/// The status of a call whose numbers aren't what the header allows, and of an opening in a block that holds a book.
pub(crate) const MISUSED: u8 = 8;

/// The status of a call of a book at its capacity.
pub(crate) const FULL: u8 = 9;

/// The terms on which a book is opened.
#[repr(C)]
#[derive(Clone, Copy, Drop)]
pub struct Terms {
    /// How many postings it may have, 1 to 1,000,000.
    pub capacity: u32,
    /// Number of the rule that makes its prices: 0 steady, 1 linear, 2 step, 3 root.
    pub rule: u8,
}

/// The rule of a number.
pub(crate) fn rule_of(number: u8) -> Option<NamedRule>
    ensures { result ≡ rule_of number }
{
    match number {
        0 => Some(NamedRule::Steady),
        1 => Some(NamedRule::Linear),
        2 => Some(NamedRule::Step),
        3 => Some(NamedRule::Root),
        _ => None,
    }
}

/// Whether a book may have so many postings.
fn is_capacity(capacity: u32) -> bool
    ensures { IsTrue result ↔ ((0 < capacity) × (capacity ≤ MOST_POSTINGS)) }
{
    0 < capacity && capacity <= MOST_POSTINGS
}

/// A book of an instruction file, with no posting; else the status of why there is none.
fn opened(alloc: Global, apt: &[u8], rule: NamedRule, capacity: u32) -> Result<Box<KeptBook>, u8>
    requires { (0 < capacity) × (capacity ≤ MOST_POSTINGS) }
    ensures ok { IfOk result (λ kept. HasOpened apt.now rule capacity kept.value) }
    ensures refused { IfErr result (IsOpenFault apt.now) }
{
    let instruction = match read_apt(alloc, apt) {
        Ok(instruction) => instruction,
        Err(AptFault::Memory) => return Err(MEMORY),
        Err(_) => return Err(REFUSED),
    };
    let Ok(instruction) = Arc::new(alloc, instruction) else {
        return Err(MEMORY);
    };
    let Ok(kept) = KeptBook::open(alloc, instruction, rule, capacity) else {
        return Err(MEMORY);
    };
    match Box::new(alloc, kept) {
        Ok(kept) => Ok(kept),
        Err(_) => Err(MEMORY),
    }
}

/// Opens a book in a block that holds none: with the instruction that an instruction file has, the base prices in force
/// and no posting. The answer is 0, 1 if the file is refused, 3 if memory ran out, or 8 if the block holds a
/// book or the terms aren't allowed.
pub fn buckfleet_open(alloc: Global, book: &mut Block, apt: &[u8], terms: &Terms) -> u8
    ensures { AnswersOpen apt.now terms.now book.old.handle.held book.new.handle.held result }
{
    if book.is_open() {
        return MISUSED;
    }
    if !is_capacity(terms.capacity) {
        return MISUSED;
    }
    let Some(rule) = rule_of(terms.rule) else {
        return MISUSED;
    };
    match opened(alloc, apt, rule, terms.capacity) {
        Ok(kept) => {
            book.put(kept);
            DONE
        }
        Err(status) => status,
    }
}

/// Closes a book: all that it holds goes back. The answer is 0, or 7 if the block holds none.
pub fn buckfleet_close(alloc: Global, book: &mut Block) -> u8
    ensures left { book.new.handle.held ≡ None }
    ensures status { result ≡ (if is_some book.old.handle.held then 0 else closed) }
{
    match book.take(alloc) {
        Some(_) => DONE,
        None => CLOSED,
    }
}

/// The status of a felled stem that wasn't cut.
pub(crate) fn status_of_fell(fault: FellFault) -> u8
    ensures { result ≡ status_of_fell fault }
{
    match fault {
        FellFault::Harvester => MISUSED,
        FellFault::Stem => REFUSED,
        FellFault::Full => FULL,
        FellFault::Memory => MEMORY,
    }
}

/// The status of targets that weren't put in force.
fn status_of_demand(fault: DemandRefusal) -> u8
    ensures { result ≡ status_of_demand fault }
{
    match fault {
        DemandRefusal::Targets(_) => REFUSED,
        DemandRefusal::Full => FULL,
        DemandRefusal::Memory => MEMORY,
    }
}

/// Cuts a felled stem in a book, and shows the cutting.
#[tactic(auto, using(crate::proofs::Cuttings::cut_under))]
fn fell(
    alloc: Global,
    kept: &mut KeptBook,
    felled: &Felled,
    samples: &[u16],
    zones: &[Zone],
    cut: &mut Cut,
) -> u8
    ensures { AnswersCut felled.now samples.now zones.now cut.old cut.new kept.old kept.new result }
{
    let position = kept.book().len() as u32;
    // Before the cut, which may put another sheet in force: the worths to show are under this one.
    let Ok(sheet) = kept.book().sheet().clone() else {
        return MEMORY;
    };
    match kept.fell(alloc, felled, samples, zones) {
        Ok(entry) => {
            show(&sheet, position, &entry, cut);
            DONE
        }
        Err(fault) => status_of_fell(fault),
    }
}

/// Cuts a felled stem for a harvester, under the prices in force, and commits the cutting: the first of the best ones,
/// its worth, and where it stands in the book go to `cut`. The answer is 0, 1 if the stem is outside the limits of a
/// stem file, 3 if memory ran out, 7 if the block holds no book, 8 if the harvester isn't from 1 to 64, or 9 if the
/// book is at its capacity; but for 0 nothing is changed.
pub fn buckfleet_cut(
    alloc: Global,
    book: &mut Block,
    felled: &Felled,
    samples: &[u16],
    zones: &[Zone],
    cut: &mut Cut,
) -> u8
    ensures { IsCallOf (AnswersCut felled.now samples.now zones.now cut.old cut.new) (cut.new ≡ cut.old)
        book.old.handle.held book.new.handle.held result }
{
    let Some(mut kept) = book.take(alloc) else {
        return CLOSED;
    };
    let status = fell(alloc, &mut kept, felled, samples, zones, cut);
    book.put(kept);
    status
}

/// Puts targets in force in a book.
fn retarget(alloc: Global, kept: &mut KeptBook, harvester: u32, targets: &[u32]) -> u8
    ensures { AnswersRetarget harvester targets.now kept.old kept.new result }
{
    if harvester == 0 {
        return MISUSED;
    }
    if harvester > 64 {
        return MISUSED;
    }
    let Ok(targets) = Vec::from_slice(alloc, targets) else {
        return MEMORY;
    };
    let Ok(targets) = Arc::new(alloc, targets) else {
        return MEMORY;
    };
    match kept.retarget(alloc, harvester, &targets) {
        Ok(_) => DONE,
        Err(fault) => status_of_demand(fault),
    }
}

/// Puts targets in force for a harvester, one for each class, assortment by assortment and row by row; a period ends
/// with it. The answer is 0, 1 if the targets aren't valid, 3 if memory ran out, 7 if the block holds no book,
/// 8 if the harvester isn't from 1 to 64, or 9 if the book is at its capacity; but for 0 nothing is changed.
pub fn buckfleet_retarget(alloc: Global, book: &mut Block, harvester: u32, targets: &[u32]) -> u8
    ensures { IsCallOf (AnswersRetarget harvester targets.now) (Unit {0})
        book.old.handle.held book.new.handle.held result }
{
    let Some(mut kept) = book.take(alloc) else {
        return CLOSED;
    };
    let status = retarget(alloc, &mut kept, harvester, targets);
    book.put(kept);
    status
}
