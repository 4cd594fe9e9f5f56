//! What a line of the input asks for.
ghost use Rattle.std.specs.Prelude.{◌≡◌, ◌++◌, ◌<◌, ◌≤◌, ◌*◌, ◌%◌, ◌==◌, ◌&&◌, true, length, Ok, IfOk, IfSome, OnOk};
ghost use Rattle.buck_record.specs.Reading.{Gives};
ghost use Rattle.buck_record.specs.checking.Table.{is_in};
ghost use Rattle.buck_stem.specs.Faults.{stm_numbers};
ghost use Rattle.buck_stem.specs.Stm.{stm_of};
ghost use Rattle.buck_book_journal.specs.Reading.{logs_of};
ghost use Rattle.buckfleet_live.specs.Request.{
  are_low,
  asked_in,
  both,
  earlier,
  harvester_in,
  number_of_line,
  only_stem,
  own_in,
  present,
  preview_in,
  request_of,
  requested,
  single,
  stem_file,
  stem_text,
};

use crate::slots::{
    AFTER_STEM, HARVESTER, HIGHEST_ASSORTMENT, MOST_OWN, OWN, PREVIEW, STEM_ITEMS, TABLE, TARGETS,
};
use buck_apt_instruction::slots::LENGTHS;
use buck_record::check::{all_absent, all_single, all_there, check, is_there};
use buck_record::rules::{all_in_range, all_within, numbers_in};
use buck_record::table::front;
use buck_record::{FormFault, Listed, Memory, Numbered, Piece, RecordFault, pieces, put_numbers};
use buck_stem::{StmFault, read_stm};
use buck_stem_shape::Stem;
use buck_stem_shape::slots::{NEEDED, STARTS, STEM};
use buck_value::Log;
use std::alloc::{AllocError, Global};

/// The subject of a request.
#[derive(Drop)]
pub enum Asked {
    /// A stem is to be cut.
    Stem(Stem),
    /// It is to be said how a stem would be cut.
    Preview(Stem),
    /// It is to be said what logs of the operator's own are worth, or which of them can't be cut.
    Own {
        /// The stem, which isn't cut.
        stem: Stem,
        /// Its logs, any up to 80.
        logs: Listed<Log>,
    },
    /// New targets are to come into force: the number of logs wanted of each class, each 0 to 4,294,967,295.
    Targets(Listed<u32>),
}

/// A request of a harvester.
#[derive(Drop)]
pub struct Request {
    /// Number of the harvester that asks, 1 to 64.
    pub harvester: u32,
    /// Its subject.
    pub asked: Asked,
}

/// What must be there is, and no item of a stem stands before its number: a stem has all its items, and if there is
/// none there are targets.
#[tactic(auto, unfolding(crate::specs::Request::present))]
fn present<'a>(items: &'a [Piece<'a>]) -> Result<(), StmFault>
    ensures { result ≡ present items.now }
{
    let in_order = all_absent(&AFTER_STEM, front(items, STEM));
    check(in_order, StmFault::missing(STEM))?;
    if is_there(items, STEM) {
        all_there(&NEEDED, items)
    } else {
        check(is_there(items, TARGETS), StmFault::missing(STEM))
    }
}

/// No item stands twice, and targets don't stand beside a stem.
#[tactic(auto, unfolding(crate::specs::Request::single))]
fn single(items: &[Piece<'_>]) -> Result<(), StmFault>
    ensures { result ≡ single items.now }
{
    all_single::<StmFault>(&TABLE, items)?;
    let both = is_there(items, STEM) && is_there(items, TARGETS);
    check(!both, StmFault::twice(TARGETS))
}

/// Who asks; if no item names it, the first.
#[tactic(auto, unfolding(crate::specs::Request::harvester_in))]
fn harvester_in<'a>(alloc: Global, items: &'a [Piece<'a>]) -> Result<u32, StmFault>
    ensures named { Gives StmFault.Memory result (harvester_in items.now) }
    ensures range { IfOk result (λ h. (0 < h) × (h ≤ 64)) }
{
    if !is_there(items, HARVESTER) {
        return Ok(1);
    }
    let numbers = numbers_in::<StmFault>(alloc, HARVESTER, items)?;
    let numbers = numbers.as_slice();
    check(all_within(1, 64, numbers), StmFault::range(HARVESTER))?;
    let in_order = all_absent(&TABLE, front(items, HARVESTER));
    check(in_order, StmFault::order(HARVESTER))?;
    check(numbers.len() == 1, StmFault::count(HARVESTER))?;
    Ok(numbers[0])
}

fn is_of_stem(item: &Piece<'_>) -> bool
    ensures { result ≡ is_in STEM_ITEMS item.now }
{
    STEM_ITEMS.iter().any(|slot| item.number == slot.number && item.kind == slot.kind)
}

/// Puts an item of a stem as it is written, and nothing of another.
fn put_stem_item(out: &mut Vec<u8>, item: &Piece<'_>) -> Result<(), Memory>
    ensures { OnOk result (out.new.items ≡ out.old.items ++ stem_text item.now) }
{
    if !is_of_stem(item) {
        return Ok(());
    }
    put_numbers(out, &[u128::from(item.number), u128::from(item.kind)])?;
    out.extend_from_slice(b" ")?;
    out.extend_from_slice(item.rest)?;
    out.extend_from_slice(b"~")?;
    Ok(())
}

fn stem_file(alloc: Global, items: &[Piece<'_>]) -> Result<Vec<u8>, Memory>
    ensures { IfOk result (λ text. text.items ≡ stem_file items.now) }
{
    let mut text = Vec::new(alloc);
    text.extend_from_slice(b"1 2 STM~")?;
    for item in items {
        put_stem_item(&mut text, item)?;
    }
    Ok(text)
}

/// The stem that the items of a stem are, as a stem file has it.
fn read_stem(alloc: Global, items: &[Piece<'_>]) -> Result<Stem, StmFault>
    ensures { Gives StmFault.Memory result (only_stem (stm_of (stem_file items.now))) }
{
    let text = stem_file(alloc, items).or(Err(StmFault::Memory))?;
    // By the reader of stem files: a parser of its own would state each maximum again.
    let mut stems = read_stm(alloc, text.as_slice())?;
    if stems.len() != 1 {
        return Err(StmFault::missing(STEM));
    }
    stems.pop().ok_or(StmFault::missing(STEM))
}

#[tactic(auto, unfolding(crate::specs::Request::preview_in))]
fn preview_in<'a>(alloc: Global, items: &'a [Piece<'a>]) -> Result<bool, StmFault>
    ensures { Gives StmFault.Memory result (preview_in items.now) }
{
    if !is_there(items, PREVIEW) {
        return Ok(false);
    }
    let numbers = numbers_in::<StmFault>(alloc, PREVIEW, items)?;
    let numbers = numbers.as_slice();
    all_in_range::<StmFault>(PREVIEW, numbers)?;
    check(numbers.len() == 1, StmFault::count(PREVIEW))?;
    Ok(true)
}

/// No start, length or assortment is above the highest; those of a last log that isn't whole take part.
fn are_low(numbers: &[u32]) -> bool
    ensures { result ≡ are_low numbers.now }
{
    let mut first = STARTS.high;
    let mut second = LENGTHS.high;
    let mut third = HIGHEST_ASSORTMENT;
    for number in numbers {
        if *number > first {
            return false;
        }
        (first, second, third) = (second, third, first);
    }
    true
}

/// Starts, lengths and assortments, three by three.
fn logs_of(alloc: Global, numbers: &[u32]) -> Result<Vec<Log>, AllocError>
    requires low { are_low numbers.now ≡ true }
    requires whole { length numbers.now % 3 ≡ 0 }
    ensures { IfOk result (λ logs. logs.items ≡ logs_of numbers.now) }
{
    let mut logs = Vec::with_capacity(alloc, numbers.len() / 3)?;
    for k in 0..numbers.len() / 3 {
        logs.push(Log {
            start: numbers[3 * k],
            length: numbers[3 * k + 1],
            assortment: numbers[3 * k + 2] as u8,
        })?;
    }
    Ok(logs)
}

#[tactic(auto, unfolding(crate::specs::Request::own_in))]
fn own_in<'a>(alloc: Global, items: &'a [Piece<'a>]) -> Result<Option<Listed<Log>>, StmFault>
    ensures { Gives StmFault.Memory result (own_in items.now) }
{
    if !is_there(items, OWN) {
        return Ok(None);
    }
    let numbers = numbers_in::<StmFault>(alloc, OWN, items)?;
    let numbers = numbers.as_slice();
    if !are_low(numbers) {
        return Err(StmFault::range(OWN));
    }
    if numbers.len() % 3 != 0 {
        return Err(StmFault::count(OWN));
    }
    check(numbers.len() <= 3 * MOST_OWN, StmFault::count(OWN))?;
    Ok(Some(Listed::of(logs_of(alloc, numbers)?)))
}

fn line_of(fault: &StmFault) -> u64
    ensures { result ≡ number_of_line (stm_numbers fault.now) }
{
    match fault.numbers().as_slice() {
        [] => 0,
        [number, ..] => *number,
    }
}

fn earlier(e: StmFault, f: StmFault) -> StmFault
    ensures { result ≡ earlier e f }
{
    if line_of(&e) <= line_of(&f) { e } else { f }
}

fn both<A: Drop, B: Drop>(
    a: Result<A, StmFault>,
    b: Result<B, StmFault>,
) -> Result<(A, B), StmFault>
    ensures { result ≡ both a b }
{
    match (a, b) {
        (Ok(a), Ok(b)) => Ok((a, b)),
        (Err(fault), Ok(_)) => Err(fault),
        (Ok(_), Err(fault)) => Err(fault),
        (Err(e), Err(f)) => Err(earlier(e, f)),
    }
}

/// What is asked of a stem beside the cut, or the fault of the earlier line.
fn looks_in<'a>(
    alloc: Global,
    items: &'a [Piece<'a>],
) -> Result<(bool, Option<Listed<Log>>), StmFault>
    ensures { Gives StmFault.Memory result (both (preview_in items.now) (own_in items.now)) }
{
    let preview = preview_in(alloc, items);
    let own = own_in(alloc, items);
    both(preview, own)
}

/// What is asked for: numbers as targets, or else a stem; or the fault of the earliest line.
#[tactic(auto, unfolding(crate::specs::Request::asked_in))]
fn asked_in<'a>(alloc: Global, items: &'a [Piece<'a>]) -> Result<Asked, StmFault>
    ensures { Gives StmFault.Memory result (asked_in items.now) }
{
    if is_there(items, TARGETS) {
        let targets = numbers_in::<StmFault>(alloc, TARGETS, items)?;
        return Ok(Asked::Targets(targets));
    }
    let stem = read_stem(alloc, items);
    let looks = looks_in(alloc, items);
    let (stem, (previewed, own)) = both(stem, looks)?;
    Ok(match own {
        Some(logs) => Asked::Own { stem, logs },
        None if previewed => Asked::Preview(stem),
        None => Asked::Stem(stem),
    })
}

/// What items ask for.
#[tactic(auto, unfolding(crate::specs::Request::requested))]
fn requested<'a>(alloc: Global, items: &'a [Piece<'a>]) -> Result<Option<Request>, StmFault>
    ensures asked { Gives StmFault.Memory result (requested items.now) }
    ensures range { IfOk result (λ r. IfSome r (λ q. (0 < q.harvester) × (q.harvester ≤ 64))) }
{
    if items.is_empty() {
        return Ok(None);
    }
    present(items)?;
    single(items)?;
    let harvester = harvester_in(alloc, items);
    let asked = asked_in(alloc, items);
    let (harvester, asked) = both(harvester, asked)?;
    Ok(Some(Request { harvester, asked }))
}

/// Reads the request of a line; nothing if it has no item. Refused with the first fault that applies, as a stem file
/// is, items and words counted from 1 in the line; and as `Memory` if an allocation failed.
#[tactic(auto, unfolding(crate::specs::Request::request_of))]
pub fn read_request(alloc: Global, line: &[u8]) -> Result<Option<Request>, StmFault>
    ensures asked { Gives StmFault.Memory result (request_of line.now) }
    ensures range { IfOk result (λ r. IfSome r (λ q. (0 < q.harvester) × (q.harvester ≤ 64))) }
{
    match pieces(alloc, line) {
        Ok(items) => requested(alloc, items.as_slice()),
        Err(RecordFault::Head { item }) => Err(StmFault::Head { item }),
        Err(_) => Err(StmFault::Memory),
    }
}
