//! Days of a fleet, and what is expected of its history.
ghost use Rattle.buck_rule.specs.Stored.{AllAnswer};

use crate::callers::{DayFault, Evening, till_evening};
use buck_book_postings::Posting;
use buck_fleet::{Closed, Gate};
use buck_rule::{Rule, Standing, steady};
use buck_stem_shape::Stem;
use buck_value::{Log, Sheet};
use fixture_samples::{saw_instruction, uniform_stem};
use std::alloc::Global;
use std::sync::{Arc, Wait};
use std::test::Fail;
use std::thread::Threads;

/// What a stem of 4,000 mm and 250 mm is worth under the base sheet.
pub const LONG: u64 = 157_080_000;

/// The base prices of the saw instruction.
pub const BASE: [u32; 4] = [400, 500, 600, 800];

/// An entry of harvester 1 with one log at the butt: its version, the log's length in mm, and its worth.
#[derive(Clone, Copy)]
pub struct OneLog(pub u32, pub u32, pub u64);

/// A posting of harvester 1.
#[derive(Clone, Copy)]
pub enum Want {
    Cut(OneLog),
    /// A demand of this version and these targets.
    Demand(u32, [u32; 4]),
}

/// A list of so many stems, each with so many samples of 250 mm.
pub fn list_of(alloc: Global, number: usize, samples: usize) -> Result<Vec<Arc<Stem>>, Fail> {
    let stem = Arc::new(alloc, uniform_stem(alloc, samples, 250)?)?;
    let mut list = Vec::new(alloc);
    for _ in 0..number {
        list.push(stem.clone()?)?;
    }
    Ok(list)
}

/// So many lists, each of so many stems with so many samples of 250 mm.
pub fn lists_of(
    alloc: Global,
    seats: usize,
    number: usize,
    samples: usize,
) -> Result<Vec<Vec<Arc<Stem>>>, Fail> {
    let mut lists = Vec::new(alloc);
    for _ in 0..seats {
        lists.push(list_of(alloc, number, samples)?)?;
    }
    Ok(lists)
}

/// A run by a rule, under the saw instruction with this period in stems, limit per mille and capacity, seen by a gate.
pub fn saw_evening<F: Fn(&Standing) -> u64 + Drop + Send, R: Threads + Wait + Sync, G: Gate + Sync>(
    rt: &R,
    alloc: Global,
    rule: Rule<F>,
    saw: (u32, u32, u32),
    lists: &[Vec<Arc<Stem>>],
    gate: &G,
) -> Result<Evening, Fail>
    requires { AllAnswer F.Fn }
{
    if lists.len() == 0 {
        return Err(Fail::new("no list"));
    }
    if lists.len() > 64 {
        return Err(Fail::new("more than 64 lists"));
    }
    let instruction = saw_instruction(alloc, saw.0, saw.1, "1 1 1 1")?;
    Ok(till_evening(rt, alloc, instruction, rule, saw.2, lists, gate)?)
}

/// The closed fleet of a run in which all stems were cut.
pub fn whole(evening: Evening) -> Result<Closed, Fail> {
    match evening.stopped {
        None => Ok(evening.closed),
        Some(fault) => Err(Fail::from(DayFault::Run(fault))),
    }
}

/// Such a run in periods of one stem, by the steady rule.
pub fn steady_evening<R: Threads + Wait + Sync, G: Gate + Sync>(
    rt: &R,
    alloc: Global,
    capacity: u32,
    lists: &[Vec<Arc<Stem>>],
    gate: &G,
) -> Result<Evening, Fail> {
    let rule = Rule::new(|s: &Standing| steady(s));
    saw_evening(rt, alloc, rule, (1, 0, capacity), lists, gate)
}

/// Whether a posting is this one, of harvester 1.
fn is_wanted(posting: &Posting, number: usize, want: &Want) -> bool {
    match (posting, want) {
        (Posting::Cut(entry), Want::Cut(one)) => {
            let log = Log {
                start: 0,
                length: one.1,
                assortment: 0,
            };
            entry.harvester == 1
                && entry.number as usize == number
                && entry.version == one.0
                && entry.cutting.logs.as_slice() == [log].as_slice()
                && entry.worth == one.2
        }
        (Posting::Demand(demand), Want::Demand(version, targets)) => {
            demand.harvester == 1
                && demand.number as usize == number
                && demand.version == *version
                && demand.targets.as_slice() == targets.as_slice()
        }
        _ => false,
    }
}

/// Whether these are all postings.
pub fn has_postings(closed: &Closed, wants: &[Want]) -> bool {
    let postings = closed.entries();
    if postings.len() != wants.len() {
        return false;
    }
    for (i, posting) in postings.iter().enumerate() {
        if i >= wants.len() || !is_wanted(posting, i + 1, &wants[i]) {
            return false;
        }
    }
    true
}

/// Whether a sheet has this version and these prices.
fn is_sheet(sheet: &Sheet, version: usize, prices: &[u32]) -> bool {
    sheet.version() as usize == version && sheet.prices() == prices
}

/// Whether a sheet is there, and has this version and these prices.
pub fn is_shown(sheet: &Option<Arc<Sheet>>, version: usize, prices: [u32; 4]) -> bool {
    match sheet {
        Some(sheet) => is_sheet(sheet, version, prices.as_slice()),
        None => false,
    }
}

/// Whether these are all sheets.
pub fn has_sheets(closed: &Closed, wants: &[[u32; 4]]) -> bool {
    let sheets = closed.sheets();
    if sheets.len() != wants.len() {
        return false;
    }
    for i in 0..sheets.len() {
        if !is_sheet(&sheets[i], i, wants[i].as_slice()) {
            return false;
        }
    }
    true
}

/// Whether there are as many postings as the seats kept replies.
pub fn has_all_kept(closed: &Closed) -> bool {
    let mut kept = 0usize;
    for list in closed.kept() {
        kept = kept.saturating_add(list.len());
    }
    kept == closed.entries().len()
}
