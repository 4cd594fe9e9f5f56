//! Whether a journal is lawful.
ghost use Rattle.std.specs.Prelude.{◌≡◌, ◌≢◌, ◌+◌, ◌<◌, ◌≤◌, OnOk, IfOk, IfErr, IfNone, IfSome, length, map, Err};
ghost use Rattle.std.specs.Thread.{IsSync};
ghost use Rattle.buck_book_postings.specs.History.{IsLawful};
ghost use Rattle.buck_book_postings.specs.Walk.{walk_of};
ghost use Rattle.buck_book_journal.specs.Journal.{history_of, Begins};
ghost use Rattle.buck_book_replay.specs.Replay.{IsFaultAt, IsFirstFault};
ghost use Rattle.buck_book_journal.specs.declared.replay_fault.ReplayFault.TheVariants.{Memory};
ghost use Rattle.buck_book_replay.specs.inner.Sheets.{AreMade};
ghost use Rattle.buck_book_replay.specs.Order.{IsOrdered};
ghost use Rattle.buck_book_replay.specs.inner.Replay.{along, sheet_then, IsPassed, IsFound};
ghost use Rattle.buck_book_postings.specs.declared.posting.TheConstants.{MOST_POSTINGS};

use crate::case::Case;
use crate::checks::{check_end, check_posting, sheet_in_force, version_of};
use crate::outvalued::{first_by_size, first_doubtful};
use crate::sheets::first_sheets;
use buck_apt_instruction::Instruction;
use buck_book_journal::{Journal, ReplayFault};
use buck_book_postings::{Posting, Walk};
use buck_value::Sheet;
use std::alloc::Global;
use std::sync::Arc;
use std::thread;
use std::thread::Threads;

/// The sheet that the posting which is next may be passed under.
fn check_next(
    alloc: Global,
    case: &Case<'_, '_>,
    walk: &Walk<'_>,
    kept: Option<Arc<Sheet>>,
    posting: &Posting,
) -> Result<Arc<Sheet>, ReplayFault>
    requires instruction { walk.now.instruction ≡ case.now.instruction }
    requires none { IfNone kept (Begins (along walk.now case.now.sheets) walk.now.at) }
    requires kept { IfSome kept (λ s. (Begins (along walk.now case.now.sheets) walk.now.at → ⊥)
        → s.value ≡ sheet_then (along walk.now case.now.sheets) walk.now.at) }
    ensures right { OnOk result (IsPassed (along walk.now case.now.sheets) walk.now.at posting.now) }
    ensures sheet { IfOk result (λ s. s.value ≡ sheet_then (along walk.now case.now.sheets) walk.now.at) }
    ensures refused { IfErr result (λ fault. fault ≢ Memory
        → IsFaultAt (along walk.now case.now.sheets) walk.now.at posting.now fault) }
{
    let sheet = sheet_in_force(alloc, case, walk, kept)?;
    check_posting(&sheet, walk, posting)?;
    Ok(sheet)
}

/// A place of a journal that is in order up to there: all is right before it, but that other logs may be worth more
/// than those of a cut.
#[derive(Drop)]
pub struct Stop<'w> {
    /// The place, with all that the postings before it add up to.
    pub walk: Walk<'w>,
    /// The fault there; Ok if that is the end, and right.
    pub outcome: Result<(), ReplayFault>,
}

/// The place where a walk is stopped by a fault; none if memory ran out.
fn stopped(walk: Walk<'_>, fault: ReplayFault) -> Result<Stop<'_>, buck_record::Memory>
    ensures { IfOk result (λ stop. (stop.walk ≡ walk.entry) × (stop.outcome ≡ Err fault) × (fault ≢ Memory)) }
{
    match fault {
        ReplayFault::Memory => Err(buck_record::Memory),
        _ => Ok(Stop {
            walk,
            outcome: Err(fault),
        }),
    }
}

/// Goes through a journal for all that depends on its order, and leaves out what takes time: whether a cut is
/// outvalued.
fn walk_in_order<'w>(alloc: Global, case: &Case<'w, '_>) -> Result<Stop<'w>, buck_record::Memory>
    requires { length case.now.postings ≤ MOST_POSTINGS }
    ensures walk { IfOk result (λ stop.
        stop.walk ≡ walk_of case.now.instruction case.now.postings stop.walk.at) }
    ensures ordered { IfOk result (λ stop. IsOrdered case.now stop.walk.at stop.outcome) }
{
    // The search for outvalued cuts takes most of the time and needs no other posting, so threads can share it. They
    // couldn't share one pass for everything.
    let mut walk = Walk::opening(alloc, case.instruction(), case.postings())?;
    let mut kept = None;
    loop {
        let Some(posting) = walk.next() else {
            let outcome = check_end(case, &walk);
            return Ok(Stop { walk, outcome });
        };
        match check_next(alloc, case, &walk, kept, posting) {
            Ok(sheet) => {
                walk = walk.pass(&sheet, posting)?;
                kept = Some(sheet);
            }
            Err(fault) => return stopped(walk, fault),
        }
    }
}

/// How far a journal is in order, and what is wrong there.
#[derive(Clone, Copy)]
struct Ordered {
    until: usize,
    outcome: Result<(), ReplayFault>,
}

/// What comes of a journal, by the first doubtful posting as far as it is in order.
#[tactic(auto, using(crate::proofs::Judged::answer_of_walk, crate::proofs::Judged::first_is_met))]
fn judged(case: &Case<'_, '_>, ordered: Ordered, doubtful: Option<usize>) -> Result<(), ReplayFault>
    requires ordered { IsOrdered case.now ordered.until ordered.outcome }
    requires found { IsFound case.now 0 ordered.until doubtful }
    ensures end { OnOk result (ordered.until ≡ length case.now.postings) }
    ensures lawful { OnOk result (IsLawful case.now) }
    ensures refused { IfErr result (IsFirstFault case.now) }
{
    let _valid = case.instruction().limit();
    let Some(at) = doubtful else {
        return ordered.outcome;
    };
    // Of one posting all other faults come before this one.
    if at >= ordered.until {
        return ordered.outcome;
    }
    Err(ReplayFault::Outvalued { at })
}

/// Goes through a journal of at most 1,000,000 postings as [`replay`] does, but doesn't look for cuts that are
/// outvalued, which takes most of its time: up to the first place where something else is wrong, or to the end. Refused
/// as `Memory` alone.
pub fn replay_in_order<'w>(
    alloc: Global,
    instruction: &'w Arc<Instruction>,
    journal: &'w Journal,
) -> Result<Stop<'w>, buck_record::Memory>
    requires { length journal.now.entries ≤ MOST_POSTINGS }
    ensures walk { IfOk result (λ stop.
        stop.walk ≡ walk_of instruction.now.value journal.now.entries stop.walk.at) }
    ensures ordered { IfOk result (λ stop.
        IsOrdered (history_of instruction.now.value journal.now) stop.walk.at stop.outcome) }
{
    let made = first_sheets(alloc, instruction, journal.sheets.as_slice())?;
    walk_in_order(alloc, &Case::of(instruction, journal, made.as_slice()))
}

/// The place after the last posting of a journal of at most 1,000,000, if it is lawful for an instruction: what all
/// of it adds up to. Refused as [`replay`] refuses.
pub fn replay_to_end<'w>(
    alloc: Global,
    instruction: &'w Arc<Instruction>,
    journal: &'w Journal,
) -> Result<Walk<'w>, ReplayFault>
    requires { length journal.now.entries ≤ MOST_POSTINGS }
    ensures end { IfOk result (λ w. w
        ≡ walk_of instruction.now.value journal.now.entries (length journal.now.entries)) }
    ensures lawful { OnOk result (IsLawful (history_of instruction.now.value journal.now)) }
    ensures refused { IfErr result (λ e.
        e ≢ Memory → IsFirstFault (history_of instruction.now.value journal.now) e) }
{
    let made = first_sheets(alloc, instruction, journal.sheets.as_slice())?;
    let case = Case::of(instruction, journal, made.as_slice());
    let Stop { walk, outcome } = walk_in_order(alloc, &case)?;
    let until = walk.at();
    let doubtful = first_doubtful(alloc, &case, 0, until)?;
    judged(&case, Ordered { until, outcome }, doubtful)?;
    Ok(walk)
}

/// Whether a journal of at most 1,000,000 postings is lawful for an instruction: each cutting is one that none
/// outvalues under the sheet in force there, and the prices move only by the price relation, with the targets in force
/// and with what was cut before. Any journal may be asked of. Refused by the first fault that stands in it, as
/// [`ReplayFault`] says, and as `Memory` if an allocation failed.
pub fn replay(
    alloc: Global,
    instruction: &Arc<Instruction>,
    journal: &Journal,
) -> Result<(), ReplayFault>
    requires { length journal.now.entries ≤ MOST_POSTINGS }
    ensures lawful { OnOk result (IsLawful (history_of instruction.now.value journal.now)) }
    ensures refused { IfErr result (λ e.
        e ≢ Memory → IsFirstFault (history_of instruction.now.value journal.now) e) }
{
    let _ = replay_to_end(alloc, instruction, journal)?;
    Ok(())
}

/// Goes through a journal in order, and then looks for the first doubtful posting before a place.
fn walk_and_search(
    alloc: Global,
    case: &Case<'_, '_>,
    to: usize,
) -> Result<(Ordered, Option<usize>), buck_record::Memory>
    requires few { length case.now.postings ≤ MOST_POSTINGS }
    requires within { to ≤ length case.now.postings }
    ensures { IfOk result (λ both.
        IsOrdered case.now both.0.until both.0.outcome × IsFound case.now 0 to both.1) }
{
    let Stop { walk, outcome } = walk_in_order(alloc, case)?;
    let until = walk.at();
    let doubtful = first_doubtful(alloc, case, 0, to)?;
    Ok((Ordered { until, outcome }, doubtful))
}

/// The fewest postings that are worth a thread of their own.
const FEWEST: usize = 64;

/// How many postings a thread searches that doesn't go through the journal.
fn size_of_part(count: usize, threads: usize) -> usize
    requires threads { 0 < threads }
    requires few { count ≤ MOST_POSTINGS }
    ensures { 0 < result }
{
    // A tenth more than its share: the thread that walks in order searches so much less.
    count * 11 / 10 / threads + FEWEST
}

/// Goes through a journal in order, and looks for the first doubtful one of its postings, in at most so many threads at
/// once. One goes through the journal, which takes about a tenth of the time of a search of all, and then searches the
/// first postings; the others search the rest, so many each.
#[tactic(auto, using(crate::proofs::Judged::joined))]
fn walk_beside_search<T: Threads + Sync>(
    rt: &T,
    alloc: Global,
    threads: usize,
    instruction: &Arc<Instruction>,
    journal: &Journal,
    made: &[Arc<Sheet>],
) -> Result<(Ordered, Option<usize>), buck_record::Memory>
    requires threads { 0 < threads }
    requires few { length journal.now.entries ≤ MOST_POSTINGS }
    requires made { AreMade instruction.now.value journal.now.sheets (map (λ a. a.value) made.now) }
    ensures { IfOk result (λ both.
        IsOrdered (history_of instruction.now.value journal.now) both.0.until both.0.outcome
        × IsFound (history_of instruction.now.value journal.now) 0 both.0.until both.1) }
{
    let count = journal.entries.len();
    let size = size_of_part(count, threads);
    let front = count.saturating_sub(size.saturating_mul(threads - 1));
    let (first, later) = thread::join(
        rt,
        || -> Result<(Ordered, Option<usize>), buck_record::Memory>
            requires { (length journal.now.entries ≤ MOST_POSTINGS) × (front ≤ length journal.now.entries)
                × AreMade instruction.now.value journal.now.sheets (map (λ a. a.value) made.now) }
            ensures { IfOk result (λ both.
                IsOrdered (history_of instruction.entry.now.value journal.entry.now) both.0.until both.0.outcome
                × IsFound (history_of instruction.entry.now.value journal.entry.now) 0 front both.1) }
        { walk_and_search(alloc, &Case::of(instruction, journal, made), front) },
        || -> Result<Option<usize>, buck_record::Memory>
            requires { IsSync T.row × (0 < size) × (front ≤ length journal.now.entries)
                × AreMade instruction.now.value journal.now.sheets (map (λ a. a.value) made.now) }
            ensures { IfOk result (IsFound (history_of instruction.entry.now.value journal.entry.now) front
                (length journal.entry.now.entries)) }
        {
            first_by_size(
                rt,
                alloc,
                size,
                &Case::of(instruction, journal, made),
                front,
            )
        },
    );
    // An earlier find decides, even if a later part was refused memory.
    let (ordered, first) = first?;
    if first.is_some() {
        return Ok((ordered, first));
    }
    Ok((ordered, later?))
}

/// [`replay`] in at most so many threads at once. One goes through the postings in order, while the others look which
/// cut is outvalued, each in a run of neighbours. The answer is that of [`replay`], whatever the number, or `Memory` if
/// an allocation failed and no part before it has found one. A short journal is left to one thread, and so is one whose
/// versions go back: a search beside the walk could turn its planner to another sheet at each of the postings.
pub fn replay_in_parts<T: Threads + Sync>(
    rt: &T,
    alloc: Global,
    threads: usize,
    instruction: &Arc<Instruction>,
    journal: &Journal,
) -> Result<(), ReplayFault>
    requires threads { 0 < threads }
    requires few { length journal.now.entries ≤ MOST_POSTINGS }
    ensures lawful { OnOk result (IsLawful (history_of instruction.now.value journal.now)) }
    ensures refused { IfErr result (λ e.
        e ≢ Memory → IsFirstFault (history_of instruction.now.value journal.now) e) }
{
    let count = journal.entries.len();
    if count <= size_of_part(count, threads) {
        return replay(alloc, instruction, journal);
    }
    // Versions don't go back in a lawful journal. If they do, a search takes ten seconds for 200,000 postings under
    // two sheets in alternation.
    if !journal.entries.as_slice().is_sorted_by_key(version_of) {
        return replay(alloc, instruction, journal);
    }
    let made = first_sheets(alloc, instruction, journal.sheets.as_slice())?;
    let made = made.as_slice();
    let (ordered, doubtful) = walk_beside_search(rt, alloc, threads, instruction, journal, made)?;
    judged(&Case::of(instruction, journal, made), ordered, doubtful)
}
