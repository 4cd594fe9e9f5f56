//! Which cuts are outvalued: each is judged by itself, so neighbours can be in several threads, before it is known
//! whether they stand in order.
ghost use Rattle.std.specs.Prelude.{◌≡◌, ◌<◌, ◌≤◌, ◌+◌, ◌^◌, Bool, true, false, IfOk, length};
ghost use Rattle.buck_book_postings.specs.Posting.{planned_version};
ghost use Rattle.buck_book_postings.specs.History.{sheet_at};
ghost use Rattle.buck_book_replay.specs.inner.Sheets.{IsMissing};
ghost use Rattle.buck_book_replay.specs.inner.Replay.{IsDoubtful, IsFound};

use crate::case::Case;
use crate::checks::version_of;
use buck_book_postings::Posting;
use buck_dp::Planner;
use buck_record::Memory;
use std::alloc::Global;
use std::thread;
use std::thread::Threads;

/// Turns a planner to the sheet of a version, and says whether there is one.
fn turn_to(
    alloc: Global,
    case: &Case<'_, '_>,
    planner: &mut Planner,
    version: u32,
) -> Result<bool, Memory>
    requires { planner.old ≡ sheet_at case.now.instruction case.now.sheets planner.old.version }
    ensures kept { IfOk result (λ there.
        planner.new ≡ sheet_at case.now.instruction case.now.sheets planner.new.version) }
    ensures turned { IfOk result (λ there.
        there ≡ true → planner.new ≡ sheet_at case.now.instruction case.now.sheets version) }
    ensures none { IfOk result (λ there.
        there ≡ false → IsMissing case.now.instruction case.now.sheets version) }
{
    if planner.sheet().version() == version {
        return Ok(true);
    }
    let Some(sheet) = case.sheet(alloc, version)? else {
        return Ok(false);
    };
    planner.renew(alloc, sheet)?;
    Ok(true)
}

/// Whether a posting is outvalued under the sheet of its version, to which it turns a planner, or has no such sheet.
fn is_doubtful(
    alloc: Global,
    case: &Case<'_, '_>,
    planner: &mut Planner,
    posting: &Posting,
) -> Result<bool, Memory>
    requires { planner.old ≡ sheet_at case.now.instruction case.now.sheets planner.old.version }
    ensures kept { IfOk result (λ doubtful.
        planner.new ≡ sheet_at case.now.instruction case.now.sheets planner.new.version) }
    ensures doubtful { IfOk result (IsDoubtful case.now posting.now) }
{
    if !turn_to(alloc, case, planner, version_of(posting))? {
        // A search can't know what is in order. The walk stops here or before, and its fault is the one that counts.
        return Ok(true);
    }
    let Posting::Cut(entry) = posting else {
        return Ok(false);
    };
    let (_best, most) = planner.best(alloc, &entry.stem)?;
    Ok(most > entry.worth)
}

/// The first posting from one place to before another that is doubtful: outvalued under the sheet of its version, or
/// without one.
#[tactic(auto, using(std::proofs::lemmas::Option::slice_get_read, crate::proofs::Judged::none_more))]
pub(crate) fn first_doubtful(
    alloc: Global,
    case: &Case<'_, '_>,
    from: usize,
    to: usize,
) -> Result<Option<usize>, Memory>
    requires { to ≤ length case.now.postings }
    ensures { IfOk result (IsFound case.now from to) }
{
    if from >= to {
        return Ok(None);
    }
    let postings = case.postings();
    let Some(sheet) = case.sheet(alloc, version_of(&postings[from]))? else {
        return Ok(Some(from));
    };
    let mut planner = Planner::make(alloc, sheet)?;
    for at in from..to {
        if is_doubtful(alloc, case, &mut planner, &postings[at])? {
            return Ok(Some(at));
        }
    }
    Ok(None)
}

/// [`first_doubtful`] from a place to the end, with each run of so many neighbours in a thread of its own.
#[tactic(auto, using(crate::proofs::Judged::joined))]
pub(crate) fn first_by_size<T: Threads + Sync>(
    rt: &T,
    alloc: Global,
    size: usize,
    case: &Case<'_, '_>,
    from: usize,
) -> Result<Option<usize>, Memory>
    requires size { 0 < size }
    requires within { from ≤ length case.now.postings }
    ensures { IfOk result (IsFound case.now from (length case.now.postings)) }
{
    let find = |start: usize, part: &[Posting]| -> Result<Option<usize>, Memory>
        requires { (from + start + length part.now ≤ length case.now.postings)
            × (length case.now.postings < 2 ^ 64) }
        ensures { IfOk result
            (IsFound case.entry.now (from + start) (from + start + length part.now)) }
    { first_doubtful(alloc, case, from + start, from + start + part.len()) };
    let found = thread::map_chunks(rt, alloc, &case.postings()[from..], size, &find)?;
    // In the journal's order: the first find is the least, and what is behind it doesn't count.
    for k in 0..found.len() {
        let Ok(first) = &found[k] else {
            return Err(Memory);
        };
        match first {
            Some(at) => return Ok(Some(*at)),
            None => {}
        }
    }
    Ok(None)
}
