//! Refused memory: history and kept lists are then as before. Run with each allocation failing in turn.
use buck_fleet::{Closed, NoGate, RunFault};
use fixture_plays::fixtures::*;
use fixture_plays::play::{Do, PlayFault};
use fixture_plays::stage::Stage;
use fixture_plays::turns::*;
use std::alloc::Global;
use std::sync::Wait;
use std::test::Fail;
use std::thread::Threads;

/// Whether a cut, a plan of its own, a demand and a cut are the postings, and are kept.
fn has_one_of_each(closed: &Closed) -> bool {
    let wants = [
        Want::Cut(OneLog(0, 4000, LONG)),
        Want::Cut(OneLog(1, 3000, 132_535_800)),
        Want::Demand(2, [0, 0, 0, 4]),
        Want::Cut(OneLog(3, 4000, 235_620_000)),
    ];
    let wanted = [400, 500, 300, 1200];
    let sheets = [
        BASE,
        [600, 750, 900, 400],
        [600, 750, 300, 400],
        wanted,
        wanted,
    ];
    has_postings(closed, wants.as_slice())
        && has_sheets(closed, sheets.as_slice())
        && has_all_kept(closed)
}

/// Whether each call is made once more that is refused for want of memory, and the history is that of ample memory then.
fn goes_on<R: Threads + Wait + Sync>(rt: &R, alloc: Global, stage: &Stage) -> Result<bool, Fail> {
    let whats = [
        Do::Cut(41),
        Do::Commit(41),
        Do::Retarget(&[0, 0, 0, 4]),
        Do::Cut(41),
    ];
    let closed = step_play(rt, alloc, (1, 500, 100), &whats, stage)?;
    Ok(has_one_of_each(&closed))
}

#[test]
fn refused_memory_of_each_call(rt: HostRuntime) -> Result<(), Fail> {
    let stage = Stage::patient(rt.alloc())?;
    assert!(rt; goes_on(&rt, rt.alloc(), &stage)?);
    if stage.was_refused() {
        return Err(Fail::from(PlayFault::Memory));
    }
    Ok(())
}

/// Whether a run of two lists of four stems that stopped so may have these entries, which the two seats kept: if one
/// harvester was refused memory, the other went on to the end of its list.
fn may_have(closed: &Closed, stopped: Option<RunFault>) -> bool {
    let kept = closed.kept();
    if kept.len() != 2 || !has_all_kept(closed) {
        return false;
    }
    let (one, two) = (kept[0].len(), kept[1].len());
    match stopped {
        None => one == 4 && two == 4,
        Some(RunFault::Memory) => one.min(two) < 4 && one.max(two) == 4,
        Some(RunFault::Full) => false,
    }
}

/// Whether a run in which a harvester is refused memory stops it, and the other goes on: all seats come back, and the
/// fleet closes well. And whether one was refused.
fn stops<R: Threads + Wait + Sync>(rt: &R, alloc: Global) -> Result<(bool, bool), Fail> {
    let lists = lists_of(alloc, 2, 4, 61)?;
    let evening = steady_evening(rt, alloc, 100, lists.as_slice(), &NoGate)?;
    let is_right = may_have(&evening.closed, evening.stopped);
    Ok((is_right, evening.stopped.is_some()))
}

#[test]
fn refused_memory_of_a_run(rt: HostRuntime) -> Result<(), Fail> {
    let (is_right, is_stopped) = stops(&rt, rt.alloc())?;
    assert!(rt; is_right);
    if is_stopped {
        return Err(Fail::from(RunFault::Memory));
    }
    Ok(())
}
