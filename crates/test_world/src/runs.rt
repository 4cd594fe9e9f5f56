//! Runs worked out by hand.
use crate::fixtures::*;
use crate::plain::opened;
use crate::playing::{Event, plays};
use std::test::Fail;

/// Harvester 2's plan is added while harvester 1 holds one of the same version, which is then stale. Harvester 1 reads the
/// old version again, and is stale a second and a third time; then it plans under the lock.
const STALE: [Event; 23] = [
    (Do(Act::Read(0), 1), OK),
    (Do(Act::Plan, 1), OK),
    (Do(Act::Read(0), 2), OK),
    (Do(Act::Plan, 2), OK),
    (Do(Act::Try, 2), OK),
    (Do(Act::Try, 1), NO),
    (Do(Act::Raise, 2), OK),
    (Do(Act::Try, 1), OK),
    (Do(Act::Try, 1), NO),
    (Do(Act::Read(0), 1), OK),
    (Do(Act::Plan, 1), OK),
    (Do(Act::Try, 1), OK),
    (Do(Act::Read(0), 1), OK),
    (Do(Act::Plan, 1), OK),
    (Do(Act::Try, 1), OK),
    (Do(Act::Read(0), 1), NO),
    (Do(Act::Locked, 1), OK),
    (Do(Act::Leave, 1), NO),
    (Do(Act::Raise, 1), OK),
    (Do(Act::Read(1), 1), NO),
    (Do(Act::Read(3), 1), NO),
    (Do(Act::Read(0), 3), NO),
    (Do(Act::Read(0), 0), NO),
];

/// Harvester 1 cuts, harvester 2 puts new targets in force while harvester 1 holds a plan, harvester 1 cuts again, and the
/// history of three is full: also for a plan that is stale.
const FULL_IN_THE_END: [Event; 17] = [
    (Do(Act::Locked, 1), OK),
    (Do(Act::Raise, 1), OK),
    (Do(Act::Read(1), 1), OK),
    (Do(Act::Plan, 1), OK),
    (Do(Act::Retarget, 2), OK),
    (Do(Act::Raise, 2), OK),
    (Do(Act::Try, 1), OK),
    (Do(Act::Read(2), 1), OK),
    (Do(Act::Plan, 1), OK),
    (Do(Act::Read(2), 2), OK),
    (Do(Act::Plan, 2), OK),
    (Do(Act::Try, 1), OK),
    (Do(Act::Locked, 2), NO),
    (Do(Act::Raise, 1), OK),
    (Do(Act::Try, 2), FULL),
    (Do(Act::Locked, 1), FULL),
    (Do(Act::Retarget, 1), FULL),
];

/// Each event that takes memory, and a try that is stale.
const TAKES_MEMORY: [Event; 13] = [
    (Do(Act::Read(0), 1), OK),
    (Do(Act::Plan, 1), OK),
    (Do(Act::Locked, 2), OK),
    (Do(Act::Raise, 2), OK),
    (Do(Act::Try, 1), OK),
    (Do(Act::Leave, 1), OK),
    (Do(Act::Locked, 1), OK),
    (Do(Act::Raise, 1), OK),
    (Do(Act::Retarget, 1), OK),
    (Do(Act::Raise, 1), OK),
    (Do(Act::Read(3), 1), OK),
    (Do(Act::Plan, 1), OK),
    (Do(Act::Try, 1), OK),
];

/// Whether a run is right in a world of two harvesters, and whether memory was refused.
fn is_right(rt: &HostRuntime, capacity: u32, run: &[Event]) -> Result<(bool, bool), Fail> {
    let kit = kit_of(rt, 1)?;
    let mut is_short = false;
    let is_right = plays(rt, &kit, opened((2, capacity, 1)), run, &mut is_short)?;
    Ok((is_right, is_short))
}

#[test]
fn stale_attempts_and_new_targets(rt: HostRuntime) -> Result<(), Fail> {
    assert!(rt; is_right(&rt, 3, &STALE)?.0 && is_right(&rt, 3, &FULL_IN_THE_END)?.0);
    Ok(())
}

/// The world is then as before, and goes on. Run with each allocation failing in turn.
#[test]
fn refused_memory_of_a_run(rt: HostRuntime) -> Result<(), Fail> {
    let (is_right, is_short) = is_right(&rt, 10, &TAKES_MEMORY)?;
    assert!(rt; is_right);
    if is_short {
        return Err(Fail::from("out of memory"));
    }
    Ok(())
}
