//! Fleets in which the first plans of all harvesters wait for each other, so that no two run on one thread.
use crate::judge::{counts_of, degree_of, worth_of};
use buck_fleet::Closed;
use fixture_plays::fixtures::*;
use fixture_plays::stage::Meeting;
use std::alloc::Global;
use std::sync::Wait;
use std::test::Fail;
use std::thread::Threads;

/// Whether there are so many entries, each of two logs of the third class, a sheet after each, and they are worth this.
fn has_totals(closed: &Closed, entries: usize, worth: u64) -> bool {
    let postings = closed.entries();
    postings.len() == entries
        && closed.sheets().len() == entries.saturating_add(1)
        && has_all_kept(closed)
        && counts_of(postings) == [0, 0, (entries as u64).saturating_mul(2), 0]
        && degree_of(postings) == Some(2500)
        && worth_of(postings) == worth
}

/// Whether so many harvesters meet, and cut so many stems each that are together worth this.
fn meet<R: Threads + Wait + Sync>(
    rt: &R,
    alloc: Global,
    seats: usize,
    number: usize,
    worth: u64,
) -> Result<bool, Fail> {
    let meeting = Meeting::of(seats as u64);
    let lists = lists_of(alloc, seats, number, 61)?;
    let closed = whole(steady_evening(rt, alloc, 100, lists.as_slice(), &meeting)?)?;
    Ok(meeting.have_met() && has_totals(&closed, seats.saturating_mul(number), worth))
}

#[test]
fn fleets_that_meet(rt: HostRuntime) -> Result<(), Fail> {
    assert!(rt; meet(&rt, rt.alloc(), 2, 10, 3_534_288_000)?);
    assert!(rt; meet(&rt, rt.alloc(), 64, 1, 11_309_721_600)?);
    Ok(())
}
