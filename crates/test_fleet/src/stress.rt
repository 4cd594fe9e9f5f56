//! Many harvesters at once: 2,000 stems, and a plain slow judge of the history.
use crate::judge::is_right;
use buck_fleet::{Closed, NoGate};
use buck_rule::{Rule, Standing, step};
use buck_stem_shape::Stem;
use fixture_plays::fixtures::*;
use fixture_samples::uniform_stem;
use std::alloc::Global;
use std::sync::{Arc, Wait};
use std::test::Fail;
use std::thread::Threads;

/// How many stems all lists have together.
const STEMS: usize = 2000;

/// Numbers of samples and diameters of stems, each of one diameter.
const SHAPES: [(usize, u16); 5] = [(41, 250), (61, 150), (31, 320), (75, 210), (52, 180)];

/// A list of so many stems, of all shapes in turn from one on.
fn mixed(alloc: Global, first: usize, number: usize) -> Result<Vec<Arc<Stem>>, Fail> {
    let mut list = Vec::with_capacity(alloc, number)?;
    for i in 0..number {
        let (samples, diameter) = SHAPES[first.saturating_add(i) % 5];
        list.push(Arc::new(alloc, uniform_stem(alloc, samples, diameter)?)?)?;
    }
    Ok(list)
}

/// The stems of a list, if so many lists share all of them out: one more in the first, if they don't come out even.
fn share_of(seat: usize, seats: usize) -> usize {
    let left = STEMS.saturating_sub(seat).saturating_add(seats);
    left.saturating_sub(1).checked_div(seats).unwrap_or(0)
}

/// Lists that share all stems out.
fn all_lists(alloc: Global, seats: usize) -> Result<Vec<Vec<Arc<Stem>>>, Fail> {
    let mut lists = Vec::with_capacity(alloc, seats)?;
    for seat in 0..seats {
        lists.push(mixed(alloc, seat, share_of(seat, seats))?)?;
    }
    Ok(lists)
}

/// Whether all stems were cut, each seat kept its replies, and the judge finds the history right, but finds fault with it
/// if it is given another period or limit.
fn is_whole(closed: &Closed, period: u32) -> bool {
    let period = period as usize;
    closed.entries().len() == STEMS
        && has_all_kept(closed)
        && is_right(closed, period, 500)
        && !is_right(closed, period, 499)
        && !is_right(closed, period.saturating_add(1), 500)
        && !is_right(closed, period.saturating_add(6), 500)
}

/// Whether a day of so many harvesters is so, with this period and a limit of 500 per mille, by the step rule.
fn goes_well<R: Threads + Wait + Sync>(
    rt: &R,
    alloc: Global,
    seats: usize,
    period: u32,
) -> Result<bool, Fail> {
    let lists = all_lists(alloc, seats)?;
    let rule = Rule::new(|s: &Standing| step(s));
    let saw = (period, 500, 3000);
    let closed = whole(saw_evening(rt, alloc, rule, saw, lists.as_slice(), &NoGate)?)?;
    Ok(is_whole(&closed, period))
}

/// Numbers of harvesters, and periods.
const DAYS: [(usize, u32); 4] = [(4, 7), (4, 1), (64, 7), (64, 1)];

#[test]
fn many_seats(rt: HostRuntime) -> Result<(), Fail> {
    for (seats, period) in DAYS {
        assert!(rt; goes_well(&rt, rt.alloc(), seats, period)?);
    }
    Ok(())
}
