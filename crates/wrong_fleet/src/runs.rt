//! Wrong bodies of runs of a whole fleet.
ghost use Rattle.std.specs.Prelude.{◌≡◌, ◌<◌, length, All};
ghost use Rattle.buck_rule.specs.Stored.{AllAnswer};
ghost use Rattle.buck_fleet.specs.Fleet.{IsSeatIn};

use buck_fleet::{Fleet, Gate, RunFault, Seat, run_fleet};
use buck_rule::Standing;
use buck_stem_shape::Stem;
use std::alloc::Global;
use std::sync::ledger::Ledger;
use std::sync::{Arc, Wait};
use std::thread::Threads;

/// No stem of a list is cut.
pub fn run_skips_stems<
    F: Fn(&Standing) -> u64 + Drop + Send,
    L: Ledger + Send + Sync,
    R: Threads + Wait + Sync,
    G: Gate + Sync,
>(
    rt: &R,
    alloc: Global,
    fleet: &Fleet<F, L>,
    seats: Vec<Seat<L>>,
    lists: &[Vec<Arc<Stem>>],
    gate: &G,
) -> Result<Vec<Seat<L>>, (RunFault, Vec<Seat<L>>)>
    requires answers { AllAnswer F.Fn }
    requires lists { length seats.items ≡ length lists.now }
    requires seats { All (IsSeatIn fleet.now) seats.items }
    requires some { 0 < length lists.now }
{
    let wrong = seats[0].kept().len();
    let seats = run_fleet(rt, alloc, fleet, seats, lists, gate)?;
    if lists[0].len() > 0 {
        let right = seats[0].kept().len();
        prove!(right != wrong);
    }
    Ok(seats)
}

/// Each seat cuts the first list.
pub fn run_of_the_first_list<
    F: Fn(&Standing) -> u64 + Drop + Send,
    L: Ledger + Send + Sync,
    R: Threads + Wait + Sync,
    G: Gate + Sync,
>(
    rt: &R,
    alloc: Global,
    fleet: &Fleet<F, L>,
    seats: Vec<Seat<L>>,
    lists: &[Vec<Arc<Stem>>],
    gate: &G,
) -> Result<Vec<Seat<L>>, (RunFault, Vec<Seat<L>>)>
    requires answers { AllAnswer F.Fn }
    requires lists { length seats.items ≡ length lists.now }
    requires seats { All (IsSeatIn fleet.now) seats.items }
    requires two { 1 < length lists.now }
{
    let before = seats[1].kept().len();
    let seats = run_fleet(rt, alloc, fleet, seats, lists, gate)?;
    if lists[0].len() != lists[1].len() {
        let right = seats[1].kept().len();
        let wrong = before.saturating_add(lists[0].len());
        prove!(right != wrong);
    }
    Ok(seats)
}

/// The seats come back in the opposite order.
pub fn run_fleet_turned_around<
    F: Fn(&Standing) -> u64 + Drop + Send,
    L: Ledger + Send + Sync,
    R: Threads + Wait + Sync,
    G: Gate + Sync,
>(
    rt: &R,
    alloc: Global,
    fleet: &Fleet<F, L>,
    seats: Vec<Seat<L>>,
    lists: &[Vec<Arc<Stem>>],
    gate: &G,
) -> Result<Vec<Seat<L>>, (RunFault, Vec<Seat<L>>)>
    requires answers { AllAnswer F.Fn }
    requires lists { length seats.items ≡ length lists.now }
    requires seats { All (IsSeatIn fleet.now) seats.items }
    requires two { 1 < length lists.now }
{
    let first = seats[0].harvester();
    let wrong = seats[1].harvester();
    let seats = run_fleet(rt, alloc, fleet, seats, lists, gate)?;
    if first != wrong {
        let right = seats[0].harvester();
        prove!(right != wrong);
    }
    Ok(seats)
}

/// The one seat, whose whole list was cut, says that it stopped.
pub fn run_stopped_is_noted_after_all_was_cut<
    F: Fn(&Standing) -> u64 + Drop + Send,
    L: Ledger + Send + Sync,
    R: Threads + Wait + Sync,
    G: Gate + Sync,
>(
    rt: &R,
    alloc: Global,
    fleet: &Fleet<F, L>,
    seats: Vec<Seat<L>>,
    lists: &[Vec<Arc<Stem>>],
    gate: &G,
) -> Result<Vec<Seat<L>>, (RunFault, Vec<Seat<L>>)>
    requires answers { AllAnswer F.Fn }
    requires lists { length seats.items ≡ length lists.now }
    requires seats { All (IsSeatIn fleet.now) seats.items }
    requires some { 0 < length lists.now }
{
    let seats = run_fleet(rt, alloc, fleet, seats, lists, gate)?;
    let right = seats[0].stopped().is_some();
    let wrong = true;
    prove!(right != wrong);
    Ok(seats)
}

/// A fault is reported although the one seat's whole list was cut.
pub fn run_stopped_after_all_was_cut<
    F: Fn(&Standing) -> u64 + Drop + Send,
    L: Ledger + Send + Sync,
    R: Threads + Wait + Sync,
    G: Gate + Sync,
>(
    rt: &R,
    alloc: Global,
    fleet: &Fleet<F, L>,
    seats: Vec<Seat<L>>,
    lists: &[Vec<Arc<Stem>>],
    gate: &G,
) -> Result<Vec<Seat<L>>, (RunFault, Vec<Seat<L>>)>
    requires answers { AllAnswer F.Fn }
    requires lists { length seats.items ≡ length lists.now }
    requires seats { All (IsSeatIn fleet.now) seats.items }
    requires one { length lists.now ≡ 1 }
{
    let before = seats[0].kept().len();
    match run_fleet(rt, alloc, fleet, seats, lists, gate) {
        Ok(seats) => Ok(seats),
        Err((fault, seats)) => {
            let right = seats[0].kept().len();
            let wrong = before.saturating_add(lists[0].len());
            prove!(right != wrong);
            Err((fault, seats))
        }
    }
}
