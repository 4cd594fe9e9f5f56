//! A run of a whole fleet: one worker for each seat.
ghost use Rattle.std.specs.Prelude.{◌≡◌, ℕ, ◌+◌, ◌<◌, ◌≤◌, length, All, IfOk, IfErr, IfNone, IfSome, None, slice_index_or};
ghost use Rattle.buck_rule.specs.Stored.{AllAnswer};
ghost use Rattle.buck_fleet.specs.Seat.{SeatParts};
ghost use Rattle.buck_fleet.specs.Fleet.{IsSeatIn};
ghost use Rattle.buck_fleet.specs.Run.{HasCut, HasRun, HaveRun, IsFirstStop};
ghost use Rattle.buck_book_postings.specs.Replies.{stems_of, stems_at};

use crate::fault::RunFault;
use crate::fleet::Fleet;
use crate::gate::Gate;
use crate::seat::{MOST_SEATS, Seat};
use buck_rule::Standing;
use buck_stem_shape::Stem;
use std::alloc::Global;
use std::sync::ledger::Ledger;
use std::sync::{Arc, Wait};
use std::thread::{Threads, for_each_mut};

/// Cuts a list in order up to the first fault, and notes in the seat why it stopped.
fn cut_all<F: Fn(&Standing) -> u64 + Drop, L: Ledger, R: Wait, G: Gate>(
    rt: &R,
    alloc: Global,
    fleet: &Fleet<F, L>,
    seat: &mut Seat<L>,
    stems: &[Arc<Stem>],
    gate: &G,
)
    requires answers { AllAnswer F.Fn }
    requires seat { IsSeatIn fleet.now seat.old }
    ensures seat { IsSeatIn fleet.now seat.new }
    ensures run { HasRun (stems_of stems.now) seat.old seat.new }
{
    for stem in stems {
        let Ok(stem) = stem.clone() else {
            seat.stopped = Some(RunFault::Memory);
            return;
        };
        match fleet.cut(rt, alloc, &mut *seat, stem, gate) {
            Ok(_reply) => {}
            Err(fault) => {
                seat.stopped = Some(RunFault::from(fault));
                return;
            }
        }
    }
    seat.stopped = None;
}

/// What stopped the lowest harvester that was stopped.
fn first_stop<L: Ledger>(seats: &[Seat<L>]) -> Option<RunFault>
    ensures none { IfNone result (All (λ s. s.stopped ≡ None) seats.now) }
    ensures some { IfSome result (IsFirstStop seats.now) }
{
    let first = seats.iter().min_by_key(|seat| match seat.stopped {
        Some(_) => seat.harvester,
        // Behind every harvester: such a seat is the first only if none was stopped.
        None => MOST_SEATS + 1,
    })?;
    first.stopped
}

/// Cuts one list of stems by each seat of a fleet, each in a thread of its own and in order. A harvester stops at its
/// first fault, and the others go on. The seats come back in the order given, also if an allocation failed; of several
/// faults that of the lowest harvester is answered.
pub fn run_fleet<
    F: Fn(&Standing) -> u64 + Drop + Send,
    L: Ledger + Send + Sync,
    R: Threads + Wait + Sync,
    G: Gate + Sync,
>(
    rt: &R,
    alloc: Global,
    fleet: &Fleet<F, L>,
    seats: Vec<Seat<L>>,
    lists: &[Vec<Arc<Stem>>],
    gate: &G,
) -> Result<Vec<Seat<L>>, (RunFault, Vec<Seat<L>>)>
    requires answers { AllAnswer F.Fn }
    requires lists { length seats.items ≡ length lists.now }
    requires seats { All (IsSeatIn fleet.now) seats.items }
    ensures ok { IfOk result (λ s. HaveRun fleet.now lists.now seats.items s.items) }
    ensures whole { IfOk result (λ s. All (λ x. x.stopped ≡ None) s.items) }
    ensures stopped { IfErr result (λ e. HaveRun fleet.now lists.now seats.items e.1.items) }
    ensures first { IfErr result (λ e. IsFirstStop e.1.items e.0) }
{
    let mut seats = seats;
    let threads = seats.len().max(1);
    for_each_mut(
        rt,
        seats.as_mut_slice(),
        threads,
        &|i: usize, seat: &mut Seat<L>|
            requires { AllAnswer F.Fn × (i < length lists.now) × IsSeatIn fleet.now seat.old }
            ensures { IsSeatIn fleet.entry.now seat.new × HasRun (stems_at lists.entry.now i) seat.old seat.new }
        { cut_all(rt, alloc, fleet, seat, lists[i].as_slice(), gate) },
    );
    match first_stop(seats.as_slice()) {
        None => Ok(seats),
        Some(fault) => Err((fault, seats)),
    }
}
