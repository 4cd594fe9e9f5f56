//! Fleets.
ghost use Rattle.std.specs.Prelude.{All, length, ◌≡◌};
ghost use Rattle.buck_fleet.specs.Crew.{IsCrew, parts_of};
ghost use Rattle.buck_fleet.specs.Fleet.{IsSeatIn};
ghost use Rattle.buck_rule.specs.Stored.{AllAnswer};

use buck_apt::Instruction;
use buck_board::Snapshot;
use buck_book::{CutFault, Kept, Plan};
use buck_fleet::{
    CloseFault, Closed, DemandReply, Fleet, Gate, OpenFault, Reply, RetargetFault, RunFault, Seat,
    TryFault,
};
use buck_rule::{Rule, Standing};
use buck_stem::Stem;
use std::alloc::Global;
use std::sync::ledger::{Blank, Ledger};
use std::sync::{Arc, Wait};
use std::thread::Threads;

/// `buck_fleet::Fleet::open`.
pub fn fleet_open<F: Fn(&Standing) -> u64 + Drop, L: Ledger, R: Wait>(
    rt: &R,
    alloc: Global,
    blank: Blank,
    instruction: Arc<Instruction>,
    rule: Rule<F>,
    seats: u32,
    capacity: u32,
) -> Result<(Fleet<F, L>, Vec<Seat<L>>), OpenFault>
    requires blank { (blank.name ≡ L.name) × (blank.parts ≡ L.parts) × (blank.parts ≡ 64) }
{
    Fleet::open(rt, alloc, blank, instruction, rule, seats, capacity)
}

/// `buck_fleet::Seat`: `harvester`, `seen` and `kept`; `buck_fleet::Fleet::snapshot`.
pub fn seat<'a, F, L: Ledger>(fleet: &'a Fleet<F, L>, seat: &mut Seat<L>) -> Option<Snapshot<'a>>
    requires seat { IsSeatIn fleet.now seat.old }
{
    let _harvester: u32 = seat.harvester();
    let _seen: u32 = seat.seen();
    let _kept: &[Kept] = seat.kept();
    fleet.snapshot(seat)
}

/// `buck_fleet::Fleet`: `try_commit` and `retarget`.
pub fn fleet_commits<F: Fn(&Standing) -> u64 + Drop, L: Ledger, R: Wait>(
    fleet: &Fleet<F, L>,
    rt: &R,
    alloc: Global,
    seat: &mut Seat<L>,
    plan: Plan,
    targets: Arc<Vec<u32>>,
) -> (Result<Reply, TryFault>, Result<DemandReply, RetargetFault>)
    requires answers { AllAnswer F.Fn }
    requires seat { IsSeatIn fleet.now seat.old }
{
    let committed = fleet.try_commit(rt, alloc, &mut *seat, plan);
    let demanded = fleet.retarget(rt, alloc, seat, targets);
    (committed, demanded)
}

/// `buck_fleet::Fleet::cut`.
pub fn fleet_cut<F: Fn(&Standing) -> u64 + Drop, L: Ledger, R: Wait, G: Gate>(
    fleet: &Fleet<F, L>,
    rt: &R,
    alloc: Global,
    seat: &mut Seat<L>,
    stem: Arc<Stem>,
    gate: &G,
) -> Result<Reply, CutFault>
    requires answers { AllAnswer F.Fn }
    requires seat { IsSeatIn fleet.now seat.old }
{
    fleet.cut(rt, alloc, seat, stem, gate)
}

/// `buck_fleet::run_fleet`.
pub fn run_fleet<
    F: Fn(&Standing) -> u64 + Drop + Send,
    L: Ledger + Send + Sync,
    R: Threads + Wait + Sync,
    G: Gate + Sync,
>(
    rt: &R,
    alloc: Global,
    fleet: &Fleet<F, L>,
    seats: Vec<Seat<L>>,
    lists: &[Vec<Arc<Stem>>],
    gate: &G,
) -> Result<Vec<Seat<L>>, (RunFault, Vec<Seat<L>>)>
    requires answers { AllAnswer F.Fn }
    requires lists { length seats.items ≡ length lists.now }
    requires seats { All (IsSeatIn fleet.now) seats.items }
{
    buck_fleet::run_fleet(rt, alloc, fleet, seats, lists, gate)
}

/// `buck_fleet::Fleet::close`.
pub fn fleet_close<F: Drop, L: Ledger>(
    fleet: Fleet<F, L>,
    seats: Vec<Seat<L>>,
) -> Result<Closed, (CloseFault, Closed)>
    requires crew { IsCrew fleet.seats seats.items }
    requires parts { parts_of seats.items ≡ L.parts }
{
    fleet.close(seats)
}
