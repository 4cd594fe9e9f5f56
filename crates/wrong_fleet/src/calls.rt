//! Wrong bodies of the calls of a seat.
ghost use Rattle.std.specs.Prelude.{◌≡◌, ◌≢◌};
ghost use Rattle.buck_rule.specs.Stored.{AllAnswer};
ghost use Rattle.buck_board.specs.Board.{IsSnapshotOf, version_of};
ghost use Rattle.buck_fleet.specs.Fleet.{IsSeatIn};

use buck_book_postings::Plan;
use buck_fleet::{Fleet, Gate, Seat, Snapshot};
use buck_rule::Standing;
use buck_stem_shape::Stem;
use std::alloc::Global;
use std::sync::ledger::Ledger;
use std::sync::{Arc, Wait};

/// A seat that has seen version 0 is shown nothing.
pub fn snapshot_always_none<F, L: Ledger>(fleet: &Fleet<F, L>, seat: &mut Seat<L>)
    requires { IsSeatIn fleet.now seat.old }
{
    let right = fleet.snapshot(&mut *seat).is_none();
    if seat.seen() == 0 {
        let wrong = true;
        prove!(right != wrong);
    }
}

/// Two snapshots of one version, which any seats took, show unlike sheets.
pub fn snapshots_of_one_version_unlike<F, L: Ledger>(
    fleet: &Fleet<F, L>,
    a: &Snapshot,
    b: &Snapshot,
)
    requires a_here { IsSnapshotOf fleet.now.board a.now }
    requires b_here { IsSnapshotOf fleet.now.board b.now }
    requires version { version_of a.now ≡ version_of b.now }
{
    fleet.agree(a, b);
    let right = a.sheet().same(b.sheet());
    let wrong = false;
    prove!(right != wrong);
}

/// A cut is entered for harvester 1, whose seat it wasn't.
pub fn cut_for_the_first_harvester<F: Fn(&Standing) -> u64 + Drop, L: Ledger, R: Wait, G: Gate>(
    rt: &R,
    alloc: Global,
    fleet: &Fleet<F, L>,
    seat: &mut Seat<L>,
    stem: Arc<Stem>,
    gate: &G,
)
    requires answers { AllAnswer F.Fn }
    requires seat { IsSeatIn fleet.now seat.old }
    requires another { seat.old.harvester ≢ 1 }
{
    let Ok(reply) = fleet.cut(rt, alloc, &mut *seat, stem, gate) else {
        return;
    };
    let right = reply.entry.harvester;
    let wrong = 1;
    prove!(right != wrong);
}

/// A cut is entered with another stem.
pub fn cut_of_another_stem<F: Fn(&Standing) -> u64 + Drop, L: Ledger, R: Wait, G: Gate>(
    rt: &R,
    alloc: Global,
    fleet: &Fleet<F, L>,
    seat: &mut Seat<L>,
    stem: Arc<Stem>,
    gate: &G,
    wrong: u32,
)
    requires answers { AllAnswer F.Fn }
    requires seat { IsSeatIn fleet.now seat.old }
    requires differ { wrong ≢ stem.value.number }
{
    let Ok(reply) = fleet.cut(rt, alloc, &mut *seat, stem, gate) else {
        return;
    };
    let right = reply.entry.stem.number();
    prove!(right != wrong);
}

/// A locked plan tells three attempts, however many there were.
pub fn cut_locked_tells_three_attempts<F: Fn(&Standing) -> u64 + Drop, L: Ledger, R: Wait, G: Gate>(
    rt: &R,
    alloc: Global,
    fleet: &Fleet<F, L>,
    seat: &mut Seat<L>,
    stem: Arc<Stem>,
    gate: &G,
)
    requires answers { AllAnswer F.Fn }
    requires seat { IsSeatIn fleet.now seat.old }
{
    let before = seat.seen();
    let Ok(reply) = fleet.cut(rt, alloc, &mut *seat, stem, gate) else {
        return;
    };
    if seat.seen() == before {
        let right = reply.attempts;
        let wrong = 3;
        prove!(right != wrong);
    }
}

/// A refused cut is kept.
pub fn cut_keeps_what_was_refused<F: Fn(&Standing) -> u64 + Drop, L: Ledger, R: Wait, G: Gate>(
    rt: &R,
    alloc: Global,
    fleet: &Fleet<F, L>,
    seat: &mut Seat<L>,
    stem: Arc<Stem>,
    gate: &G,
)
    requires answers { AllAnswer F.Fn }
    requires seat { IsSeatIn fleet.now seat.old }
{
    let before = seat.kept().len();
    if fleet.cut(rt, alloc, &mut *seat, stem, gate).is_err() {
        let right = seat.kept().len();
        let wrong = before.saturating_add(1);
        prove!(right != wrong);
    }
}

/// The front is raised to half of the version, so that the seat hasn't seen that of its entry.
pub fn commit_without_raise<F: Fn(&Standing) -> u64 + Drop, L: Ledger, R: Wait>(
    rt: &R,
    alloc: Global,
    fleet: &Fleet<F, L>,
    seat: &mut Seat<L>,
    plan: Plan,
)
    requires answers { AllAnswer F.Fn }
    requires seat { IsSeatIn fleet.now seat.old }
    requires version { plan.sheet.version ≡ 2 }
{
    if fleet.try_commit(rt, alloc, &mut *seat, plan).is_err() {
        return;
    }
    let right = seat.seen();
    let wrong = 1;
    prove!(right != wrong);
}

/// A caller's plan that was committed tells no attempt.
pub fn try_commit_tells_no_attempt<F: Fn(&Standing) -> u64 + Drop, L: Ledger, R: Wait>(
    rt: &R,
    alloc: Global,
    fleet: &Fleet<F, L>,
    seat: &mut Seat<L>,
    plan: Plan,
)
    requires answers { AllAnswer F.Fn }
    requires seat { IsSeatIn fleet.now seat.old }
{
    let Ok(reply) = fleet.try_commit(rt, alloc, &mut *seat, plan) else {
        return;
    };
    let right = reply.attempts;
    let wrong = 0;
    prove!(right != wrong);
}

/// New targets don't raise the front, so that the seat has seen no more than the version that they end.
pub fn retarget_without_raise<F: Fn(&Standing) -> u64 + Drop, L: Ledger, R: Wait>(
    rt: &R,
    alloc: Global,
    fleet: &Fleet<F, L>,
    seat: &mut Seat<L>,
    targets: Arc<Vec<u32>>,
)
    requires answers { AllAnswer F.Fn }
    requires seat { IsSeatIn fleet.now seat.old }
{
    let Ok(reply) = fleet.retarget(rt, alloc, &mut *seat, targets) else {
        return;
    };
    let right = seat.seen();
    let wrong = reply.demand.version;
    prove!(right != wrong);
}

/// The next sheet is put up after the demand was kept, so that a refusal leaves the demand.
pub fn retarget_shows_after_the_commit<F: Fn(&Standing) -> u64 + Drop, L: Ledger, R: Wait>(
    rt: &R,
    alloc: Global,
    fleet: &Fleet<F, L>,
    seat: &mut Seat<L>,
    targets: Arc<Vec<u32>>,
)
    requires answers { AllAnswer F.Fn }
    requires seat { IsSeatIn fleet.now seat.old }
{
    let before = seat.kept().len();
    if fleet.retarget(rt, alloc, &mut *seat, targets).is_err() {
        let right = seat.kept().len();
        let wrong = before.saturating_add(1);
        prove!(right != wrong);
    }
}
