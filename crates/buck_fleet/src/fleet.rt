//! Fleets, and the calls of their seats.
ghost use Rattle.std.specs.Prelude.{◌≡◌, ◌≤◌, IfOk, IfErr, IfSome, IfNone};
ghost use Rattle.buck_rule.specs.Stored.{AllAnswer};
ghost use Rattle.buck_board.specs.Board.{IsSnapshotOf, version_of, sheet_of};
ghost use Rattle.buck_fleet.specs.Seat.{KeepsNothing, seen_of};
ghost use Rattle.buck_fleet.specs.Fleet.{IsSeatIn};
ghost use Rattle.buck_fleet.specs.Reply.{IsReplyFor, IsOfPlan, IsReplyToTargets};
ghost use Rattle.buck_fleet.specs.Refused.{GivesBack};

use crate::desk::Desk;
use crate::fault::{RetargetFault, TryFault};
use crate::seat::{DemandReply, Path, Reply, Seat};
use buck_apt_instruction::Instruction;
use buck_board::{Board, Snapshot};
use buck_book_postings::{Kept, Plan, Refusal};
use buck_rule::Standing;
use std::alloc::Global;
use std::hint::spin_loop;
use std::marker::Model;
use std::sync::ledger::Ledger;
use std::sync::{Arc, Mutex, MutexGuard, Wait};

/// How often a thread asks for the lock before it may sleep: for about as long as it would take to be woken.
const ASKS: u32 = 1_000;

/// A fleet of harvesters that cut towards one book. Threads share it by a reference, each with seats of its own.
#[derive(Drop)]
pub struct Fleet<F, L: Ledger> {
    pub(crate) instruction: Arc<Instruction>,
    pub(crate) board: Board,
    pub(crate) desk: Mutex<Desk<F, L>>,
    pub(crate) kept: Vec<Vec<Kept>>,
}

impl<F, L: Ledger> Model for Fleet<F, L> {
    ghost use Rattle.std.specs.Prelude.{◌≡◌, ◌≤◌, [], length, All};
    ghost use Rattle.buck_fleet.specs.Fleet.{FleetParts};
    ghost use Rattle.buck_fleet.specs.Closed.{lists_of};
    ghost use Rattle.buck_fleet.specs.declared.seat.TheConstants.{MOST_SEATS};

    ghost Value = { FleetParts };

    ghost view = { λ f. record { instruction = f.instruction.value; seats = length f.kept.items; board = f.board } };

    ghost invariant = { λ f. record {
      empty : All (λ l. l ≡ []) (lists_of f.kept.items);
      few : length f.kept.items ≤ MOST_SEATS;
    } };
}

impl<F, L: Ledger> Fleet<F, L> {
    /// The newest sheet that the board shows to a seat of this fleet. It waits for nobody and takes no memory. `None`
    /// if that sheet couldn't be put up; the base sheet is always shown.
    pub fn snapshot<'a>(&'a self, seat: &mut Seat<L>) -> Option<Snapshot<'a>>
        requires seat { IsSeatIn self.now seat.old }
        ensures seat { IsSeatIn self.now seat.new }
        ensures kept { KeepsNothing seat.old seat.new }
        ensures version { IfSome result (λ s. version_of s ≡ seen_of seat.new) }
        ensures board { IfSome result (IsSnapshotOf self.now.board) }
        ensures none { IfNone result (1 ≤ seen_of seat.new) }
    {
        // Read: one load of the front.
        self.board.read(&mut seat.own.place)
    }

    /// Two snapshots of this fleet and of one version show one sheet, whichever seats took them and whenever. It does
    /// nothing: what it gives is known of them from then on.
    pub fn agree(&self, a: &Snapshot, b: &Snapshot)
        requires a_here { IsSnapshotOf self.now.board a.now }
        requires b_here { IsSnapshotOf self.now.board b.now }
        requires version { version_of a.now ≡ version_of b.now }
        ensures { sheet_of a.now ≡ sheet_of b.now }
    {
        self.board.agree(a, b)
    }

    /// Takes the lock. Most of what is done behind it is shorter than a wake, so a thread asks many times before it
    /// sleeps.
    pub(crate) fn lock<R: Wait>(&self, rt: &R) -> MutexGuard<'_, Desk<F, L>> {
        // The library asks a hundred times, with far more sleeps; five thousand gain nothing, for an eighth more
        // processor time.
        for _ in 0..ASKS {
            if let Some(desk) = self.desk.try_lock() {
                return desk;
            }
            spin_loop();
        }
        self.desk.lock(rt)
    }
}

impl<F: Fn(&Standing) -> u64 + Drop, L: Ledger> Fleet<F, L> {
    /// Commits a caller's plan for a seat of this fleet, if the plan's sheet is in force: one critical section. Refused
    /// as `Full` at the capacity, else as `Stale` if another sheet is in force, and as `Memory` if an allocation
    /// failed; the plan is then given back, and history and kept list are as before.
    pub fn try_commit<R: Wait>(
        &self,
        rt: &R,
        alloc: Global,
        seat: &mut Seat<L>,
        plan: Plan,
    ) -> Result<Reply, TryFault>
        requires answers { AllAnswer F.Fn }
        requires seat { IsSeatIn self.now seat.old }
        ensures seat { IsSeatIn self.now seat.new }
        ensures reply { IfOk result (IsReplyFor seat.old seat.new plan.stem) }
        ensures planned { IfOk result (λ r. IsOfPlan plan r.entry) }
        ensures told { IfOk result (λ r. (r.attempts ≡ 1) × (r.path ≡ Path.Optimistic)) }
        ensures refused { IfErr result (GivesBack plan) }
        ensures left { IfErr result (λ e. KeepsNothing seat.old seat.new) }
    {
        let mut desk = self.lock(rt);
        match desk.commit(rt, alloc, &self.board, seat, plan) {
            Ok((reply, _)) => Ok(Reply {
                attempts: 1,
                ..reply
            }),
            // Leave: the call ends refused.
            Err((refusal, plan)) => Err(match refusal {
                Refusal::Full => TryFault::Full { plan },
                Refusal::Stale { in_force } => TryFault::Stale { in_force, plan },
                Refusal::Memory => TryFault::Memory { plan },
            }),
        }
    }

    /// Puts new targets in force for a seat of this fleet, class by class: one critical section. They end the running
    /// period. Refused as `Full` at the capacity, else as `Targets` if they aren't valid, and as `Memory` if an
    /// allocation failed; history and kept list are then as before.
    pub fn retarget<R: Wait>(
        &self,
        rt: &R,
        alloc: Global,
        seat: &mut Seat<L>,
        targets: Arc<Vec<u32>>,
    ) -> Result<DemandReply, RetargetFault>
        requires answers { AllAnswer F.Fn }
        requires seat { IsSeatIn self.now seat.old }
        ensures seat { IsSeatIn self.now seat.new }
        ensures reply { IfOk result (IsReplyToTargets seat.old seat.new targets.value.items) }
        ensures left { IfErr result (λ e. KeepsNothing seat.old seat.new) }
    {
        let mut desk = self.lock(rt);
        // Leave, if it is refused: the call ends.
        let (reply, _) = desk.retarget(rt, alloc, &self.board, seat, &targets)?;
        Ok(reply)
    }
}
