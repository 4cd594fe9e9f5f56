//! How a stem is cut: plans without the lock, and in the end one under it.
ghost use Rattle.std.specs.Prelude.{◌≡◌, ◌+◌, ◌-◌, ◌≤◌, IfOk, IfErr};
ghost use Rattle.buck_rule.specs.Stored.{AllAnswer};
ghost use Rattle.buck_fleet.specs.Seat.{KeepsNothing, seen_of};
ghost use Rattle.buck_fleet.specs.Fleet.{IsSeatIn};
ghost use Rattle.buck_fleet.specs.Reply.{IsReplyFor, AreAttempts};

use crate::fault::TryFault;
use crate::fleet::Fleet;
use crate::gate::Gate;
use crate::seat::{MOST_ATTEMPTS, Path, Reply, Seat};
use buck_book_postings::CutFault;
use buck_rule::Standing;
use buck_stem_shape::Stem;
use std::alloc::Global;
use std::sync::ledger::Ledger;
use std::sync::{Arc, Wait};

impl<F: Fn(&Standing) -> u64 + Drop, L: Ledger> Fleet<F, L> {
    /// The locked plan: it is made and committed in one critical section, under the sheet in force.
    fn cut_locked<R: Wait>(
        &self,
        rt: &R,
        alloc: Global,
        seat: &mut Seat<L>,
        stem: &Arc<Stem>,
        attempts: u8,
    ) -> Result<Reply, CutFault>
        requires answers { AllAnswer F.Fn }
        requires seat { IsSeatIn self.now seat.old }
        ensures seat { IsSeatIn self.now seat.new }
        ensures reply { IfOk result (IsReplyFor seat.old seat.new stem.now.value) }
        ensures told { IfOk result (λ r. (r.attempts ≡ attempts) × (r.path ≡ Path.Locked)) }
        ensures left { IfErr result (λ e. seat.new ≡ seat.old) }
    {
        let mut desk = self.lock(rt);
        // Leave, if there is no memory for a plan: the call ends refused.
        let plan = seat.plan(alloc, desk.book.sheet(), stem)?;
        // Leave, if it is refused.
        let (reply, _) = desk.commit_locked(rt, alloc, &self.board, seat, plan)?;
        Ok(Reply { attempts, ..reply })
    }

    /// Cuts a stem for a seat of this fleet. Up to three times it plans against the newest sheet without the lock,
    /// tells the gate, and commits the plan if its sheet is still in force; it plans under the lock after the third
    /// time, or as soon as no sheet is shown that is newer than that of the attempt before. Refused as `Full` at the
    /// capacity, and as `Memory` if an allocation failed; history and kept list are then as before.
    pub fn cut<R: Wait, G: Gate>(
        &self,
        rt: &R,
        alloc: Global,
        seat: &mut Seat<L>,
        stem: Arc<Stem>,
        gate: &G,
    ) -> Result<Reply, CutFault>
        requires answers { AllAnswer F.Fn }
        requires seat { IsSeatIn self.now seat.old }
        ensures seat { IsSeatIn self.now seat.new }
        ensures reply { IfOk result (IsReplyFor seat.old seat.new stem.value) }
        ensures attempts { IfOk result (λ r. AreAttempts r.path r.attempts) }
        ensures newer { IfOk result (λ r. seen_of seat.old + (r.attempts - 1) ≤ seen_of seat.new) }
        ensures optimistic { IfOk result (λ r. r.path ≡ Path.Optimistic
            → seen_of seat.old + (r.attempts - 1) ≤ r.entry.version) }
        ensures locked_at_once { IfOk result (λ r. r.attempts ≡ 0 → 1 ≤ seen_of seat.new) }
        ensures left { IfErr result (λ e. KeepsNothing seat.old seat.new) }
    {
        let mut attempts = 0u8;
        let mut before = 0u32;
        for attempt in 1..MOST_ATTEMPTS + 1 {
            let Some(shown) = self.snapshot(&mut *seat) else {
                break
            };
            let version = shown.version();
            // A plan under a sheet that isn't newer would be stale again: the lock is next.
            if 1 < attempt && version <= before {
                break;
            }
            // Plan: without the lock. Leave, if there is no memory for it: the call ends refused.
            let plan = seat.plan_shown(alloc, shown.sheet(), &stem)?;
            gate.planned(rt, seat.harvester(), attempt, &plan);
            match self.try_commit(rt, alloc, &mut *seat, plan) {
                Ok(reply) => {
                    return Ok(Reply {
                        attempts: attempt,
                        ..reply
                    });
                }
                // Leave: the call ends refused.
                Err(TryFault::Full { .. }) => return Err(CutFault::Full),
                Err(TryFault::Memory { .. }) => return Err(CutFault::Memory),
                Err(TryFault::Stale { .. }) => {}
            }
            attempts = attempt;
            before = version;
        }
        self.cut_locked(rt, alloc, &mut *seat, &stem, attempts)
    }
}
