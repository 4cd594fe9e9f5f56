//! The desk: what lies under the lock, and all that is done there.
ghost use Rattle.std.specs.Prelude.{◌≡◌, ◌≢◌, ℕ, ◌+◌, ◌<◌, ◌≤◌, ◌++◌, ◌∷◌, [], Some, length, IfOk, IfErr, OnOk, vec_len, vec_capacity};
ghost use Rattle.buck_rule.specs.Stored.{AllAnswer};
ghost use Rattle.buck_board.specs.Board.{IsSeatOf, seen_by};
ghost use Rattle.buck_book_postings.specs.Plan.{IsPlan};
ghost use Rattle.buck_book_postings.specs.Book.{IsReadyFor};
ghost use Rattle.buck_book_postings.specs.History.{in_force};
ghost use Rattle.buck_book_postings.specs.Refused.{IsRefusal, IsRefusalInForce};
ghost use Rattle.buck_fleet.specs.Reply.{IsReplyFor, IsOfPlan, IsReplyToTargets};
ghost use Rattle.buck_fleet.specs.inner.Shown.{IsShown, GrowsAsShown};

use crate::seat::{DemandReply, Own, Path, Reply, Seat};
use buck_board::{Board, PutUp};
use buck_book_postings::{Book, CutFault, DemandRefusal, Kept, Plan, Posting, Ready, Refusal};
use buck_dp::Cutting;
use buck_record::Memory;
use buck_rule::Standing;
use buck_stem_shape::Stem;
use buck_value::Sheet;
use std::alloc::Global;
use std::sync::ledger::{Ledger, Share};
use std::sync::{Arc, Wait, ledger};

/// The state under the lock: the book, and the total of what the seats keep.
#[derive(Drop)]
pub struct Desk<F, L: Ledger> {
    pub(crate) book: Book<F>,
    pub(crate) calls: ledger::Book<L>,
    pub(crate) rest: Share<L>,
    ghost counted: { length book.history.postings ≡ calls.total },
    ghost no_parts: { rest.parts ≡ 0 },
    ghost no_amount: { rest.amount ≡ 0 },
}

/// Makes all that the commit of a prepared plan needs beside the book, the room in the seat's kept list first, and puts
/// the next sheet up, if it ends a period.
fn prepare_rest<R: Wait>(
    rt: &R,
    board: &Board,
    kept: &mut Vec<Kept>,
    plan: &Plan,
    ready: &Ready,
) -> Result<(Arc<Stem>, Arc<Cutting>, Option<PutUp>), Memory>
    ensures kept { kept.new.items ≡ kept.old.items }
    ensures room { OnOk result (vec_len kept.new < vec_capacity kept.new) }
    ensures stem { IfOk result (λ r. r.0.value ≡ plan.now.stem) }
    ensures logs { IfOk result (λ r. r.1.value.logs.items ≡ plan.now.logs) }
    ensures shown { IfOk result (λ r. IsShown board.now ready.now.next r.2) }
    ensures best { OnOk result (IsPlan plan.now) }
{
    kept.reserve(1)?;
    let stem = plan.stem().clone()?;
    let cutting = plan.cutting().clone()?;
    let shown = match ready.next_sheet() {
        Some(sheet) => Some(board.put_up_shown(rt, sheet.clone()?)?),
        None => None,
    };
    Ok((stem, cutting, shown))
}

/// Keeps a posting that was added to the history, in its seat's kept list and in the ledger, and raises the front to a
/// version.
fn keep<L: Ledger>(
    calls: &mut ledger::Book<L>,
    board: &Board,
    own: &mut Own<L>,
    kept: Kept,
    version: u32,
)
    requires room { vec_len own.old.kept < vec_capacity own.old.kept }
    requires parts { 0 < own.old.share.parts }
    requires seat { IsSeatOf board.now own.old.place }
    ensures total { calls.new.total ≡ calls.old.total + 1 }
    ensures kept { own.new.kept.items ≡ own.old.kept.items ++ kept ∷ [] }
    ensures amount { own.new.share.amount ≡ own.old.share.amount + 1 }
    ensures parts { own.new.share.parts ≡ own.old.share.parts }
    ensures seat { IsSeatOf board.now own.new.place }
    ensures rises { seen_by own.old.place ≤ seen_by own.new.place }
    ensures seen { version ≤ seen_by own.new.place }
{
    calls.add(&mut own.share, 1);
    own.kept.push_reserved(kept);
    // Raise: before the lock is given back.
    board.raise(&mut own.place, version);
}

impl<F: Fn(&Standing) -> u64 + Drop, L: Ledger> Desk<F, L> {
    /// Adds the entry of a plan that the book has prepared: puts the next sheet up if it ends a period, adds the
    /// entry to the history and to the seat's kept list, and raises the front to the version in force. Answers also
    /// what shows that a sheet was put up: without it no sheet comes to the history. The plan is given back if an
    /// allocation failed.
    fn add<R: Wait>(
        &mut self,
        rt: &R,
        board: &Board,
        seat: &mut Seat<L>,
        plan: Plan,
        ready: Ready,
        path: Path,
    ) -> Result<(Reply, Option<PutUp>), Plan>
        requires ready { IsReadyFor self.old.book ready plan }
        requires seat { IsSeatOf board.now seat.old.place }
        ensures seat { IsSeatOf board.now seat.new.place }
        ensures reply { IfOk result (λ r. IsReplyFor seat.old seat.new plan.stem r.0 × IsOfPlan plan r.0.entry) }
        ensures path { IfOk result (λ r. r.0.path ≡ path) }
        ensures shown { IfOk result (λ r. GrowsAsShown board.now self.old.book.history self.new.book.history r.1) }
        ensures history { IfErr result (λ p. self.new.book.history ≡ self.old.book.history) }
        ensures plan { IfErr result (λ p. (p ≡ plan) × (seat.new ≡ seat.old)) }
    {
        let Seat { harvester, own, .. } = seat;
        let Desk { book, calls, .. } = self;
        // All that can be refused comes first: the commit and what follows take no memory.
        let (stem, cutting, shown) = match prepare_rest(rt, board, &mut own.kept, &plan, &ready) {
            Ok(made) => made,
            Err(_) => return Err(plan),
        };
        let position = book.len() as u32;
        // Try, or Locked: the entry is added.
        let entry = book.commit(ready, *harvester, plan);
        let cut = Kept {
            position,
            entry: Posting::Cut(entry.sharing(stem, cutting)),
        };
        keep(calls, board, own, cut, book.version());
        let reply = Reply {
            entry,
            position,
            attempts: 0,
            path,
        };
        Ok((reply, shown))
    }

    /// Commits a plan for a seat, if its sheet is in force, as a plan that was made without the lock. Refused as
    /// `Full`, `Stale` or `Memory`; the plan is then given back, and history and kept list are as before.
    pub fn commit<R: Wait>(
        &mut self,
        rt: &R,
        alloc: Global,
        board: &Board,
        seat: &mut Seat<L>,
        plan: Plan,
    ) -> Result<(Reply, Option<PutUp>), (Refusal, Plan)>
        requires answers { AllAnswer F.Fn }
        requires seat { IsSeatOf board.now seat.old.place }
        ensures seat { IsSeatOf board.now seat.new.place }
        ensures reply { IfOk result (λ r. IsReplyFor seat.old seat.new plan.stem r.0 × IsOfPlan plan r.0.entry) }
        ensures path { IfOk result (λ r. r.0.path ≡ Path.Optimistic) }
        ensures shown { IfOk result (λ r. GrowsAsShown board.now self.old.book.history self.new.book.history r.1) }
        ensures history { IfErr result (λ e. self.new.book.history ≡ self.old.book.history) }
        ensures refused { IfErr result (λ e. IsRefusal self.old.book plan e.0) }
        ensures plan { IfErr result (λ e. (e.1 ≡ plan) × (seat.new ≡ seat.old)) }
    {
        // Try, of a plan that is outdated: nothing is added.
        let ready = match self.book.prepare(alloc, &plan) {
            Ok(ready) => ready,
            Err(refusal) => return Err((refusal, plan)),
        };
        match self.add(rt, board, seat, plan, ready, Path::Optimistic) {
            Ok(added) => Ok(added),
            Err(plan) => Err((Refusal::Memory, plan)),
        }
    }

    /// Commits a plan for a seat that was made under the lock, which has been held since: no sheets are compared.
    /// Refused as `Full` or `Memory`; history and kept list are then as before.
    pub fn commit_locked<R: Wait>(
        &mut self,
        rt: &R,
        alloc: Global,
        board: &Board,
        seat: &mut Seat<L>,
        plan: Plan,
    ) -> Result<(Reply, Option<PutUp>), CutFault>
        requires answers { AllAnswer F.Fn }
        requires seat { IsSeatOf board.now seat.old.place }
        requires in_force { plan.sheet ≡ in_force self.old.book.history }
        ensures seat { IsSeatOf board.now seat.new.place }
        ensures reply { IfOk result (λ r. IsReplyFor seat.old seat.new plan.stem r.0) }
        ensures path { IfOk result (λ r. r.0.path ≡ Path.Locked) }
        ensures shown { IfOk result (λ r. GrowsAsShown board.now self.old.book.history self.new.book.history r.1) }
        ensures history { IfErr result (λ e. self.new.book.history ≡ self.old.book.history) }
        ensures refused { IfErr result (IsRefusalInForce self.old.book) }
        ensures left { IfErr result (λ e. seat.new ≡ seat.old) }
    {
        let ready = self.book.prepare_in_force(alloc, &plan)?;
        match self.add(rt, board, seat, plan, ready, Path::Locked) {
            Ok(added) => Ok(added),
            Err(_) => Err(CutFault::Memory),
        }
    }

    /// Puts new targets in force for a seat: puts the next sheet up, adds the demand to the history and to the seat's
    /// kept list, and raises the front to the version in force. Answers also what shows that the sheet was put up.
    /// Refused as `Full`, `Targets` or `Memory`; history and kept list are then as before.
    pub fn retarget<R: Wait>(
        &mut self,
        rt: &R,
        alloc: Global,
        board: &Board,
        seat: &mut Seat<L>,
        targets: &Arc<Vec<u32>>,
    ) -> Result<(DemandReply, PutUp), DemandRefusal>
        requires answers { AllAnswer F.Fn }
        requires seat { IsSeatOf board.now seat.old.place }
        ensures seat { IsSeatOf board.now seat.new.place }
        ensures reply { IfOk result (λ r. IsReplyToTargets seat.old seat.new targets.now.value.items r.0) }
        ensures shown { IfOk result (λ r.
            GrowsAsShown board.now self.old.book.history self.new.book.history (Some r.1)) }
        ensures history { IfErr result (λ e. self.new.book.history ≡ self.old.book.history) }
        ensures left { IfErr result (λ e. seat.new ≡ seat.old) }
    {
        let Seat { harvester, own, .. } = seat;
        let Desk { book, calls, .. } = self;
        // All that can be refused comes first: the commit and what follows take no memory.
        own.kept.reserve(1)?;
        let copy = targets.clone()?;
        let ready = book.prepare_demand(alloc, targets)?;
        let shown = board.put_up_shown(rt, ready.next_sheet().clone()?)?;
        let position = book.len() as u32;
        // Retarget: the demand is added.
        let demand = book.commit_demand(ready, *harvester);
        let wanted = Kept {
            position,
            entry: Posting::Demand(demand.sharing(copy)),
        };
        keep(calls, board, own, wanted, book.version());
        Ok((DemandReply { demand, position }, shown))
    }
}
