//! Seats, and what their calls answer.
ghost use Rattle.std.specs.Prelude.{◌≡◌, ◌<◌, ◌≤◌, [], IfOk, length, None};
ghost use Rattle.buck_board.specs.declared.seat.BoardSeat.{BoardSeat};
ghost use Rattle.buck_fleet.specs.Seat.{seen_of};
ghost use Rattle.buck_fleet.specs.declared.seat.TheConstants.{MOST_SEATS};

use crate::fault::RunFault;
use buck_board::BoardSeat;
use buck_book_postings::{Demand, Entry, Kept, Plan};
use buck_dp::Planner;
use buck_record::Memory;
use buck_stem_shape::Stem;
use buck_value::Sheet;
use std::alloc::Global;
use std::marker::Model;
use std::sync::Arc;
use std::sync::ledger::{Ledger, Share};

/// Greatest number of seats of a fleet.
pub const MOST_SEATS: u32 = 64;

/// Number of plans that a cut makes without the lock before it makes one under it.
pub const MOST_ATTEMPTS: u8 = 3;

/// How an entry came to be.
#[derive(Clone, Copy, PartialEq, Eq, Debug, Drop)]
pub enum Path {
    /// By a plan that was made without the lock.
    Optimistic,
    /// By a plan that was made under the lock, against the sheet in force.
    Locked,
}

/// The answer to a call that cuts a stem.
#[derive(Drop)]
pub struct Reply {
    /// The cut, as it stands in the history.
    pub entry: Entry,
    /// Index of the posting in the history, from 0.
    pub position: u32,
    /// How many plans made without the lock were brought to the book: 1 to 3 on the path `Optimistic`, 0 to 3 on
    /// `Locked`.
    pub attempts: u8,
    /// How it came to be.
    pub path: Path,
}

/// The answer to a call that puts new targets in force.
#[derive(Drop)]
pub struct DemandReply {
    /// The demand, as it stands in the history.
    pub demand: Demand,
    /// Index of the posting in the history, from 0.
    pub position: u32,
}

/// The state of a seat that a posting changes: its place at the board, its replies, and its share of the ledger.
#[derive(Drop)]
pub struct Own<L: Ledger> {
    pub(crate) place: BoardSeat,
    pub(crate) kept: Vec<Kept>,
    pub(crate) share: Share<L>,
}

/// A harvester's seat: any thread may use it, one at a time. It keeps each posting that it was answered.
#[derive(Drop)]
pub struct Seat<L: Ledger> {
    pub(crate) harvester: u32,
    pub(crate) own: Own<L>,
    pub(crate) stopped: Option<RunFault>,
    /// What plans its stems, under the sheet that it planned under last.
    pub(crate) planner: Option<Planner>,
}

impl<L: Ledger> Model for Seat<L> {
    ghost use Rattle.std.specs.Prelude.{◌≡◌, ◌<◌, ◌≤◌, length};
    ghost use Rattle.buck_fleet.specs.Seat.{SeatParts};
    ghost use Rattle.buck_fleet.specs.declared.seat.TheConstants.{MOST_SEATS};

    ghost Value = { SeatParts };

    ghost view = { λ s. record {
      harvester = s.harvester;
      place = s.own.place;
      kept = s.own.kept.items;
      parts = s.own.share.parts;
      stopped = s.stopped;
    } };

    ghost invariant = { λ s. (s.own.share.amount ≡ length s.own.kept.items) × (0 < s.own.share.parts)
        × (0 < s.harvester) × (s.harvester ≤ MOST_SEATS) };
}

impl<L: Ledger> Seat<L> {
    /// A seat that has kept nothing.
    pub(crate) fn make(alloc: Global, harvester: u32, place: BoardSeat, share: Share<L>) -> Seat<L>
        requires harvester { (0 < harvester) × (harvester ≤ MOST_SEATS) }
        requires share { (0 < share.parts) × (share.amount ≡ 0) }
        ensures { result ≡ record {
          harvester = harvester;
          place = place;
          kept = [];
          parts = share.parts;
          stopped = None;
        } }
    {
        let kept = Vec::new(alloc);
        Seat {
            harvester,
            own: Own { place, kept, share },
            stopped: None,
            planner: None,
        }
    }

    /// Plans a stem under a sheet, with the planner that is there: it is renewed if the sheet is another. It asks
    /// nobody else and waits for nobody.
    pub(crate) fn plan(
        &mut self,
        alloc: Global,
        sheet: &Arc<Sheet>,
        stem: &Arc<Stem>,
    ) -> Result<Plan, Memory>
        ensures same { self.new ≡ self.old }
        ensures sheet { IfOk result (λ p. p.sheet ≡ sheet.now.value) }
        ensures stem { IfOk result (λ p. p.stem ≡ stem.now.value) }
    {
        match &mut self.planner {
            Some(planner) => {
                // By value: no type says that the planner's sheet is one of the book's, whatever its version.
                if !planner.sheet().same(sheet) {
                    planner.renew(alloc, sheet.clone()?)?;
                }
                Plan::make_with(alloc, planner, stem.clone()?)
            }
            None => {
                let mut planner = Planner::make(alloc, sheet.clone()?)?;
                let plan = Plan::make_with(alloc, &mut planner, stem.clone()?)?;
                self.planner = Some(planner);
                Ok(plan)
            }
        }
    }

    /// Plans a stem under a sheet that the fleet's board shows, with the planner that is there: it is renewed if the
    /// sheet is of another version. A board shows one sheet of a version, so no prices are compared here; a plan under
    /// any other sheet is refused when it is brought to the book.
    pub(crate) fn plan_shown(
        &mut self,
        alloc: Global,
        shown: &Arc<Sheet>,
        stem: &Arc<Stem>,
    ) -> Result<Plan, Memory>
        ensures same { self.new ≡ self.old }
        ensures version { IfOk result (λ p. p.sheet.version ≡ shown.now.value.version) }
        ensures stem { IfOk result (λ p. p.stem ≡ stem.now.value) }
    {
        match &mut self.planner {
            Some(planner) => {
                if planner.sheet().version() != shown.version() {
                    planner.renew(alloc, shown.clone()?)?;
                }
                Plan::make_with(alloc, planner, stem.clone()?)
            }
            None => self.plan(alloc, shown, stem),
        }
    }

    /// Its harvester, from 1 on.
    pub fn harvester(&self) -> u32
        ensures { result ≡ self.now.harvester }
    {
        self.harvester
    }

    /// The newest version that it has seen.
    pub fn seen(&self) -> u32
        ensures { result ≡ seen_of self.now }
    {
        self.own.place.seen()
    }

    /// Its replies, in order.
    pub fn kept(&self) -> &[Kept]
        ensures { result.now ≡ self.now.kept }
    {
        self.own.kept.as_slice()
    }

    /// Why its last run stopped before the end of its list, if it did.
    pub fn stopped(&self) -> Option<RunFault>
        ensures { result ≡ self.now.stopped }
    {
        self.stopped
    }
}
