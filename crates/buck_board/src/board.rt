//! The board.
ghost use Rattle.std.specs.Prelude.{◌≡◌, ◌+◌, ◌≤◌, ◌<◌, All, IfSome, IfNone, IfOk, IsSomeAnd, vec_len};
ghost use Rattle.boxcar.specs.Table.{Shows};

use crate::front::Front;
use crate::put_up::PutUp;
use crate::seat::BoardSeat;
use crate::snapshot::Snapshot;
use boxcar::Pushed;
use buck_record::Memory;
use buck_value::Sheet;
use std::alloc::Global;
use std::sync::{Arc, Wait};

/// The sheets put up so far, the base sheet before them, and the front, which says which version is the newest.
///
/// Threads share it by a reference. Who reads or raises waits for nobody: a read is one load of the front and a look
/// into a list that only grows, a raise one step on the front.
#[derive(Drop)]
pub struct Board {
    pub(crate) base: Arc<Sheet>,
    pub(crate) later: boxcar::Vec<Arc<Sheet>>,
    pub(crate) front: Front,
    ghost first: { base.value.version ≡ 0 },
}

impl Board {
    ghost use Rattle.buck_board.specs.Board.{base_of, seen_by, IsSeatOf, IsSnapshotOf, version_of, sheet_of, IsPutUpOn, sheet_put_up};

    /// A board with 1 to 64 seats that shows a sheet of version 0, the base sheet; each seat has seen version 0.
    /// `Memory` if there is none for the list, the front or the seats.
    pub fn open<R: Wait>(
        _rt: &R,
        alloc: Global,
        seats: u32,
        base: Arc<Sheet>,
    ) -> Result<(Board, Vec<BoardSeat>), Memory>
        requires seats { (1 ≤ seats) × (seats ≤ 64) }
        requires version { base.value.version ≡ 0 }
        ensures base { IfOk result (λ b. base_of b.0 ≡ base.value) }
        ensures number { IfOk result (λ b. vec_len b.1 ≡ seats) }
        ensures places { IfOk result (λ b. All (IsSeatOf b.0) b.1.items) }
        ensures seen { IfOk result (λ b. All (λ s. seen_by s ≡ 0) b.1.items) }
    {
        let later = boxcar::Vec::new(alloc)?;
        let (front, first) = Front::open(alloc)?;
        let all = front.seats(alloc, first, seats)?;
        Ok((Board { base, later, front }, all))
    }

    /// Puts a sheet up behind the others. No seat is shown it before the front is raised to its version, which is its
    /// place among all sheets. `Memory` if there is none for the list, and then the sheet is dropped and all else
    /// stays.
    pub fn put_up<R: Wait>(&self, rt: &R, _alloc: Global, sheet: Arc<Sheet>) -> Result<(), Memory> {
        match self.put_up_shown(rt, sheet) {
            Ok(_) => Ok(()),
            Err(fault) => Err(fault),
        }
    }

    /// [`put_up`](Board::put_up), which answers what shows that the sheet was put up.
    pub fn put_up_shown<R: Wait>(&self, rt: &R, sheet: Arc<Sheet>) -> Result<PutUp, Memory>
        ensures board { IfOk result (IsPutUpOn self.now) }
        ensures sheet { IfOk result (λ p. sheet_put_up p ≡ sheet.value) }
    {
        match self.later.push_shown(rt, sheet) {
            Ok(pushed) => Ok(PutUp { pushed }),
            Err(_) => Err(Memory),
        }
    }

    /// Raises the front to this version, if it is less. The seat has then seen the greater of the two, so no less
    /// than the version and than it had seen.
    pub fn raise(&self, seat: &mut BoardSeat, version: u32)
        requires { IsSeatOf self.now seat.old }
        ensures place { IsSeatOf self.now seat.new }
        ensures version { version ≤ seen_by seat.new }
        ensures seen { seen_by seat.old ≤ seen_by seat.new }
    {
        self.front.raise(&mut *seat, version);
    }

    /// Reads the front, and shows the sheet of that version. None if no sheet of it was put up at its place; version
    /// 0 is always shown.
    pub fn read<'a>(&'a self, seat: &mut BoardSeat) -> Option<Snapshot<'a>>
        requires { IsSeatOf self.now seat.old }
        ensures place { IsSeatOf self.now seat.new }
        ensures seen { seen_by seat.old ≤ seen_by seat.new }
        ensures version { IfSome result (λ s. version_of s ≡ seen_by seat.new) }
        ensures board { IfSome result (IsSnapshotOf self.now) }
        ensures base { seen_by seat.new ≡ 0 → IsSomeAnd result (λ s. sheet_of s ≡ base_of self.now) }
    {
        let version = self.front.read(&mut *seat);
        if version == 0 {
            return Some(self.first_shown());
        }
        self.later_shown(version)
    }

    /// The base sheet.
    fn first_shown<'a>(&'a self) -> Snapshot<'a>
        ensures version { version_of result ≡ 0 }
        ensures board { IsSnapshotOf self.now result }
        ensures base { sheet_of result ≡ base_of self.now }
    {
        Snapshot {
            board: self,
            version: 0,
            sheet: &self.base,
            pushed: None,
        }
    }

    /// The sheet at the place of a version past 0, if there is one and it has that version.
    fn later_shown<'a>(&'a self, version: u32) -> Option<Snapshot<'a>>
        requires { 0 < version }
        ensures version { IfSome result (λ s. version_of s ≡ version) }
        ensures board { IfSome result (IsSnapshotOf self.now) }
    {
        let Some(pushed) = self.later.witness(version as usize - 1) else {
            return None;
        };
        let sheet = self.later.value(&pushed);
        // If a `put_up` was refused, later sheets stand at lower places, and would be shown as versions that they
        // aren't.
        if sheet.version() != version {
            return None;
        }
        Some(Snapshot {
            board: self,
            version,
            sheet,
            pushed: Some(pushed),
        })
    }

    /// Two snapshots of one version show one sheet, whoever took them and whenever. It does nothing: what it gives is
    /// known of them from then on.
    pub fn agree(&self, a: &Snapshot, b: &Snapshot)
        requires a_here { IsSnapshotOf self.now a.now }
        requires b_here { IsSnapshotOf self.now b.now }
        requires version { version_of a.now ≡ version_of b.now }
        ensures { sheet_of a.now ≡ sheet_of b.now }
    {
        let of_a = self.shown_by(a);
        let of_b = self.shown_by(b);
        match of_a {
            None => match of_b {
                None => {}
                Some(_) => {}
            },
            Some(p) => match of_b {
                None => {}
                Some(q) => self.later.agrees(p, q),
            },
        }
    }

    /// What shows the sheet of a snapshot of this board, if it isn't the base sheet.
    fn shown_by<'b>(&self, snapshot: &'b Snapshot) -> Option<&'b Pushed<Arc<Sheet>>>
        requires { IsSnapshotOf self.now snapshot.now }
        ensures base { IfNone result ((version_of snapshot.now ≡ 0) × (sheet_of snapshot.now ≡ base_of self.now)) }
        ensures later { IfSome result (λ p. Shows self.now.later p.now) }
        ensures place { IfSome result (λ p. p.now.index + 1 ≡ version_of snapshot.now) }
        ensures sheet { IfSome result (λ p. p.now.value ≡ snapshot.now.sheet.now) }
    {
        snapshot.pushed.as_ref()
    }
}
