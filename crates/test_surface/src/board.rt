//! Published sheets.
ghost use Rattle.std.specs.Prelude.{◌≡◌, ◌≤◌};
ghost use Rattle.buck_board.specs.Board.{IsSeatOf, IsSnapshotOf, version_of};

use buck_board::{Board, BoardSeat, Memory, Snapshot};
use buck_value::Sheet;
use std::alloc::Global;
use std::sync::{Arc, Wait};

/// `buck_board::Board::open`.
pub fn board_open<R: Wait>(
    rt: &R,
    alloc: Global,
    seats: u32,
    base: Arc<Sheet>,
) -> Result<(Board, Vec<BoardSeat>), Memory>
    requires seats { (1 ≤ seats) × (seats ≤ 64) }
    requires version { base.value.version ≡ 0 }
{
    Board::open(rt, alloc, seats, base)
}

/// `buck_board::BoardSeat::seen`; `buck_board::Board`: `put_up`, `raise` and `read`.
pub fn board_seat<'a, R: Wait>(
    board: &'a Board,
    rt: &R,
    alloc: Global,
    seat: &mut BoardSeat,
    sheet: Arc<Sheet>,
    version: u32,
) -> Option<Snapshot<'a>>
    requires { IsSeatOf board.now seat.old }
{
    let _seen: u32 = seat.seen();
    let _put_up: Result<(), Memory> = board.put_up(rt, alloc, sheet);
    board.raise(&mut *seat, version);
    board.read(seat)
}

/// `buck_board::Snapshot`: `version` and `sheet`.
pub fn snapshot<'a>(snapshot: &Snapshot<'a>) -> &'a Arc<Sheet> {
    let _version: u32 = snapshot.version();
    snapshot.sheet()
}

/// `buck_board::Board::agree`.
pub fn board_agree(board: &Board, a: &Snapshot, b: &Snapshot)
    requires a_here { IsSnapshotOf board.now a.now }
    requires b_here { IsSnapshotOf board.now b.now }
    requires version { version_of a.now ≡ version_of b.now }
{
    board.agree(a, b);
}
