//! Wrong bodies of boards.
ghost use Rattle.std.specs.Prelude.{◌≡◌, ◌≢◌};
ghost use Rattle.buck_board.specs.Board.{IsSeatOf, IsSnapshotOf, base_of, version_of};

use buck_board::{Board, BoardSeat, Memory, Snapshot};
use buck_value::Sheet;
use std::alloc::Global;
use std::sync::{Arc, Wait};

/// One seat less than asked for, though all 64 are.
pub fn open_a_seat_too_few<R: Wait>(
    rt: &R,
    alloc: Global,
    base: Arc<Sheet>,
) -> Result<(Board, Vec<BoardSeat>), Memory>
    requires { base.value.version ≡ 0 }
{
    let opened = Board::open(rt, alloc, 64, base)?;
    let right = opened.1.len();
    let wrong = 63;
    prove!(right != wrong);
    Ok(opened)
}

/// The lesser of the front and the version is taken for seen, though the front was one version behind.
pub fn raise_seen_not_taken_over(board: &Board, seat: &mut BoardSeat)
    requires { IsSeatOf board.now seat.old }
{
    board.raise(&mut *seat, 4);
    let right = seat.seen();
    let wrong = 3;
    prove!(right != wrong);
}

/// A sheet of the version before is shown.
pub fn read_a_sheet_of_an_older_version(board: &Board, seat: &mut BoardSeat)
    requires { IsSeatOf board.now seat.old }
{
    let Some(shown) = board.read(&mut *seat) else {
        return;
    };
    let version = shown.version();
    if version > 0 {
        let right = shown.sheet().version();
        let wrong = version - 1;
        prove!(right != wrong);
    }
}

/// A seat that has seen version 0 is shown the first sheet that was put up, in the place of the base sheet.
pub fn read_the_first_put_up_for_the_base(board: &Board, seat: &mut BoardSeat, first: &Sheet)
    requires place { IsSeatOf board.now seat.old }
    requires differ { first.now ≢ base_of board.now }
{
    let Some(shown) = board.read(&mut *seat) else {
        return;
    };
    if shown.version() == 0 {
        let right = shown.sheet().same(first);
        let wrong = true;
        prove!(right != wrong);
    }
}

/// The first of two snapshots is held against itself, so that nothing is known of the other.
pub fn agree_of_one_with_itself(board: &Board, a: &Snapshot, b: &Snapshot)
    requires a_here { IsSnapshotOf board.now a.now }
    requires b_here { IsSnapshotOf board.now b.now }
    requires version { version_of a.now ≡ version_of b.now }
{
    board.agree(a, b);
    let right = a.sheet().same(b.sheet());
    let wrong = false;
    prove!(right != wrong);
}
