//! What callers of a board write: that they meet its conditions by what it hands out is proved.
ghost use Rattle.std.specs.Prelude.{◌≡◌, ◌≤◌, IsTrue, IfOk};
ghost use Rattle.buck_board.specs.Board.{IsSeatOf, IsSnapshotOf, base_of, seen_by, version_of};

use buck_board::{Board, BoardSeat, Memory, Snapshot};
use buck_value::Sheet;
use std::alloc::Global;
use std::sync::{Arc, Wait};

/// A board with two seats, apart from each other.
pub fn open_for_two<R: Wait>(
    rt: &R,
    alloc: Global,
    base: Arc<Sheet>,
) -> Result<(Board, BoardSeat, BoardSeat), Memory>
    requires { base.value.version ≡ 0 }
    ensures base { IfOk result (λ b. base_of b.0 ≡ base.value) }
    ensures one { IfOk result (λ b. IsSeatOf b.0 b.1) }
    ensures two { IfOk result (λ b. IsSeatOf b.0 b.2) }
    ensures none_seen { IfOk result (λ b. (seen_by b.1 ≡ 0) × (seen_by b.2 ≡ 0)) }
{
    let (board, mut seats) = Board::open(rt, alloc, 2, base)?;
    let Some(two) = seats.pop() else {
        unreachable!()
    };
    let Some(one) = seats.pop() else {
        unreachable!()
    };
    Ok((board, one, two))
}

/// Whether two snapshots of a board have one version and show like sheets. They do if they have one version.
pub fn are_alike(board: &Board, a: &Snapshot, b: &Snapshot) -> bool
    requires a_here { IsSnapshotOf board.now a.now }
    requires b_here { IsSnapshotOf board.now b.now }
    ensures { version_of a.now ≡ version_of b.now → IsTrue result }
{
    if a.version() != b.version() {
        return false;
    }
    board.agree(a, b);
    a.sheet().same(b.sheet())
}
