//! Boards of the saw instruction, the sheets that are put up on them, and what a read is to show.
ghost use Rattle.std.specs.Prelude.{◌≡◌, ◌≤◌, IfOk};
ghost use Rattle.buck_board.specs.Board.{IsSeatOf};

use crate::callers::open_for_two;
use buck_apt_instruction::Instruction;
use buck_board::{Board, BoardSeat};
use buck_value::Sheet;
use std::alloc::Global;
use std::sync::{Arc, Wait};
use std::test::Fail;

/// How many sheets are put up in the long runs.
pub const MANY: u32 = 1000;

/// Prices within the spans of the saw instruction at a limit of 1,000 per mille, others for each version up to 1,000. Those
/// of version 0 are its base prices.
pub fn prices_of(version: u32) -> [u32; 4] {
    [
        400 + version % 401,
        500 - version % 501,
        600 + version % 601,
        800 - version % 801,
    ]
}

/// The base sheet of an instruction.
fn base_of(alloc: Global, instruction: &Arc<Instruction>) -> Result<Arc<Sheet>, Fail>
    ensures { IfOk result (λ s. s.value.version ≡ 0) }
{
    let base = Sheet::base(alloc, instruction.clone()?)?;
    Ok(Arc::new(alloc, base)?)
}

/// A board for two seats that shows the base sheet of an instruction.
pub fn board_of<R: Wait>(
    rt: &R,
    alloc: Global,
    instruction: &Arc<Instruction>,
) -> Result<(Board, BoardSeat, BoardSeat), Fail>
    ensures one { IfOk result (λ b. IsSeatOf b.0 b.1) }
    ensures two { IfOk result (λ b. IsSeatOf b.0 b.2) }
{
    let base = base_of(alloc, instruction)?;
    Ok(open_for_two(rt, alloc, base)?)
}

/// The sheet of a version, of its prices.
pub fn sheet_of(
    alloc: Global,
    instruction: &Arc<Instruction>,
    version: u32,
) -> Result<Arc<Sheet>, Fail> {
    let prices = prices_of(version).as_slice().to_vec(alloc)?;
    let sheet = Sheet::with_prices(instruction.clone()?, version, prices)?;
    Ok(Arc::new(alloc, sheet)?)
}

/// Whether a read shows a sheet of these prices, or none where there are no prices, and the seat has then seen this
/// version. That a sheet is shown with its own version is a clause.
pub fn shows(board: &Board, seat: &mut BoardSeat, version: u32, prices: &[u32]) -> bool
    requires { IsSeatOf board.now seat.old }
    ensures { IsSeatOf board.now seat.new }
{
    let is_right = match board.read(&mut *seat) {
        None => prices.is_empty(),
        Some(shown) => shown.sheet().prices() == prices,
    };
    is_right && seat.seen() == version
}
