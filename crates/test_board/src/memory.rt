//! Refused memory: what was put up before is shown, and what is shown is what was put up. Run with each allocation
//! failing in turn.
ghost use Rattle.std.specs.Prelude.{◌≡◌, ◌≤◌};
ghost use Rattle.buck_board.specs.Board.{IsSeatOf};

use crate::fixtures::*;
use buck_apt_instruction::Instruction;
use buck_board::{Board, BoardSeat, Memory};
use fixture_samples::saw_instruction;
use std::alloc::Global;
use std::sync::{Arc, Wait};
use std::test::Fail;

/// So many sheets fill the first room of a list, and part of the second.
const SOME: u32 = 40;

/// Puts up sheets of the versions from 1 on, and gives how many were put up before the first that was refused.
fn put_up_some<R: Wait>(
    rt: &R,
    alloc: Global,
    board: &Board,
    instruction: &Arc<Instruction>,
) -> Result<u32, Fail> {
    let mut before = 0;
    for version in 1..SOME + 1 {
        let sheet = sheet_of(alloc, instruction, version)?;
        if board.put_up(rt, alloc, sheet).is_ok() && before == version - 1 {
            before = version;
        }
    }
    Ok(before)
}

/// Whether the versions up to one are shown, and those after it are not.
fn shows_up_to(board: &Board, one: &mut BoardSeat, two: &mut BoardSeat, before: u32) -> bool
    requires one { IsSeatOf board.now one.old }
    requires two { IsSeatOf board.now two.old }
{
    for version in 0..SOME + 1 {
        board.raise(&mut *one, version);
        let prices = prices_of(version);
        let wanted = if version <= before {
            prices.as_slice()
        } else {
            &[]
        };
        if !shows(board, &mut *two, version, wanted) {
            return false;
        }
    }
    true
}

/// Whether what was put up is shown, and an error if something was refused.
fn shows_what_was_put_up<R: Wait>(
    rt: &R,
    alloc: Global,
    board: &Board,
    instruction: &Arc<Instruction>,
    one: &mut BoardSeat,
    two: &mut BoardSeat,
) -> Result<bool, Fail>
    requires one { IsSeatOf board.now one.old }
    requires two { IsSeatOf board.now two.old }
{
    let before = put_up_some(rt, alloc, board, instruction)?;
    if !shows_up_to(board, one, two, before) {
        return Ok(false);
    }
    if before < SOME {
        return Err(Fail::from(Memory));
    }
    Ok(true)
}

/// The same of a new board.
fn is_shown_on_a_board<R: Wait>(rt: &R, alloc: Global) -> Result<bool, Fail> {
    let instruction = saw_instruction(alloc, 1, 1000, "1 1 1 1")?;
    let (board, mut one, mut two) = board_of(rt, alloc, &instruction)?;
    shows_what_was_put_up(rt, alloc, &board, &instruction, &mut one, &mut two)
}

#[test]
fn refused_memory(rt: HostRuntime) -> Result<(), Fail> {
    assert!(rt; is_shown_on_a_board(&rt, rt.alloc())?);
    Ok(())
}
