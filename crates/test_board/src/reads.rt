//! Reads of one thread.
ghost use Rattle.std.specs.Prelude.{◌≡◌, ◌≤◌};
ghost use Rattle.buck_board.specs.Board.{IsSeatOf};

use crate::fixtures::*;
use buck_apt_instruction::Instruction;
use buck_board::{Board, BoardSeat};
use fixture_samples::saw_instruction;
use std::alloc::Global;
use std::sync::{Arc, Wait};
use std::test::Fail;

/// What is done on a board, or what a read shows then.
#[derive(Clone, Copy)]
enum Row {
    /// The sheet of this version is put up.
    Up(u32),
    /// A seat raises to this version.
    Raise(u32),
    /// The other seat is shown the sheet of this version.
    Shows(u32),
    /// It is shown none, and has seen this version.
    Hides(u32),
}

/// What is done on a new board, one after the other.
const READS: [Row; 25] = [
    // What is put up is shown once the front was raised to it; version 5 was put up by nobody.
    Row::Shows(0),
    Row::Up(1),
    Row::Shows(0),
    Row::Raise(1),
    Row::Shows(1),
    Row::Raise(5),
    Row::Hides(5),
    // A seat is shown what was put up since, and a later sheet once it is there; a body that always reads nothing or the
    // base sheet is not.
    Row::Up(2),
    Row::Up(3),
    Row::Up(4),
    Row::Hides(5),
    Row::Up(5),
    Row::Shows(5),
    Row::Raise(1),
    Row::Shows(5),
    // A sheet that was put up at the place of another version is shown at neither.
    Row::Up(7),
    Row::Up(6),
    Row::Up(8),
    Row::Raise(6),
    Row::Hides(6),
    Row::Raise(7),
    Row::Hides(7),
    Row::Raise(8),
    Row::Raise(6),
    Row::Shows(8),
];

/// Whether a row holds of a board with these two seats.
fn holds<R: Wait>(
    rt: &R,
    alloc: Global,
    board: &Board,
    instruction: &Arc<Instruction>,
    one: &mut BoardSeat,
    two: &mut BoardSeat,
    row: Row,
) -> Result<bool, Fail>
    requires one { IsSeatOf board.now one.old }
    requires two { IsSeatOf board.now two.old }
    ensures one { IsSeatOf board.now one.new }
    ensures two { IsSeatOf board.now two.new }
{
    match row {
        Row::Up(version) => {
            let sheet = sheet_of(alloc, instruction, version)?;
            board.put_up(rt, alloc, sheet)?;
        }
        Row::Raise(version) => board.raise(one, version),
        Row::Shows(version) => return Ok(shows(board, two, version, &prices_of(version))),
        Row::Hides(version) => return Ok(shows(board, two, version, &[])),
    }
    Ok(true)
}

/// Whether a seat that raises to less than the front has seen the front all the same.
fn sees_the_front(board: &Board, one: &mut BoardSeat, two: &mut BoardSeat) -> bool
    requires one { IsSeatOf board.now one.old }
    requires two { IsSeatOf board.now two.old }
{
    board.raise(&mut *one, 13);
    board.raise(&mut *two, 15);
    board.raise(&mut *one, 12);
    one.seen() == 15 && two.seen() == 15
}

/// The number, from 1, of the first row that doesn't hold, or one more if a seat doesn't see the front; 0 if all is
/// right. The board is a new one.
fn first_wrong<R: Wait>(
    rt: &R,
    alloc: Global,
    board: &Board,
    instruction: &Arc<Instruction>,
    one: &mut BoardSeat,
    two: &mut BoardSeat,
) -> Result<usize, Fail>
    requires one { IsSeatOf board.now one.old }
    requires two { IsSeatOf board.now two.old }
{
    for i in 0..READS.len() {
        if !holds(
            rt,
            alloc,
            board,
            instruction,
            &mut *one,
            &mut *two,
            READS[i],
        )? {
            return Ok(i + 1);
        }
    }
    if !sees_the_front(board, one, two) {
        return Ok(READS.len() + 1);
    }
    Ok(0)
}

fn first_wrong_on_a_board<R: Wait>(rt: &R, alloc: Global) -> Result<usize, Fail> {
    let instruction = saw_instruction(alloc, 1, 1000, "1 1 1 1")?;
    let (board, mut one, mut two) = board_of(rt, alloc, &instruction)?;
    first_wrong(rt, alloc, &board, &instruction, &mut one, &mut two)
}

#[test]
fn board_reads(rt: HostRuntime) -> Result<(), Fail> {
    assert!(rt; first_wrong_on_a_board(&rt, rt.alloc())? == 0);
    Ok(())
}
