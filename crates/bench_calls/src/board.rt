//! Reads a board, or puts sheets up on it with a raise each, on one thread or several.

ghost use Rattle.std.specs.Prelude.{◌≡◌, All, IfSome};
ghost use Rattle.buck_board.specs.Board.{IsSeatOf};

use crate::input::one_saw_log;
use buck_board::{Board, BoardSeat};
use buck_value::Sheet;
use std::alloc::Global;
use std::sync::{Arc, Wait};
use std::thread;
use std::thread::Threads;

/// Reads version 1 or a later one so often, and gives the sum of the versions.
fn read_on(board: &Board, seat: &mut BoardSeat, number: u32) -> u64
    requires { IsSeatOf board.now seat.old }
{
    board.raise(&mut *seat, 1);
    let mut sum = 0u64;
    for _ in 0..number {
        if let Some(shown) = board.read(&mut *seat) {
            sum = sum.wrapping_add(u64::from(shown.version()));
        }
    }
    sum
}

/// Puts up a sheet so often, with a raise each.
fn put_on<R: Wait>(
    rt: &R,
    alloc: Global,
    board: &Board,
    seat: &mut BoardSeat,
    sheet: &Arc<Sheet>,
    number: u32,
) -> Option<()>
    requires { IsSeatOf board.now seat.old }
{
    for version in 0..number {
        board.put_up(rt, alloc, sheet.clone().ok()?).ok()?;
        board.raise(&mut *seat, version);
    }
    Some(())
}

/// The base sheet of the instruction.
fn base_sheet(alloc: Global) -> Option<Arc<Sheet>>
    ensures { IfSome result (λ s. s.value.version ≡ 0) }
{
    let Some(instruction) = one_saw_log(alloc) else {
        return None;
    };
    let Ok(sheet) = Sheet::base(alloc, instruction) else {
        return None;
    };
    match Arc::new(alloc, sheet) {
        Ok(sheet) => Some(sheet),
        Err(_) => None,
    }
}

/// A sheet of version 1 with the prices of another.
fn next_sheet(alloc: Global, base: &Sheet) -> Option<Arc<Sheet>> {
    let instruction = base.instruction().clone().ok()?;
    let prices = base.prices().to_vec(alloc).ok()?;
    let sheet = Sheet::with_prices(instruction, 1, prices).ok()?;
    Arc::new(alloc, sheet).ok()
}

/// Reads or puts up so often on each seat, on a thread of its own.
fn call_all<R: Threads + Wait + Sync>(
    rt: &R,
    alloc: Global,
    board: &Board,
    seats: &mut [BoardSeat],
    sheet: Option<&Arc<Sheet>>,
    number: u32,
)
    requires { All (IsSeatOf board.now) seats.old }
{
    let calling = |_: usize, seat: &mut BoardSeat|
        requires { IsSeatOf board.now seat.old }
    {
        match sheet {
            Some(sheet) => {
                put_on(rt, alloc, board, &mut *seat, sheet, number);
            }
            None => {
                read_on(board, &mut *seat, number);
            }
        }
    };
    thread::for_each_mut(rt, seats, 64, &calling);
}

/// Reads version 1 so often on each of so many threads, or puts up a sheet of it as often. It prints nothing.
pub fn run<R: Threads + Wait + Sync>(
    rt: &R,
    alloc: Global,
    is_read: bool,
    number: u32,
    threads: u32,
) -> Option<()> {
    if threads < 1 {
        return None;
    }
    if threads > 64 {
        return None;
    }
    let base = base_sheet(alloc)?;
    let sheet = next_sheet(alloc, &base)?;
    let Ok((board, mut seats)) = Board::open(rt, alloc, threads, base) else {
        return None;
    };
    let seats = seats.as_mut_slice();
    if is_read {
        board.put_up(rt, alloc, sheet).ok()?;
        call_all(rt, alloc, &board, seats, None, number);
    } else {
        call_all(rt, alloc, &board, seats, Some(&sheet), number);
    }
    Some(())
}
