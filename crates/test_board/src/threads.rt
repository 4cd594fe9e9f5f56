//! A seat that reads on a thread of its own, while another puts up sheets.
ghost use Rattle.std.specs.Prelude.{◌≡◌, ◌≤◌};
ghost use Rattle.buck_board.specs.Board.{IsSeatOf};

use crate::callers::are_alike;
use crate::fixtures::*;
use buck_apt_instruction::Instruction;
use buck_board::{Board, BoardSeat, Memory, Snapshot};
use buck_value::Sheet;
use fixture_samples::saw_instruction;
use std::alloc::Global;
use std::sync::atomic::{AtomicBool, AtomicU64, Ordering};
use std::sync::{Arc, Wait};
use std::test::Fail;
use std::thread;

/// Whether a snapshot is of this version or a later one, and shows the prices that were put up for its version.
fn is_right(shown: &Snapshot, least: u32) -> bool {
    let version = shown.version();
    let prices = shown.sheet().prices();
    least <= version && version <= MANY && prices == prices_of(version).as_slice()
}

/// Whether a read shows a sheet that was put up, no older than what the seat had seen, and a second read after it one
/// that is no older, and the same sheet if it has the same version.
fn reads_right(board: &Board, seat: &mut BoardSeat) -> bool
    requires { IsSeatOf board.now seat.old }
    ensures { IsSeatOf board.now seat.new }
{
    let least = seat.seen();
    let Some(a) = board.read(&mut *seat) else {
        return false;
    };
    let Some(b) = board.read(&mut *seat) else {
        return false;
    };
    if !is_right(&a, least) || !is_right(&b, a.version()) {
        return false;
    }
    a.version() != b.version() || are_alike(board, &a, &b)
}

/// What the two threads tell each other: how often the reader has read, and that the writer is done.
#[derive(Drop)]
struct Watch {
    reads: AtomicU64,
    is_done: AtomicBool,
}

/// Reads until the other thread is done, and once more. Gives the version seen last, and none if a read was wrong.
fn read_on(board: &Board, seat: &mut BoardSeat, watch: &Watch) -> Option<u32>
    requires { IsSeatOf board.now seat.old }
{
    for _ in 0..u64::MAX {
        let is_last = watch.is_done.load(Ordering::SeqCst);
        if !reads_right(board, &mut *seat) {
            return None;
        }
        watch.reads.fetch_add(1, Ordering::SeqCst);
        if is_last {
            break;
        }
    }
    Some(seat.seen())
}

/// Waits for a read of the other thread, for some turns at most.
fn await_read(watch: &Watch) {
    let before = watch.reads.load(Ordering::SeqCst);
    for _ in 0..2000 {
        if watch.reads.load(Ordering::SeqCst) != before {
            return;
        }
    }
}

/// Puts up sheets, and raises the front to the version of each.
fn put_all_up<R: Wait>(
    rt: &R,
    alloc: Global,
    board: &Board,
    seat: &mut BoardSeat,
    sheets: &[Arc<Sheet>],
    watch: &Watch,
) -> Result<(), Memory>
    requires { IsSeatOf board.now seat.old }
{
    for sheet in sheets {
        board.put_up(rt, alloc, sheet.clone()?)?;
        board.raise(&mut *seat, sheet.version());
        await_read(watch);
    }
    Ok(())
}

/// The sheets of all versions from 1 on.
fn all_sheets(alloc: Global, instruction: &Arc<Instruction>) -> Result<Vec<Arc<Sheet>>, Fail> {
    let mut sheets = Vec::with_capacity(alloc, MANY as usize)?;
    for version in 1..MANY + 1 {
        sheets.push(sheet_of(alloc, instruction, version)?)?;
    }
    Ok(sheets)
}

/// One seat reads on a thread of its own while the other puts up 1,000 sheets and raises to each: the versions that it
/// reads never fall, and each snapshot shows the prices that were put up for its version.
#[test]
fn reads_beside_another_thread(rt: HostRuntime) -> Result<(), Fail> {
    let alloc = rt.alloc();
    let instruction = saw_instruction(alloc, 1, 1000, "1 1 1 1")?;
    let sheets = all_sheets(alloc, &instruction)?;
    let (board, mut one, mut two) = board_of(&rt, alloc, &instruction)?;
    let watch = Watch {
        reads: AtomicU64::new(0),
        is_done: AtomicBool::new(false),
    };
    let (shared, all, told) = (&board, sheets.as_slice(), &watch);
    let reading = || -> Option<u32>
        requires { IsSeatOf shared.now one }
    { read_on(shared, &mut one, told) };
    let writing = || -> Result<(), Memory>
        requires { IsSeatOf shared.now two }
    {
        let end = put_all_up(&rt, alloc, shared, &mut two, all, told);
        told.is_done.store(true, Ordering::SeqCst);
        end
    };
    let (last, end) = thread::join(&rt, reading, writing);
    assert!(rt; last.is_some());
    end?;
    assert!(rt; last == Some(MANY));
    Ok(())
}
