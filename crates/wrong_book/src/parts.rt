//! Wrong answers of a replay in parts.
ghost use Rattle.std.specs.Prelude.{◌≡◌, ◌-◌, ◌<◌, ◌≤◌, length, slice_get, Some, take};
ghost use Rattle.buck_dp.specs.Best.{IsAdmissible, cutting_worth};
ghost use Rattle.buck_book_postings.specs.History.{sheet_at};
ghost use Rattle.buck_book_replay.specs.Replay.{IsNumbered};

use buck_apt_instruction::Instruction;
use buck_book_journal::{Journal, ReplayFault};
use buck_book_postings::{Entry, Posting};
use buck_book_replay::replay_in_parts;
use buck_dp::Cutting;
use std::alloc::Global;
use std::sync::Arc;
use std::thread::Threads;

/// The last part is dropped: a journal is taken whose last cut is outvalued.
pub fn last_part_dropped<T: Threads + Sync>(
    rt: &T,
    alloc: Global,
    instruction: &Arc<Instruction>,
    journal: &Journal,
    entry: &Entry,
    dearer: &Cutting,
)
    requires few { length journal.now.entries ≤ 1000000 }
    requires last { slice_get journal.now.entries (length journal.now.entries - 1) ≡ Some (Posting.Cut entry.now) }
    requires admissible { IsAdmissible
        (sheet_at instruction.now.value journal.now.sheets entry.now.version) entry.now.stem dearer.now.logs.items }
    requires more { cutting_worth (sheet_at instruction.now.value journal.now.sheets entry.now.version)
        entry.now.stem entry.now.logs
        < cutting_worth (sheet_at instruction.now.value journal.now.sheets entry.now.version)
        entry.now.stem dearer.now.logs.items }
{
    let right = replay_in_parts(rt, alloc, 2, instruction, journal).is_ok();
    let wrong = true;
    prove!(right != wrong);
}

/// The parts are swapped: the fault is a cut that comes after one which is outvalued too.
pub fn later_part_told_first<T: Threads + Sync>(
    rt: &T,
    alloc: Global,
    instruction: &Arc<Instruction>,
    journal: &Journal,
    first: usize,
    entry: &Entry,
    dearer: &Cutting,
)
    requires few { length journal.now.entries ≤ 1000000 }
    requires there { slice_get journal.now.entries first ≡ Some (Posting.Cut entry.now) }
    requires admissible { IsAdmissible
        (sheet_at instruction.now.value journal.now.sheets entry.now.version) entry.now.stem dearer.now.logs.items }
    requires more { cutting_worth (sheet_at instruction.now.value journal.now.sheets entry.now.version)
        entry.now.stem entry.now.logs
        < cutting_worth (sheet_at instruction.now.value journal.now.sheets entry.now.version)
        entry.now.stem dearer.now.logs.items }
{
    let Err(fault) = replay_in_parts(rt, alloc, 2, instruction, journal) else {
        return;
    };
    let ReplayFault::Outvalued { at } = fault else {
        return;
    };
    let is_wrong = at > first;
    prove!(!is_wrong);
}

/// The search alone decides, whatever the walk in order found: a cut that is outvalued, at a posting of a wrong number
/// or behind it.
pub fn outvalued_told_past_a_wrong_number<T: Threads + Sync>(
    rt: &T,
    alloc: Global,
    instruction: &Arc<Instruction>,
    journal: &Journal,
    first: usize,
    posting: &Posting,
)
    requires few { length journal.now.entries ≤ 1000000 }
    requires there { slice_get journal.now.entries first ≡ Some posting.now }
    requires wrong { IsNumbered (take first journal.now.entries) posting.now → ⊥ }
{
    let Err(fault) = replay_in_parts(rt, alloc, 2, instruction, journal) else {
        return;
    };
    let ReplayFault::Outvalued { at } = fault else {
        return;
    };
    let is_wrong = at >= first;
    prove!(!is_wrong);
}

/// The walk in order alone decides, whatever the search found: a wrong number behind a cut that is outvalued.
pub fn wrong_number_told_past_an_outvalued_cut<T: Threads + Sync>(
    rt: &T,
    alloc: Global,
    instruction: &Arc<Instruction>,
    journal: &Journal,
    first: usize,
    entry: &Entry,
    dearer: &Cutting,
)
    requires few { length journal.now.entries ≤ 1000000 }
    requires there { slice_get journal.now.entries first ≡ Some (Posting.Cut entry.now) }
    requires admissible { IsAdmissible
        (sheet_at instruction.now.value journal.now.sheets entry.now.version) entry.now.stem dearer.now.logs.items }
    requires more { cutting_worth (sheet_at instruction.now.value journal.now.sheets entry.now.version)
        entry.now.stem entry.now.logs
        < cutting_worth (sheet_at instruction.now.value journal.now.sheets entry.now.version)
        entry.now.stem dearer.now.logs.items }
{
    let Err(fault) = replay_in_parts(rt, alloc, 2, instruction, journal) else {
        return;
    };
    let ReplayFault::Numbering { at } = fault else {
        return;
    };
    let is_wrong = at > first;
    prove!(!is_wrong);
}
