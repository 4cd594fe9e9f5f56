//! Wrong bodies of a fleet over files.
ghost use Rattle.std.specs.Prelude.{◌≡◌, ◌≢◌, ◌<◌, List, ℕ, Ok, length};
ghost use Rattle.buck_stem_shape.specs.Stem.{StemParts};
ghost use Rattle.buck_stem.specs.Stm.{stm_of};
ghost use Rattle.buck_book_postings.specs.History.{HistoryParts};
ghost use Rattle.buckfleet_engine_input.specs.Harvest.{AreFirsts};
ghost use Rattle.buckfleet_engine_text.specs.Report.{ending_of, report_of};

use crate::views::Calls;
use buck_rule::{Rule, Standing, steady};
use buckfleet_engine::run_fleet_files;
use buckfleet_engine_files::EngineFault;
use std::alloc::Global;
use std::sync::Wait;
use std::thread::Threads;

/// 65 stem files are accepted.
pub fn seats_65_accepted<T: Threads + Wait + Sync>(rt: &T, alloc: Global, out: &mut Vec<u8>) {
    let rule = Rule::new(|s: &Standing| steady(s));
    let mut instruction = b"".as_slice();
    let mut stems = [b"".as_slice(); 65];
    let right = run_fleet_files(
        rt,
        alloc,
        &mut instruction,
        &mut stems,
        rule,
        None::<&mut Vec<u8>>,
        out,
    );
    let is_refused = right == Err(EngineFault::Seats);
    prove!(is_refused);
}

/// The instruction is read before the number of stem files is looked at.
pub fn seats_told_after_the_instruction_was_read<'x, T: Threads + Wait + Sync>(
    rt: &T,
    alloc: Global,
    apt: &'x [u8],
    out: &mut Vec<u8>,
) {
    let rule = Rule::new(|s: &Standing| steady(s));
    let mut instruction = apt;
    let mut stems = [b"".as_slice(); 65];
    let _ = run_fleet_files(
        rt,
        alloc,
        &mut instruction,
        &mut stems,
        rule,
        None::<&mut Vec<u8>>,
        out,
    );
    let is_read = instruction.len() != apt.len();
    prove!(!is_read);
}

/// A stem file that is longer than a file may be is read as one.
pub fn longer_stem_file_accepted<'x, T: Threads + Wait + Sync>(
    rt: &T,
    alloc: Global,
    apt: &'x [u8],
    stm: &'x [u8],
    out: &mut Vec<u8>,
)
    requires long { 67108864 < length stm.now }
{
    let rule = Rule::new(|s: &Standing| steady(s));
    let mut instruction = apt;
    let mut stems = [stm];
    let right = run_fleet_files(
        rt,
        alloc,
        &mut instruction,
        &mut stems,
        rule,
        None::<&mut Vec<u8>>,
        out,
    );
    let is_refused = right.is_err();
    prove!(is_refused);
}

/// The report is written before the journal.
pub fn journal_after_the_report<'x, T: Threads + Wait + Sync>(
    rt: &T,
    alloc: Global,
    apt: &'x [u8],
    stms: &mut [&'x [u8]],
) {
    let rule = Rule::new(|s: &Standing| steady(s));
    let mut instruction = apt;
    let mut journal = Vec::new(alloc);
    let mut report = Vec::new(alloc);
    let outcome = run_fleet_files(
        rt,
        alloc,
        &mut instruction,
        stms,
        rule,
        Some(&mut journal),
        &mut report,
    );
    if report.is_empty() {
        return;
    }
    let is_unwritten = journal.is_empty();
    match outcome {
        Ok(()) => prove!(!is_unwritten),
        Err(EngineFault::Write) => prove!(!is_unwritten),
        Err(_) => unreachable!(),
    }
}

/// More stems are accepted than a history has room for.
pub fn too_many_stems_accepted<'x, T: Threads + Wait + Sync>(
    rt: &T,
    alloc: Global,
    apt: &'x [u8],
    stm: &'x [u8],
    out: &mut Vec<u8>,
)
    requires many { (stems : List StemParts) → stm_of stm.now ≡ Ok stems → 1000000 < length stems }
{
    let rule = Rule::new(|s: &Standing| steady(s));
    let mut instruction = apt;
    let mut stems = [stm];
    let right = run_fleet_files(
        rt,
        alloc,
        &mut instruction,
        &mut stems,
        rule,
        None::<&mut Vec<u8>>,
        out,
    );
    let is_refused = right.is_err();
    prove!(is_refused);
}

/// Another one of the best cuttings is cut, as the last of ties: no history whose cuttings are the first of the best has
/// this report.
pub fn fleet_cut_by_the_last_of_ties<'x, T: Threads + Wait + Sync>(
    rt: &T,
    alloc: Global,
    apt: &'x [u8],
    stms: &mut [&'x [u8]],
    wrong: &[u8],
)
    requires differ { (h : HistoryParts) (counts : List ℕ) → AreFirsts h
        → wrong.now ≢ report_of h.postings (ending_of h counts) }
{
    let rule = Rule::new(|s: &Standing| steady(s));
    let mut instruction = apt;
    let mut right = Vec::new(alloc);
    let outcome = run_fleet_files(
        rt,
        alloc,
        &mut instruction,
        stms,
        rule,
        None::<&mut Vec<u8>>,
        &mut right,
    );
    if outcome.is_ok() {
        prove!(right.as_slice() != wrong);
    }
}

/// The writer is called before a stem file is refused, though with nothing to write.
pub fn fleet_calls_the_writer_before_all_is_read<'x, T: Threads + Wait + Sync>(
    rt: &T,
    alloc: Global,
    apt: &'x [u8],
    stms: &mut [&'x [u8]],
) {
    let rule = Rule::new(|s: &Standing| steady(s));
    let mut instruction = apt;
    let mut out = Calls { number: 0 };
    let outcome = run_fleet_files(
        rt,
        alloc,
        &mut instruction,
        stms,
        rule,
        None::<&mut Vec<u8>>,
        &mut out,
    );
    let is_wrong = out.number != 0 && matches!(outcome, Err(EngineFault::Stm { .. }));
    prove!(!is_wrong);
}
