//! Wrong bodies of harvesters in turn over files.
ghost use Rattle.std.specs.Prelude.{◌≡◌, ◌≢◌, ◌<◌, ◌≤◌, List, ℕ, Ok, length};
ghost use Rattle.buck_rule.specs.Stored.{Answers};
ghost use Rattle.buck_stem_shape.specs.Stem.{StemParts};
ghost use Rattle.buck_stem.specs.Stm.{stm_of};
ghost use Rattle.buck_book_postings.specs.History.{HistoryParts};
ghost use Rattle.buck_book_postings.specs.Pricing.{AreSheetsBy};
ghost use Rattle.buck_fleet_round_robin.specs.Turn.{AreInTurn};
ghost use Rattle.buckfleet_engine_input.specs.Harvest.{AreFirsts};
ghost use Rattle.buckfleet_engine_text.specs.Report.{ending_of, report_of};

use crate::views::Calls;
use buck_rule::{Rule, Standing, steady};
use buckfleet_engine::run_in_turn;
use buckfleet_engine_files::EngineFault;
use std::alloc::Global;

/// 65 stem files are accepted.
pub fn turns_of_65_accepted(alloc: Global, out: &mut Vec<u8>) {
    let rule = Rule::new(|s: &Standing| steady(s));
    let mut instruction = b"".as_slice();
    let mut stems = [b"".as_slice(); 65];
    let right = run_in_turn(
        alloc,
        &mut instruction,
        &mut stems,
        rule,
        None::<&mut Vec<u8>>,
        out,
    );
    let is_refused = right == Err(EngineFault::Seats);
    prove!(is_refused);
}

/// The instruction is read before the number of stem files is looked at.
pub fn turns_counted_after_the_instruction_was_read<'x>(
    alloc: Global,
    apt: &'x [u8],
    out: &mut Vec<u8>,
) {
    let rule = Rule::new(|s: &Standing| steady(s));
    let mut instruction = apt;
    let mut stems = [b"".as_slice(); 65];
    let _ = run_in_turn(
        alloc,
        &mut instruction,
        &mut stems,
        rule,
        None::<&mut Vec<u8>>,
        out,
    );
    let is_read = instruction.len() != apt.len();
    prove!(!is_read);
}

/// Something is written although a stem file is refused.
pub fn turns_written_before_all_is_read<'x>(alloc: Global, apt: &'x [u8], stms: &mut [&'x [u8]]) {
    let rule = Rule::new(|s: &Standing| steady(s));
    let mut instruction = apt;
    let mut out = Vec::new(alloc);
    let outcome = run_in_turn(
        alloc,
        &mut instruction,
        stms,
        rule,
        None::<&mut Vec<u8>>,
        &mut out,
    );
    let is_wrong = !out.is_empty() && matches!(outcome, Err(EngineFault::Stm { .. }));
    prove!(!is_wrong);
}

/// The report is of another order: a harvester cuts its second stem before another one has cut its first. No history in
/// turn has this report.
pub fn turns_reported_in_another_order<'x>(
    alloc: Global,
    apt: &'x [u8],
    stms: &mut [&'x [u8]],
    wrong: &[u8],
)
    requires differ { (h : HistoryParts) (counts : List ℕ) → AreInTurn h.postings
        → wrong.now ≢ report_of h.postings (ending_of h counts) }
{
    let rule = Rule::new(|s: &Standing| steady(s));
    let mut instruction = apt;
    let mut right = Vec::new(alloc);
    let outcome = run_in_turn(
        alloc,
        &mut instruction,
        stms,
        rule,
        None::<&mut Vec<u8>>,
        &mut right,
    );
    if outcome.is_ok() {
        prove!(right.as_slice() != wrong);
    }
}

/// More stems are accepted than a history has room for.
pub fn turns_of_too_many_stems_accepted<'x>(
    alloc: Global,
    apt: &'x [u8],
    stm: &'x [u8],
    out: &mut Vec<u8>,
)
    requires many { (stems : List StemParts) → stm_of stm.now ≡ Ok stems → 1000000 < length stems }
{
    let rule = Rule::new(|s: &Standing| steady(s));
    let mut instruction = apt;
    let mut stems = [stm];
    let right = run_in_turn(
        alloc,
        &mut instruction,
        &mut stems,
        rule,
        None::<&mut Vec<u8>>,
        out,
    );
    let is_refused = right.is_err();
    prove!(is_refused);
}

/// The prices are in the relation, but another rule gave them: no history whose prices are the rule's answers has this
/// report.
pub fn turns_by_another_rule<'x, F: Fn(&Standing) -> u64 + Drop>(
    alloc: Global,
    apt: &'x [u8],
    stms: &mut [&'x [u8]],
    rule: Rule<F>,
    wrong: &[u8],
)
    requires answers { Answers F.Fn rule }
    requires differ { (h : HistoryParts) (counts : List ℕ) → AreSheetsBy F.Fn rule h
        → wrong.now ≢ report_of h.postings (ending_of h counts) }
{
    let mut instruction = apt;
    let mut right = Vec::new(alloc);
    let outcome = run_in_turn(
        alloc,
        &mut instruction,
        stms,
        rule,
        None::<&mut Vec<u8>>,
        &mut right,
    );
    if outcome.is_ok() {
        prove!(right.as_slice() != wrong);
    }
}

/// Stems are too many, though they are few.
pub fn turns_full_at_once<'x>(alloc: Global, apt: &'x [u8], stm: &'x [u8], out: &mut Vec<u8>)
    requires few { (stems : List StemParts) → stm_of stm.now ≡ Ok stems → length stems ≤ 1000000 }
{
    let rule = Rule::new(|s: &Standing| steady(s));
    let mut instruction = apt;
    let mut stems = [stm];
    let outcome = run_in_turn(
        alloc,
        &mut instruction,
        &mut stems,
        rule,
        None::<&mut Vec<u8>>,
        out,
    );
    let is_full = outcome == Err(EngineFault::Full);
    prove!(!is_full);
}

/// Another one of the best cuttings is cut, as the last of ties: no history whose cuttings are the first of the best has
/// this report.
pub fn turns_cut_by_the_last_of_ties<'x>(
    alloc: Global,
    apt: &'x [u8],
    stms: &mut [&'x [u8]],
    wrong: &[u8],
)
    requires differ { (h : HistoryParts) (counts : List ℕ) → AreFirsts h
        → wrong.now ≢ report_of h.postings (ending_of h counts) }
{
    let rule = Rule::new(|s: &Standing| steady(s));
    let mut instruction = apt;
    let mut right = Vec::new(alloc);
    let outcome = run_in_turn(
        alloc,
        &mut instruction,
        stms,
        rule,
        None::<&mut Vec<u8>>,
        &mut right,
    );
    if outcome.is_ok() {
        prove!(right.as_slice() != wrong);
    }
}

/// The writer is called before a stem file is refused, though with nothing to write.
pub fn turns_call_the_writer_before_all_is_read<'x>(
    alloc: Global,
    apt: &'x [u8],
    stms: &mut [&'x [u8]],
) {
    let rule = Rule::new(|s: &Standing| steady(s));
    let mut instruction = apt;
    let mut out = Calls { number: 0 };
    let outcome = run_in_turn(
        alloc,
        &mut instruction,
        stms,
        rule,
        None::<&mut Vec<u8>>,
        &mut out,
    );
    let is_wrong = out.number != 0 && matches!(outcome, Err(EngineFault::Stm { .. }));
    prove!(!is_wrong);
}
