//! What is answered to a line of the input.
ghost use Rattle.std.specs.Prelude.{◌≡◌, ◌≤◌, ◌<◌, ◌++◌, ℕ, List, length, IfOk, OnOk, codes};
ghost use Rattle.std.specs.List.{flat_map};
ghost use Rattle.buck_rule.specs.Stored.{Answers};
ghost use Rattle.buck_record.specs.writing.Line.{line_of};
ghost use Rattle.buck_book_postings.specs.Book.{demand_of};
ghost use Rattle.buck_book_postings.specs.Plan.{IsPlan};
ghost use Rattle.buck_book_postings.specs.declared.posting.Posting.TheVariants.{Demand};
ghost use Rattle.buck_book_cutter.specs.Cut.{StaysByRule};
ghost use Rattle.buckfleet_engine_text.specs.Bucking.{log_line, stem_lines};
ghost use Rattle.buckfleet_engine_text.specs.Report.{posting_line};
ghost use Rattle.buckfleet_live.specs.Answers.{AnswersLine, JudgesOwn, PreviewsStem, own_line, targets_numbers};
ghost use Rattle.buckfleet_live.specs.inner.Answering.{AnswersOne, told};
ghost use Rattle.buckfleet_live.specs.inner.Reading.{held_line};
ghost use Rattle.buck_book_postings.specs.declared.posting.TheConstants.{MOST_POSTINGS};

use crate::lines::whole;
use crate::request::{Asked, Request, read_request};
use buck_book_cutter::Cutter;
use buck_book_postings::{Book, CutFault, DemandRefusal, Plan, TargetsFault};
use buck_dp_own_logs::{Judged, judge};
use buck_record::{Listed, Memory, put_line, put_numbers};
use buck_rule::Standing;
use buck_stem::StmFault;
use buck_stem_shape::Stem;
use buck_value::Log;
use buckfleet_engine_files::EngineFault;
use buckfleet_engine_text::{put_logs, put_stem};
use std::alloc::Global;
use std::sync::Arc;

#[tactic(auto, using(buckfleet_engine_text::proofs::TextLemmas::all_allowed))]
fn put_planned(out: &mut Vec<u8>, plan: &Plan) -> Result<(), Memory>
    ensures put { OnOk result
        (out.new.items ≡ out.old.items ++ flat_map (log_line plan.now.sheet plan.now.stem) plan.now.logs) }
    ensures plan { IsPlan plan.now }
{
    let logs = plan.cutting().logs.as_slice();
    put_logs(out, plan.sheet(), plan.stem(), logs)
}

/// The lines of a stem that is cut as planned.
#[tactic(auto, unfolding(buckfleet_engine_text::specs::Bucking::stem_lines))]
fn stem_text(alloc: Global, plan: &Plan) -> Result<Vec<u8>, Memory>
    ensures { IfOk result (λ text.
        text.items ≡ stem_lines plan.now.sheet (record { stem = plan.now.stem; logs = plan.now.logs })) }
{
    let mut text = Vec::new(alloc);
    let logs = plan.cutting().logs.len();
    put_stem(&mut text, plan.stem(), logs, plan.worth())?;
    put_planned(&mut text, plan)?;
    Ok(text)
}

/// How a stem would be cut under the sheet in force. The answer is its lines.
fn preview<F: Drop>(alloc: Global, cutter: &mut Cutter<F>, stem: Stem) -> Result<Vec<u8>, Memory>
    ensures same { cutter.new ≡ cutter.old }
    ensures previewed { IfOk result (λ text. PreviewsStem cutter.old.history stem text.items) }
{
    let plan = cutter.preview(alloc, Arc::new(alloc, stem)?)?;
    let stem = plan.stem();
    let numbers = [
        u128::from(stem.number()),
        u128::from(stem.length()),
        plan.cutting().logs.len() as u128,
        u128::from(plan.worth()),
    ];
    let mut text = Vec::new(alloc);
    put_line(&mut text, b"PREVIEW", &numbers)?;
    put_planned(&mut text, &plan)?;
    Ok(text)
}

/// The line of a cutting of an operator's own, by the worth of the best one.
fn own_text(
    alloc: Global,
    stem: &Stem,
    own: &[Log],
    best: u64,
    judged: Judged,
) -> Result<Vec<u8>, Memory>
    ensures { IfOk result (λ text. text.items ≡ own_line stem.now own.now best judged) }
{
    let mut text = Vec::new(alloc);
    let number = u128::from(stem.number());
    match judged {
        Judged::Admissible { worth } => {
            let (logs, worth) = (own.len() as u128, u128::from(worth));
            put_line(&mut text, b"OWN", &[number, logs, worth, u128::from(best)])?;
        }
        Judged::Refused { log, reason } => {
            text.extend_from_slice(b"OWN")?;
            put_numbers(&mut text, &[number])?;
            text.extend_from_slice(b" not")?;
            put_numbers(&mut text, &[log as u128 + 1])?;
            text.extend_from_slice(b" ")?;
            text.extend_from_slice(reason.name().as_bytes())?;
            text.extend_from_slice(b"\n")?;
        }
    }
    Ok(text)
}

/// What an operator's own logs of a stem are worth under the sheet in force, or which of them can't be cut. The answer
/// is their line.
fn judge_own<F: Drop>(
    alloc: Global,
    cutter: &mut Cutter<F>,
    stem: Stem,
    own: &[Log],
) -> Result<Vec<u8>, Memory>
    ensures same { cutter.new ≡ cutter.old }
    ensures judged { IfOk result (λ text. JudgesOwn cutter.old.history stem own.now text.items) }
{
    let plan = cutter.preview(alloc, Arc::new(alloc, stem)?)?;
    let judged = judge(plan.sheet(), plan.stem(), own);
    own_text(alloc, plan.stem(), own, plan.worth(), judged)
}

/// Cuts a stem under the sheet in force. The answer is its lines.
#[tactic(auto, using(buck_book_cutter::proofs::Adding::as_before))]
fn cut<F: Fn(&Standing) -> u64 + Drop>(
    alloc: Global,
    cutter: &mut Cutter<F>,
    harvester: u32,
    stem: Stem,
) -> Result<Vec<u8>, EngineFault>
    requires answers { Answers F.Fn cutter.old.rule }
    requires capacity { cutter.old.capacity ≡ MOST_POSTINGS }
    requires harvester { (0 < harvester) × (harvester ≤ 64) }
    ensures rule { cutter.new.rule ≡ cutter.old.rule }
    ensures capacity { cutter.new.capacity ≡ cutter.old.capacity }
    ensures cut { AnswersOne cutter.old.history harvester (Asked.Stem stem) (told result) cutter.new.history }
    ensures given { StaysByRule F.Fn cutter.old cutter.new }
{
    let plan = cutter.preview(alloc, Arc::new(alloc, stem)?)?;
    let text = stem_text(alloc, &plan)?;
    match cutter.commit(alloc, plan, harvester) {
        Ok(_) => Ok(text),
        Err(CutFault::Full) => Err(EngineFault::Full),
        Err(CutFault::Memory) => Err(EngineFault::Memory),
    }
}

fn demand_text<F: Drop>(alloc: Global, book: &Book<F>, harvester: u32) -> Result<Vec<u8>, Memory>
    requires harvester { (0 < harvester) × (harvester ≤ 64) }
    ensures { IfOk result (λ text. (targets : List ℕ) → text.items
        ≡ posting_line (length book.now.history.postings) (Demand (demand_of book.now.history harvester targets))) }
{
    let mut text = Vec::new(alloc);
    let numbers = [
        book.len() as u128,
        u128::from(harvester),
        u128::from(book.calls(harvester)) + 1,
        u128::from(book.version()),
    ];
    put_line(&mut text, b"DEMAND", &numbers)?;
    Ok(text)
}

fn refused_text(alloc: Global, fault: TargetsFault) -> Result<Vec<u8>, Memory>
    ensures { IfOk result (λ text. text.items ≡ line_of (codes "targets fault") (targets_numbers fault)) }
{
    let mut text = Vec::new(alloc);
    let words = b"targets fault";
    match fault {
        TargetsFault::Count => put_line(&mut text, words, &[1])?,
        TargetsFault::Range { at } => put_line(&mut text, words, &[2, at as u128])?,
        TargetsFault::Sum { assortment } => put_line(&mut text, words, &[3, assortment as u128])?,
    }
    Ok(text)
}

/// Puts new targets in force, if they are valid. The answer is the demand's line, or that of the targets' fault.
#[tactic(auto, using(buck_book_cutter::proofs::Adding::as_before))]
fn retarget<F: Fn(&Standing) -> u64 + Drop>(
    alloc: Global,
    cutter: &mut Cutter<F>,
    harvester: u32,
    targets: Listed<u32>,
) -> Result<Vec<u8>, EngineFault>
    requires answers { Answers F.Fn cutter.old.rule }
    requires capacity { cutter.old.capacity ≡ MOST_POSTINGS }
    requires harvester { (0 < harvester) × (harvester ≤ 64) }
    ensures rule { cutter.new.rule ≡ cutter.old.rule }
    ensures capacity { cutter.new.capacity ≡ cutter.old.capacity }
    ensures taken { AnswersOne cutter.old.history harvester (Asked.Targets targets) (told result)
        cutter.new.history }
    ensures given { StaysByRule F.Fn cutter.old cutter.new }
{
    let targets = Arc::new(alloc, targets.into_vec())?;
    let text = demand_text(alloc, cutter.book(), harvester)?;
    match cutter.retarget(alloc, &targets, harvester) {
        Ok(_) => Ok(text),
        Err(DemandRefusal::Full) => Err(EngineFault::Full),
        Err(DemandRefusal::Targets(fault)) => Ok(refused_text(alloc, fault)?),
        Err(DemandRefusal::Memory) => Err(EngineFault::Memory),
    }
}

/// Answers a line, of which these bytes are held; a line feed ended it, or the input.
#[tactic(auto, using(buck_book_cutter::proofs::Adding::as_before))]
pub(crate) fn answer<F: Fn(&Standing) -> u64 + Drop>(
    alloc: Global,
    cutter: &mut Cutter<F>,
    line: &[u8],
    fed: bool,
) -> Result<Vec<u8>, EngineFault>
    requires answers { Answers F.Fn cutter.old.rule }
    requires capacity { cutter.old.capacity ≡ MOST_POSTINGS }
    ensures rule { cutter.new.rule ≡ cutter.old.rule }
    ensures capacity { cutter.new.capacity ≡ cutter.old.capacity }
    ensures answered { AnswersLine cutter.old.history (held_line fed line.now) (told result) cutter.new.history }
    ensures given { StaysByRule F.Fn cutter.old cutter.new }
{
    let Some(line) = whole(line, fed) else {
        return Err(EngineFault::Read { file: 1 });
    };
    let Request { harvester, asked } = match read_request(alloc, line) {
        Ok(None) => return Ok(Vec::new(alloc)),
        Ok(Some(request)) => request,
        Err(StmFault::Memory) => return Err(EngineFault::Memory),
        Err(fault) => return Err(EngineFault::Stm { file: 1, fault }),
    };
    match asked {
        Asked::Stem(stem) => cut(alloc, cutter, harvester, stem),
        Asked::Preview(stem) => Ok(preview(alloc, cutter, stem)?),
        Asked::Own { stem, logs } => Ok(judge_own(alloc, cutter, stem, logs.as_slice())?),
        Asked::Targets(targets) => retarget(alloc, cutter, harvester, targets),
    }
}
