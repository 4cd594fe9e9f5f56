//! Cuttings that someone names.
ghost use Rattle.std.specs.Prelude.{◌≡◌, ◌+◌, ◌<◌, ◌≤◌, IfSome, IfNone};
ghost use Rattle.buck_stem_shape.specs.Stem.{IsStem, stem_length};
ghost use Rattle.buck_value.specs.Allowed.{IsAllowed, end_of, top_of};
ghost use Rattle.buck_dp_own_logs.specs.Reasons.{IsTold};
ghost use Rattle.buck_dp_own_logs.specs.Judged.{IsJudged};
ghost use Rattle.buck_dp_own_logs.specs.inner.Measured.{HoldsMeasured};

use crate::reason::Reason;
use buck_apt_instruction::{Assortment, Instruction};
use buck_stem_shape::{Grades, Stem};
use buck_value::{Log, Sheet, column_of, log_worth, row_of, takes};

/// The verdict on a cutting that someone names.
#[derive(Clone, Copy, Debug, PartialEq, Eq, Drop)]
pub enum Judged {
    /// It is admissible.
    Admissible {
        /// The worth of its logs together under the sheet, in millionths of the price unit.
        worth: u64,
    },
    /// It isn't.
    Refused {
        /// Index of the first log that can't be cut, from 0.
        log: usize,
        /// The first reason that applies to that log.
        reason: Reason,
    },
}

/// Where the length of a log ends, in mm from the butt, or `None` if the log with this trim ends past the stem's end.
fn top_within(stem: &Stem, trim: u32, log: &Log) -> Option<u32>
    ensures top { IfSome result (λ top. top ≡ top_of log.now) }
    ensures within { IfSome result (λ _. top_of log.now + trim ≤ stem_length stem.now.samples) }
    ensures none { IfNone result (stem_length stem.now.samples < top_of log.now + trim) }
    ensures valid { IsStem stem.now }
{
    let whole = stem.length();
    // Any log may be asked for, so the sums may not fit.
    let top = log.start.checked_add(log.length)?;
    let end = top.checked_add(trim)?;
    if whole < end {
        return None;
    }
    Some(top)
}

/// The first reason that applies to a log of an assortment, from its length on, if none before it does.
fn reason_measured(assortment: &Assortment, stem: &Stem, log: &Log) -> Option<Reason>
    ensures told { IfSome result (λ r.
        HoldsMeasured assortment.now stem.now log.now (λ i from. IsTold i stem.now from log.now r)) }
    ensures none { IfNone result (HoldsMeasured assortment.now stem.now log.now
        (λ i from. (from ≤ log.now.start) × IsAllowed i stem.now log.now)) }
    ensures stem { IfNone result (IsStem stem.now) }
{
    let Some(column) = column_of(assortment, log.length) else {
        return Some(Reason::Length);
    };
    let Some(top) = top_within(stem, assortment.trim(), log) else {
        return Some(Reason::End);
    };
    let grades = Grades::of(stem.grades_between(log.start, top));
    // The species was tested before, so it is for its grades alone that wood isn't taken here.
    if !takes(assortment, stem.species(), grades) {
        return Some(Reason::Grade);
    }
    let diameter = stem.diameter_at(top);
    if diameter < assortment.diameters()[0] {
        return Some(Reason::Diameter);
    }
    if assortment.upper() <= diameter {
        return Some(Reason::Diameter);
    }
    if assortment.price(row_of(assortment, diameter), column) == 0 {
        return Some(Reason::Price);
    }
    None
}

/// The first reason why a log can't be cut from a stem that was cut up to `from`, in mm from the butt; `None` if it can
/// be. Any log may be asked for. It takes no memory.
pub fn reason_of(instruction: &Instruction, stem: &Stem, from: u32, log: &Log) -> Option<Reason>
    ensures told { IfSome result (IsTold instruction.now stem.now from log.now) }
    ensures none { IfNone result ((from ≤ log.now.start) × IsAllowed instruction.now stem.now log.now) }
    ensures stem { IfNone result (IsStem stem.now) }
{
    if log.start < from {
        return Some(Reason::Order);
    }
    let all = instruction.assortments();
    let place = log.assortment as usize;
    if place >= all.len() {
        return Some(Reason::Assortment);
    }
    let assortment = &all[place];
    if assortment.species() != stem.species() {
        return Some(Reason::Species);
    }
    if log.start % instruction.module() != 0 {
        return Some(Reason::Start);
    }
    reason_measured(assortment, stem, log)
}

/// Where an allowed log ends, in mm from the butt, trim included.
fn end_of(instruction: &Instruction, stem: &Stem, log: &Log) -> u32
    requires stem { IsStem stem.now }
    requires allowed { IsAllowed instruction.now stem.now log.now }
    ensures value { result ≡ end_of instruction.now log.now }
    ensures within { result ≤ 40000 }
{
    log.start + log.length + instruction.assortments()[log.assortment as usize].trim()
}

/// Judges a cutting that someone names, log by log from the butt on: its worth under the sheet if it is admissible,
/// else the first log to which a reason applies, with the first that does. Any logs may be asked for, and none at all.
/// It takes no memory.
#[tactic(auto, using(buck_value::proofs::Rates::worth_low))]
pub fn judge(sheet: &Sheet, stem: &Stem, logs: &[Log]) -> Judged
    ensures { IsJudged sheet.now stem.now logs.now result }
{
    let instruction = sheet.instruction();
    let mut from = 0;
    let mut worth = 0;
    for (k, log) in logs.iter().enumerate() {
        match reason_of(instruction, stem, from, log) {
            Some(reason) => return Judged::Refused { log: k, reason },
            None => {
                worth += log_worth(sheet, stem, log);
                from = end_of(instruction, stem, log);
            }
        }
    }
    Judged::Admissible { worth }
}
