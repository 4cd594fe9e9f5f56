//! The calls that C makes to look at a felled stem before it is cut.
ghost use Rattle.std.specs.Prelude.{◌≡◌, IfOk, IfErr, map};
ghost use Rattle.buck_c_session.specs.Felled.{stem_by};
ghost use Rattle.buck_c_session.specs.Looked.{log_by};
ghost use Rattle.buck_c_calls.specs.Looked.{AnswersPreview, AnswersPrice, IsNotLookedAt, Previews, ShowsAppraisal};

use crate::book::{CLOSED, DONE, status_of_fell};
use crate::showing::{Cut, show};
use buck_c_session::{Block, Felled, KeptBook, NamedLog, Zone};
use buck_dp_own_logs::Judged;
use std::alloc::Global;

/// The worth of a cutting that an operator names.
#[repr(C)]
#[derive(Clone, Copy, Drop)]
pub struct Appraised {
    /// Worth of its logs together, in millionths of the price unit; 0 if one can't be cut.
    pub worth: u64,
    /// Worth of the best cutting's logs together, in millionths of the price unit.
    pub best: u64,
    /// Index of the first log that can't be cut, from 0; the number of logs if all can be.
    pub log: usize,
    /// The version of the prices in force, from 0.
    pub version: u32,
    /// Why that log can't be cut: a reason's number from 1 to 9; 0 if all can be.
    pub reason: u8,
}

/// Shows how a felled stem would be cut now.
#[tactic(auto, using(crate::proofs::Cuttings::preview_under))]
fn preview(
    alloc: Global,
    kept: &mut KeptBook,
    felled: &Felled,
    samples: &[u16],
    zones: &[Zone],
    cut: &mut Cut,
) -> u8
    ensures same { kept.new ≡ kept.old }
    ensures cut { Previews felled.now samples.now zones.now kept.old cut.old cut.new result }
{
    match kept.preview_felled(alloc, felled, samples, zones) {
        Ok(entry) => {
            let book = kept.book();
            show(book.sheet(), book.len() as u32, &entry, cut);
            DONE
        }
        Err(fault) => status_of_fell(fault),
    }
}

/// Shows how a felled stem would be cut now, under the prices in force: the first of the best cuttings, its worth, and
/// the position and the number that [`buckfleet_cut`](crate::buckfleet_cut) would give it. Nothing is committed. The
/// answer is 0, 1 if the stem is outside the limits of a stem file, 3 if memory ran out, 7 if the block holds no book,
/// or 8 if the harvester isn't from 1 to 64; but for 0 nothing is shown.
pub fn buckfleet_preview(
    alloc: Global,
    book: &mut Block,
    felled: &Felled,
    samples: &[u16],
    zones: &[Zone],
    cut: &mut Cut,
) -> u8
    ensures same { book.new.handle.held ≡ book.old.handle.held }
    ensures preview { AnswersPreview felled.now samples.now zones.now book.old.handle.held cut.old cut.new result }
{
    let Some(mut kept) = book.take(alloc) else {
        return CLOSED;
    };
    let status = preview(alloc, &mut kept, felled, samples, zones, cut);
    book.put(kept);
    status
}

/// What logs of a felled stem are worth now, or the status of why nothing is said.
fn appraise(
    alloc: Global,
    kept: &mut KeptBook,
    felled: &Felled,
    samples: &[u16],
    zones: &[Zone],
    logs: &[NamedLog],
) -> Result<Appraised, u8>
    ensures same { kept.new ≡ kept.old }
    ensures shown { IfOk result (ShowsAppraisal kept.old.history (stem_by felled.now samples.now zones.now)
        (map log_by logs.now)) }
    ensures refused { IfErr result (IsNotLookedAt felled.now (stem_by felled.now samples.now zones.now)) }
{
    let appraisal = match kept.appraise_felled(alloc, felled, samples, zones, logs) {
        Ok(appraisal) => appraisal,
        Err(fault) => return Err(status_of_fell(fault)),
    };
    let version = kept.book().version();
    let best = appraisal.best;
    match appraisal.judged {
        Judged::Admissible { worth } => Ok(Appraised {
            worth,
            best,
            log: logs.len(),
            version,
            reason: 0,
        }),
        Judged::Refused { log, reason } => Ok(Appraised {
            worth: 0,
            best,
            log,
            version,
            reason: reason.number(),
        }),
    }
}

/// Says what logs of a felled stem are worth under the prices in force, or which of them can't be cut and why, beside
/// the worth of the best cutting. Nothing is committed. Any logs may be named. The answer is as that of
/// [`buckfleet_preview`]; but for 0 nothing is said.
pub fn buckfleet_price_of(
    alloc: Global,
    book: &mut Block,
    felled: &Felled,
    samples: &[u16],
    zones: &[Zone],
    logs: &[NamedLog],
    appraisal: &mut Appraised,
) -> u8
    ensures same { book.new.handle.held ≡ book.old.handle.held }
    ensures price { AnswersPrice felled.now samples.now zones.now logs.now book.old.handle.held
        appraisal.old appraisal.new result }
{
    let Some(mut kept) = book.take(alloc) else {
        return CLOSED;
    };
    let answer = appraise(alloc, &mut kept, felled, samples, zones, logs);
    book.put(kept);
    match answer {
        Ok(found) => {
            *appraisal = found;
            DONE
        }
        Err(status) => status,
    }
}
