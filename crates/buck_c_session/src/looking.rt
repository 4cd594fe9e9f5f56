//! Felled stems that are looked at before they are cut: how one would be cut, and what other logs of it are worth.
ghost use Rattle.std.specs.Prelude.{◌≡◌, IfOk, IfErr, IsOk, map};
ghost use Rattle.buck_apt_instruction.specs.Instruction.{IsWithin};
ghost use Rattle.buck_c_session.specs.Felled.{stem_by};
ghost use Rattle.buck_c_session.specs.Looked.{IsAppraised, IsLookFault, IsPlannedNow, IsPreview, log_by};

use crate::felling::{FellFault, Felled, Zone, stem_of};
use crate::kept::KeptBook;
use buck_book_postings::{Entry, Plan};
use buck_dp_own_logs::{Judged, judge};
use buck_value::Log;
use std::alloc::{AllocError, Global};

/// A log that an operator would rather cut.
#[repr(C)]
#[derive(Clone, Copy, Drop)]
pub struct NamedLog {
    /// Start of the log, in mm from the butt.
    pub start: u32,
    /// How long it is, in mm, trim excluded.
    pub length: u32,
    /// Index of its assortment in the instruction, from 0.
    pub assortment: u8,
}

/// The appraisal of a cutting that an operator names.
#[derive(Clone, Copy, Debug, PartialEq, Eq, Drop)]
pub struct Appraisal {
    /// Its worth under the sheet in force, or which log can't be cut, and why.
    pub judged: Judged,
    /// The worth of the best cutting under that sheet, in millionths of the price unit.
    pub best: u64,
}

/// The logs as a stem has them.
fn logs_of(alloc: Global, named: &[NamedLog]) -> Result<Vec<Log>, AllocError>
    ensures { IfOk result (λ logs. logs.items ≡ map log_by named.now) }
{
    let log_by = |g: &NamedLog| Log {
        start: g.start,
        length: g.length,
        assortment: g.assortment,
    };
    named.iter().map(log_by).collect(alloc)
}

impl KeptBook {
    /// The plan of a felled stem under the sheet in force.
    fn plan_felled(
        &mut self,
        alloc: Global,
        felled: &Felled,
        samples: &[u16],
        zones: &[Zone],
    ) -> Result<Plan, FellFault>
        ensures same { self.new ≡ self.old }
        ensures harvester { IsOk result → IsWithin 1 64 felled.now.harvester }
        ensures planned { IfOk result
            (IsPlannedNow self.old.history (stem_by felled.now samples.now zones.now)) }
        ensures refused { IfErr result (IsLookFault felled.now (stem_by felled.now samples.now zones.now)) }
    {
        let stem = stem_of(alloc, felled, samples, zones)?;
        self.preview(alloc, stem).or(Err(FellFault::Memory))
    }

    /// How a felled stem would be cut now: the entry that [`fell`](KeptBook::fell) would give, with nothing committed.
    /// A book at its capacity says it too. Refused as `Harvester` if that isn't from 1 to 64, else as `Stem` if the
    /// stem is outside the limits of a stem file, and as `Memory` if an allocation failed.
    pub fn preview_felled(
        &mut self,
        alloc: Global,
        felled: &Felled,
        samples: &[u16],
        zones: &[Zone],
    ) -> Result<Entry, FellFault>
        ensures same { self.new ≡ self.old }
        ensures entry { IfOk result (IsPreview self.old.history felled.now.harvester
            (stem_by felled.now samples.now zones.now)) }
        ensures refused { IfErr result (IsLookFault felled.now (stem_by felled.now samples.now zones.now)) }
    {
        let plan = self.plan_felled(alloc, felled, samples, zones)?;
        let stem = plan.stem().clone().or(Err(FellFault::Memory))?;
        let cutting = plan.cutting().clone().or(Err(FellFault::Memory))?;
        let book = self.book();
        let _few = book.len();
        Ok(Entry {
            harvester: felled.harvester,
            number: book.calls(felled.harvester) + 1,
            stem,
            version: book.version(),
            cutting,
            worth: plan.worth(),
        })
    }

    /// Appraises logs of a felled stem under the sheet in force: their worth, or which of them can't be cut and why,
    /// beside the worth of the best cutting. Nothing is committed, and a book at its capacity says it too. Any logs may
    /// be named.
    /// Refused as [`preview_felled`](KeptBook::preview_felled) is.
    pub fn appraise_felled(
        &mut self,
        alloc: Global,
        felled: &Felled,
        samples: &[u16],
        zones: &[Zone],
        named: &[NamedLog],
    ) -> Result<Appraisal, FellFault>
        ensures same { self.new ≡ self.old }
        ensures appraised { IfOk result (IsAppraised self.old.history (stem_by felled.now samples.now zones.now)
            (map log_by named.now)) }
        ensures refused { IfErr result (IsLookFault felled.now (stem_by felled.now samples.now zones.now)) }
    {
        let plan = self.plan_felled(alloc, felled, samples, zones)?;
        let logs = logs_of(alloc, named).or(Err(FellFault::Memory))?;
        Ok(Appraisal {
            judged: judge(plan.sheet(), plan.stem(), logs.as_slice()),
            best: plan.worth(),
        })
    }
}
