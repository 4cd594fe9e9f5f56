//! Where logs end.
ghost use Rattle.std.specs.Prelude.{◌≡◌, ◌≤◌};
ghost use Rattle.buck_stem_shape.specs.Stem.{IsStem};
ghost use Rattle.buck_value.specs.Allowed.{IsAllowed, end_of};
ghost use Rattle.buck_dp.specs.inner.Logs.{point_after};

use buck_stem_shape::Stem;
use buck_value::{Log, Sheet};

/// Where an allowed log ends, in mm from the butt: it takes up its length and the trim allowance of its assortment.
pub(crate) fn end_of(sheet: &Sheet, stem: &Stem, log: &Log) -> u32
    requires stem { IsStem stem.now }
    requires allowed { IsAllowed sheet.now.instruction stem.now log.now }
    ensures value { result ≡ end_of sheet.now.instruction log.now }
    ensures within { result ≤ 40000 }
{
    let all = sheet.instruction().assortments();
    log.start + log.length + all[log.assortment as usize].trim()
}

/// The first point at or after a place in mm.
pub(crate) fn point_from(step: u32, place: u32) -> u32
    requires step { (10 ≤ step) × (step ≤ 1000) }
    requires place { place ≤ 40000 }
    ensures { result ≡ point_after step place }
{
    (place + (step - 1)) / step
}

/// The first point at or after the end of an allowed log: the next log can start there.
pub(crate) fn point_after(sheet: &Sheet, stem: &Stem, log: &Log) -> usize
    requires stem { IsStem stem.now }
    requires allowed { IsAllowed sheet.now.instruction stem.now log.now }
    ensures { result ≡ point_after sheet.now.instruction.module (end_of sheet.now.instruction log.now) }
{
    point_from(sheet.instruction().module(), end_of(sheet, stem, log)) as usize
}
