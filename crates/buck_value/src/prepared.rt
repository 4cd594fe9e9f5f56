//! A stem prepared for cutting under a sheet: which log is allowed from point to point, and its worth, from tables.
ghost use Rattle.std.specs.Prelude.{◌≡◌, ◌<◌, ◌≤◌, IfOk, IfSome, IfNone, length};
ghost use Rattle.buck_stem_shape.specs.Stem.{IsStem};
ghost use Rattle.buck_value.specs.Sheet.{IsSheet};
ghost use Rattle.buck_value.specs.Allowed.{IsAllowed, class_of, worth_of};
ghost use Rattle.buck_value.specs.Prepared.{points_of, lengths_of, log_at};

use crate::log::Log;
use crate::sheet::Sheet;
use crate::worth::{measure, worth_in_class};
use buck_apt_instruction::Class;
use buck_record::Memory;
use buck_stem_shape::{Profile, Stem};
use std::alloc::Global;
use std::marker::Model;

/// A stem prepared for cutting under a sheet. Logs start and end at its points, the multiples of the module that lie
/// within the stem. It borrows the sheet and the stem, each for a life of its own.
#[derive(Drop)]
pub struct Prepared<'s, 't> {
    sheet: &'s Sheet,
    stem: &'t Stem,
    profile: Profile<'t>,
}

impl<'s, 't> Model for Prepared<'s, 't> {
    ghost use Rattle.std.specs.Prelude.{◌≡◌};
    ghost use Rattle.buck_stem_shape.specs.points.Profile.{profile_of};
    ghost use Rattle.buck_value.specs.Sheet.{IsSheet};
    ghost use Rattle.buck_value.specs.Prepared.{PreparedParts};

    ghost Value = { PreparedParts };

    ghost view = { λ p. record { sheet = p.sheet.now; stem = p.stem.now } };

    ghost invariant = { λ p.
        IsSheet p.sheet.now × (p.profile ≡ profile_of p.stem.now p.sheet.now.instruction.«module») };
}

impl<'s, 't> Prepared<'s, 't> {
    /// The tables of a stem for a sheet. Refused as `Memory` alone.
    pub fn make(alloc: Global, sheet: &'s Sheet, stem: &'t Stem) -> Result<Prepared<'s, 't>, Memory>
        ensures sheet { IfOk result (λ p. p.sheet ≡ sheet.now) }
        ensures stem { IfOk result (λ p. p.stem ≡ stem.now) }
    {
        let profile = Profile::make(alloc, stem, sheet.instruction().module())?;
        Ok(Prepared {
            sheet,
            stem,
            profile,
        })
    }

    /// How many points there are, the butt among them.
    pub fn points(&self) -> usize
        ensures number { result ≡ points_of self.now }
        ensures few { result ≤ 4001 }
        ensures sheet { IsSheet self.now.sheet }
        ensures stem { IsStem self.now.stem }
    {
        self.profile.points()
    }

    /// The log of point `i`, an assortment and a column.
    fn log(&self, i: usize, assortment: usize, column: usize) -> Log
        requires i { i < points_of self.now }
        requires assortment { assortment < length self.now.sheet.instruction.assortments }
        requires column { column < length (lengths_of self.now assortment) }
        ensures { result ≡ log_at self.now i assortment column }
    {
        // `points` brings that there are few of them, so that the product below fits.
        prove!(i < self.points());
        let instruction = self.sheet.instruction();
        Log {
            start: i as u32 * instruction.module(),
            length: instruction.assortments()[assortment].lengths()[column],
            assortment: assortment as u8,
        }
    }

    /// The class of the log of point `i`, an assortment and a column, or `None` if it isn't allowed.
    pub fn class(&self, i: usize, assortment: usize, column: usize) -> Option<Class>
        requires i { i < points_of self.now }
        requires assortment { assortment < length self.now.sheet.instruction.assortments }
        requires column { column < length (lengths_of self.now assortment) }
        ensures allowed { IfSome result (λ _.
            IsAllowed self.now.sheet.instruction self.now.stem (log_at self.now i assortment column)) }
        ensures class { IfSome result (λ c.
            c ≡ class_of self.now.sheet.instruction self.now.stem (log_at self.now i assortment column)) }
        ensures none { IfNone result
            (IsAllowed self.now.sheet.instruction self.now.stem (log_at self.now i assortment column) → ⊥) }
    {
        // The code that tests a log of any stem: a second test over these tables could differ from it.
        let log = self.log(i, assortment, column);
        Some(measure(self.sheet, self.stem, Some(&self.profile), &log)?.class)
    }

    /// Gives the worth of the log of point `i`, an assortment and a column, in millionths of the price unit, or `None`
    /// if it isn't allowed.
    #[tactic(auto, using(crate::proofs::Classes::valuing))]
    pub fn worth(&self, i: usize, assortment: usize, column: usize) -> Option<u64>
        requires i { i < points_of self.now }
        requires assortment { assortment < length self.now.sheet.instruction.assortments }
        requires column { column < length (lengths_of self.now assortment) }
        ensures allowed { IfSome result (λ _.
            IsAllowed self.now.sheet.instruction self.now.stem (log_at self.now i assortment column)) }
        ensures worth { IfSome result (λ w.
            w ≡ worth_of self.now.sheet self.now.stem (log_at self.now i assortment column)) }
        ensures none { IfNone result
            (IsAllowed self.now.sheet.instruction self.now.stem (log_at self.now i assortment column) → ⊥) }
    {
        let log = self.log(i, assortment, column);
        let found = measure(self.sheet, self.stem, Some(&self.profile), &log)?;
        Some(worth_in_class(self.sheet, found.class, found.top, log.length))
    }
}
