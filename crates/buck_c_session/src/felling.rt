//! Stems as a caller in another language has them, cut one by one.
ghost use Rattle.std.specs.Prelude.{◌≡◌, IfOk, IfErr, IsOk, map};
ghost use Rattle.buck_apt_instruction.specs.Instruction.{IsWithin};
ghost use Rattle.buck_stem_shape.specs.Stem.{IsStem};
ghost use Rattle.buck_book_cutter.specs.Cut.{HasCut};
ghost use Rattle.buck_c_session.specs.Kept.{ArePricesBy, SameTerms};
ghost use Rattle.buck_c_session.specs.Felled.{pair_of, stem_by, IsFellFault};
ghost use Rattle.buck_c_session.specs.Looked.{IsLookFault};

use crate::kept::KeptBook;
use buck_book_postings::{CutFault, Entry};
use buck_stem_shape::{Stem, StemFault};
use std::alloc::{AllocError, Global};
use std::sync::Arc;
use thiserror::Error;

/// A felled stem, but for its diameters and its zones.
#[repr(C)]
#[derive(Clone, Copy, Drop)]
pub struct Felled {
    /// Number of the harvester that cuts it, 1 to 64.
    pub harvester: u32,
    /// The stem's number, 0 to 4,294,967,295.
    pub number: u32,
    /// Its species, 1 to 255.
    pub species: u8,
}

/// A zone of a stem: the grade from a place on.
#[repr(C)]
#[derive(Clone, Copy, Drop)]
pub struct Zone {
    /// Start of the zone, in mm from the butt.
    pub start: u32,
    /// Its grade, 1 to 8.
    pub grade: u8,
}

/// Why a felled stem wasn't cut. The book is then as before.
#[derive(Clone, Copy, PartialEq, Eq, Debug, Drop, Error)]
pub enum FellFault {
    /// The harvester isn't from 1 to 64.
    #[error("the harvester is not from 1 to 64")]
    Harvester,
    /// The stem is outside the limits of a stem file.
    #[error("the stem is outside the limits")]
    Stem,
    /// The history is at its capacity.
    #[error("the history is at its capacity")]
    Full,
    /// An allocation failed.
    #[error("out of memory")]
    Memory,
}

/// The zones as a stem has them.
fn zones_of(alloc: Global, zones: &[Zone]) -> Result<Vec<(u32, u8)>, AllocError>
    ensures { IfOk result (λ pairs. pairs.items ≡ map pair_of zones.now) }
{
    zones.iter().map(|z| (z.start, z.grade)).collect(alloc)
}

/// The stem of these parts, which a harvester from 1 to 64 cuts.
pub(crate) fn stem_of(
    alloc: Global,
    felled: &Felled,
    samples: &[u16],
    zones: &[Zone],
) -> Result<Arc<Stem>, FellFault>
    ensures made { IfOk result (λ stem. stem.value ≡ stem_by felled.now samples.now zones.now) }
    ensures valid { IfOk result (λ stem. IsStem stem.value) }
    ensures harvester { IsOk result → IsWithin 1 64 felled.now.harvester }
    ensures refused { IfErr result (IsLookFault felled.now (stem_by felled.now samples.now zones.now)) }
{
    if felled.harvester == 0 || felled.harvester > 64 {
        return Err(FellFault::Harvester);
    }
    let zones = zones_of(alloc, zones).or(Err(FellFault::Memory))?;
    let samples = Vec::from_slice(alloc, samples).or(Err(FellFault::Memory))?;
    match Stem::make(alloc, felled.number, felled.species, samples, zones) {
        Ok(stem) => Arc::new(alloc, stem).or(Err(FellFault::Memory)),
        Err(StemFault::Limits) => Err(FellFault::Stem),
        Err(StemFault::Memory) => Err(FellFault::Memory),
    }
}

impl KeptBook {
    /// Cuts a felled stem as [`cut`](KeptBook::cut) does: with its diameters in mm under bark, one per 100 mm from the
    /// butt, and its zones. Refused as `Harvester` if that isn't from 1 to 64, else as `Stem` if the stem is outside
    /// the limits of a stem file, else as `Full` at the capacity, and as `Memory` if an allocation failed.
    pub fn fell(
        &mut self,
        alloc: Global,
        felled: &Felled,
        samples: &[u16],
        zones: &[Zone],
    ) -> Result<Entry, FellFault>
        ensures terms { SameTerms self.old self.new }
        ensures cut { IfOk result (HasCut (ArePricesBy self.old.rule) felled.now.harvester
            (stem_by felled.now samples.now zones.now) self.old.history self.new.history) }
        ensures left { IfErr result (λ _. self.new ≡ self.old) }
        ensures refused { IfErr result (IsFellFault self.old felled.now (stem_by felled.now samples.now zones.now)) }
    {
        let stem = stem_of(alloc, felled, samples, zones)?;
        match self.cut(alloc, felled.harvester, stem) {
            Ok(entry) => Ok(entry),
            Err(CutFault::Full) => Err(FellFault::Full),
            Err(CutFault::Memory) => Err(FellFault::Memory),
        }
    }
}
