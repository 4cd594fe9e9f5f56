//! A felled stem: diameters and grades along it.

ghost use Rattle.std.specs.Int.{bit_at};
ghost use Rattle.std.specs.Prelude.{◌≡◌, ◌<◌, ◌≤◌, ◌+◌, ◌-◌, ◌/◌, ◌⊎◌, ℕ, List, length, ◌↔◌, IfOk, IsOk, OnOk, Err, IsTrue, All, slice_index, slice_index_or};
ghost use Rattle.buck_stem_shape.specs.Stem.{stem_of, stem_length, least, diameter_at, grade_at, HasGrade, IsGrade, IsRisingFrom, IsStem};
ghost use Rattle.buck_stem_shape.specs.inner.Zones.{ShowsGrade};

use crate::body::Body;
use crate::grades::Grades;
use crate::slots::{GRADES, MOST_SAMPLES, MOST_ZONES, SAMPLES, SPECIES, STARTS};
use std::alloc::{AllocError, Global};
use std::marker::Model;
use std::mem::size_of;
use thiserror::Error;

/// A felled stem, within the limits of the stem file.
#[derive(Drop)]
pub struct Stem {
    number: u32,
    species: u8,
    body: Body,
}

// What a stem takes, but for the lists of a long one.
const _: () = prove!(size_of::<Stem>() == 24);

impl Model for Stem {
    ghost use Rattle.std.specs.Prelude.{};
    ghost use Rattle.buck_stem_shape.specs.Stem.{StemParts, stem_of, IsStem};

    ghost Value = { StemParts };

    ghost view = { λ s. stem_of s.number s.species s.body.samples s.body.zones };

    ghost invariant = { λ s. IsStem (stem_of s.number s.species s.body.samples s.body.zones) };
}

/// The least of some samples.
#[tactic(auto, using(crate::proofs::Diameters::least_next, crate::proofs::Diameters::least_first))]
fn least(samples: &[u16]) -> u16
    requires { 0 < length samples.now }
    ensures { result ≡ least samples.now }
{
    // Computed at each call: the compiler compares many samples at once, and a log asks about twice. A list of these
    // costs more to make than it saves.
    let mut low = samples[0];
    for i in 0..samples.len() - 1 {
        low = low.min(samples[i + 1]);
    }
    low
}

/// The grade of the last zone that starts at or before `x`, else 1.
fn grade_in(zones: &[(u32, u8)], x: u32) -> u8
    requires { All (λ z. IsGrade z.1) zones.now }
    ensures grade { result ≡ grade_at zones.now x }
    ensures range { IsGrade result }
{
    let mut grade = 1;
    for zone in zones {
        if zone.0 <= x {
            grade = zone.1;
        }
    }
    grade
}

/// The grades of the places from `a` up to `b`, without `b`.
fn grades_in(zones: &[(u32, u8)], a: u32, b: u32) -> Grades
    requires some { a < b }
    requires rising { IsRisingFrom 0 zones.now }
    requires graded { All (λ z. IsGrade z.1) zones.now }
    ensures { (g : ℕ) → 1 ≤ g → ShowsGrade result g ↔ HasGrade zones.now a b g }
{
    let mut grades = Grades::none();
    let mut from = a;
    let mut grade = 1;
    for zone in zones {
        if b <= zone.0 {
            return grades.with(grade);
        }
        if from < zone.0 {
            grades = grades.with(grade);
            from = zone.0;
        }
        grade = zone.1;
    }
    grades.with(grade)
}

/// Why the parts of a stem are refused.
#[derive(Clone, Copy, Debug, PartialEq, Eq, Error)]
pub enum StemFault {
    /// They are outside the limits of the stem file's table.
    #[error("the stem is outside its limits")]
    Limits,
    /// An allocation failed.
    #[error("out of memory")]
    Memory,
}

/// Whether each zone starts after the one before.
fn is_rising(zones: &[(u32, u8)]) -> bool
    ensures { IsTrue result ↔ IsRisingFrom 0 zones.now }
{
    let mut low: u64 = 0;
    for zone in zones {
        let start = u64::from(zone.0);
        if start < low {
            return false;
        }
        low = start + 1;
    }
    true
}

/// Whether each zone has a grade that it may have.
fn is_graded(zones: &[(u32, u8)]) -> bool
    ensures { IsTrue result ↔ All (λ z. IsGrade z.1) zones.now }
{
    zones.iter().all(|z| GRADES.low <= u32::from(z.1) && u32::from(z.1) <= GRADES.high)
}

/// Whether each zone starts where one may.
fn starts_fit(zones: &[(u32, u8)]) -> bool
    ensures { IsTrue result ↔ All (λ z. z.0 ≤ STARTS.high) zones.now }
{
    zones.iter().all(|z| z.0 <= STARTS.high)
}

/// Whether each sample is one that may be. No way leads out of the loop, so that several are compared at once.
fn is_thin(samples: &[u16]) -> bool
    ensures { IsTrue result ↔ All (λ d. d ≤ SAMPLES.high) samples.now }
{
    let mut most = 0;
    for sample in samples {
        most = most.max(*sample);
    }
    u32::from(most) <= SAMPLES.high
}

/// Whether these are the parts of a stem, whatever its number.
fn is_stem(species: u8, samples: &[u16], zones: &[(u32, u8)]) -> bool
    ensures { (number : ℕ) → IsTrue result ↔ IsStem (stem_of number species samples.now zones.now) }
{
    SPECIES.low <= u32::from(species)
        && (1 <= samples.len() && samples.len() <= MOST_SAMPLES)
        && is_thin(samples)
        && zones.len() <= MOST_ZONES
        && starts_fit(zones)
        && is_rising(zones)
        && is_graded(zones)
}

impl Stem {
    /// The stem of these parts: its number, its species, its diameters in mm under bark, one per 100 mm from the
    /// butt, and its zones, each the place in mm where it starts and the grade from there on. Refused as `Limits`
    /// if they are outside the limits of a stem file, and as `Memory` if there is no memory to keep them; the
    /// lists are then dropped.
    pub fn make(
        alloc: Global,
        number: u32,
        species: u8,
        samples: Vec<u16>,
        zones: Vec<(u32, u8)>,
    ) -> Result<Stem, StemFault>
        ensures made { IfOk result (λ s. s ≡ stem_of number species samples.items zones.items) }
        ensures within { IsOk result → IsStem (stem_of number species samples.items zones.items) }
        ensures limits { (result ≡ Err StemFault.Limits)
            ↔ (IsStem (stem_of number species samples.items zones.items) → ⊥) }
    {
        if !is_stem(species, samples.as_slice(), zones.as_slice()) {
            return Err(StemFault::Limits);
        }
        match Stem::of_parts(alloc, number, species, samples, zones) {
            Ok(stem) => Ok(stem),
            Err(_) => Err(StemFault::Memory),
        }
    }

    /// The stem of parts that are known to be within the limits of a stem file, as [`make`](Stem::make) has it, with no
    /// test of them: its number, its species, its diameters in mm under bark, one per 100 mm from the butt, and its
    /// zones, each the place in mm where it starts and the grade from there on. Refused only if there is no memory to
    /// keep them; the lists are then dropped.
    pub fn of_parts(
        alloc: Global,
        number: u32,
        species: u8,
        samples: Vec<u16>,
        zones: Vec<(u32, u8)>,
    ) -> Result<Stem, AllocError>
        requires { IsStem (stem_of number species samples.items zones.items) }
        ensures { IfOk result (λ s. s ≡ stem_of number species samples.items zones.items) }
    {
        let body = Body::keep(alloc, samples, zones)?;
        Ok(Stem {
            number,
            species,
            body,
        })
    }

    /// The stem's number in its file.
    pub fn number(&self) -> u32
        ensures { result ≡ self.now.number }
    {
        self.number
    }

    /// The diameters in mm under bark, one per 100 mm from the butt.
    pub fn samples(&self) -> &[u16]
        ensures { result.now ≡ self.now.samples }
    {
        self.body.samples()
    }

    /// The zones: the place in mm where each starts, and the grade from there on.
    pub fn zones(&self) -> &[(u32, u8)]
        ensures { result.now ≡ self.now.zones }
    {
        self.body.zones()
    }

    /// The length in millimetres.
    pub fn length(&self) -> u32
        ensures length { result ≡ stem_length self.now.samples }
        ensures valid { IsStem self.now }
    {
        100 * (self.body.samples().len() as u32 - 1)
    }

    /// The species, from 1 to 255.
    pub fn species(&self) -> u8
        ensures { result ≡ self.now.species }
    {
        self.species
    }

    /// The diameter in mm under bark at `x` millimetres from the butt, `x` being at most the length: at a sample the
    /// least of the samples so far, between two on the straight line from the one to the other, rounded down.
    #[tactic(auto, using(crate::proofs::Diameters::least_next))]
    pub fn diameter_at(&self, x: u32) -> u32
        requires { x ≤ stem_length self.now.samples }
        ensures { result ≡ diameter_at self.now.samples x }
    {
        let i = (x / 100) as usize;
        let part = x % 100;
        let samples = self.body.samples();
        let low = u32::from(least(&samples[..i + 1]));
        if part == 0 {
            return low;
        }
        let next = low.min(u32::from(samples[i + 1]));
        (low * (100 - part) + next * part) / 100
    }

    /// The grade at `x` millimetres from the butt, from 1 to 8: that of the last zone that starts at or before `x`,
    /// else 1.
    pub fn grade_at(&self, x: u32) -> u8
        ensures grade { result ≡ grade_at self.now.zones x }
        ensures range { IsGrade result }
    {
        grade_in(self.body.zones(), x)
    }

    /// The grades of the places from `a` up to `b`, in mm, without `b`: bit g - 1 for grade g. If `a` is `b` or
    /// more there is none.
    pub fn grades_between(&self, a: u32, b: u32) -> u8
        ensures { (g : ℕ) → 1 ≤ g → (bit_at result (g - 1) ≡ 1) ↔ HasGrade self.now.zones a b g }
    {
        if a >= b {
            return 0;
        }
        grades_in(self.body.zones(), a, b).mask()
    }
}
