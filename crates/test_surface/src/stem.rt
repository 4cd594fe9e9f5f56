//! Stems, and what is prepared of one.
ghost use Rattle.std.specs.Prelude.{◌<◌, ◌≤◌};
ghost use Rattle.buck_stem.specs.Stem.{stem_length};
ghost use Rattle.buck_stem.specs.points.Profile.{points_of};

use buck_stem::{Memory, Profile, Stem, StemFault, StmFault};
use std::alloc::Global;

/// `buck_stem`: `read_stm` and `Stem::make`.
pub fn stem_make(
    alloc: Global,
    bytes: &[u8],
    number: u32,
    species: u8,
    samples: Vec<u16>,
    zones: Vec<(u32, u8)>,
) -> (Result<Vec<Stem>, StmFault>, Result<Stem, StemFault>) {
    let read = buck_stem::read_stm(alloc, bytes);
    let made = Stem::make(alloc, number, species, samples, zones);
    (read, made)
}

/// `buck_stem::Stem`: `number`, `species`, `samples`, `zones`, `length`, `diameter_at`, `grade_at` and `grades_between`.
pub fn stem(stem: &Stem, x: u32, a: u32, b: u32)
    requires { x ≤ stem_length stem.now.samples }
{
    let _number: u32 = stem.number();
    let _species: u8 = stem.species();
    let _samples: &[u16] = stem.samples();
    let _zones: &[(u32, u8)] = stem.zones();
    let _length: u32 = stem.length();
    let _diameter: u32 = stem.diameter_at(x);
    let _grade: u8 = stem.grade_at(x);
    let _grades: u8 = stem.grades_between(a, b);
}

/// `buck_stem::Profile::make`.
pub fn profile_make<'a>(alloc: Global, stem: &'a Stem, step: u32) -> Result<Profile<'a>, Memory>
    requires { (10 ≤ step) × (step ≤ 1000) }
{
    Profile::make(alloc, stem, step)
}

/// `buck_stem::Profile`: `points`, `diameter` and `grades`.
pub fn profile<'a>(profile: &Profile<'a>, i: usize, j: usize)
    requires { (i ≤ j) × (j < points_of profile.now) }
{
    let _points: usize = profile.points();
    let _diameter: u32 = profile.diameter(j);
    let _grades: u8 = profile.grades(i, j);
}
