//! The diameters of a stem at the multiples of a module.
ghost use Rattle.std.specs.Prelude.{◌≡◌, ◌<◌, ◌≤◌, ◌+◌, ◌/◌, ℕ, List, length, IfOk, OnOk, slice_index};
ghost use Rattle.buck_stem_shape.specs.Stem.{IsStem, stem_length, least_to};
ghost use Rattle.buck_stem_shape.specs.points.Profile.{profile_of, points_of};
ghost use Rattle.buck_stem_shape.specs.inner.Diameters.{AreDiametersBy, AreDiametersTo};

use crate::stem::Stem;
use std::alloc::AllocError;

/// Puts the least so far of each sample at its place.
#[tactic(auto, using(crate::proofs::Diameters::least_first))]
fn put_lows(samples: &[u16], places: &mut [u32])
    requires some { 0 < length samples.now }
    requires number { length places.old ≡ length samples.now }
    ensures number { length places.new ≡ length samples.now }
    ensures lows { (k : ℕ) → k < length samples.now → slice_index places.new k ≡ least_to samples.now k }
{
    let mut low = u32::from(samples[0]);
    places[0] = low;
    for i in 0..samples.len() - 1 {
        low = low.min(u32::from(samples[i + 1]));
        places[i + 1] = low;
    }
}

/// Puts the diameters at the samples into a list, in the place of what it holds.
fn put_at_samples(samples: &[u16], out: &mut Vec<u32>) -> Result<(), AllocError>
    requires { 0 < length samples.now }
    ensures number { OnOk result (length out.new.items ≡ length samples.now) }
    ensures right { OnOk result (AreDiametersBy samples.now 100 out.new.items) }
{
    out.resize(samples.len(), 0)?;
    put_lows(samples, out.as_mut_slice());
    Ok(())
}

/// Puts the diameters at each step from `part` mm past a sample on and before the next sample behind the others. The
/// answer is how far past the next sample the step after them is, in mm.
#[tactic(auto, using(crate::proofs::Diameters::fallen))]
fn push_between(
    low: u32,
    next: u32,
    part: u32,
    step: u32,
    out: &mut Vec<u32>,
) -> Result<u32, AllocError>
    requires low { (low ≤ 65535) × (next ≤ low) }
    requires step { (10 ≤ step) × (step ≤ 1000) }
    requires part { part < step }
    ensures part { IfOk result (λ r. r < step) }
    ensures right { IfOk result (λ r. (samples : List ℕ) (i : ℕ) → low ≡ least_to samples i
        → next ≡ least_to samples (i + 1)
        → AreDiametersTo samples step i part out.old.items → AreDiametersTo samples step (i + 1) r out.new.items) }
{
    let mut past = part;
    let fall = low - next;
    while past < 100 {
        out.push((low * 100 - fall * past) / 100)?;
        past += step;
    }
    Ok(past - 100)
}

/// Puts the diameters at each step along the samples into an empty list.
#[tactic(auto, using(crate::proofs::Diameters::least_next))]
fn push_along(samples: &[u16], step: u32, out: &mut Vec<u32>) -> Result<(), AllocError>
    requires some { 0 < length samples.now }
    requires step { (10 ≤ step) × (step ≤ 1000) }
    requires none { length out.old.items ≡ 0 }
    ensures { OnOk result ((length out.new.items ≡ stem_length samples.now / step + 1)
        × AreDiametersBy samples.now step out.new.items) }
{
    let last = samples.len() - 1;
    let mut low = u32::from(samples[0]);
    let mut part = 0;
    for i in 0..last {
        let next = low.min(u32::from(samples[i + 1]));
        part = push_between(low, next, part, step, out)?;
        low = next;
    }
    if part == 0 {
        out.push(low)?;
    }
    Ok(())
}

/// Puts the diameter at each point in the place of others.
pub(crate) fn put_diameters(
    diameters: &mut Vec<u32>,
    stem: &Stem,
    step: u32,
) -> Result<(), AllocError>
    requires { (10 ≤ step) × (step ≤ 1000) }
    ensures number { OnOk result (length diameters.new.items ≡ points_of (profile_of stem.now step)) }
    ensures right { OnOk result (AreDiametersBy stem.now.samples step diameters.new.items) }
    ensures valid { IsStem stem.now }
{
    let points = stem.length() / step + 1;
    diameters.clear();
    diameters.reserve(points as usize)?;
    if step == 100 {
        return put_at_samples(stem.samples(), diameters);
    }
    push_along(stem.samples(), step, diameters)
}
