//! The steps of a stem: the grades of each, and the run in which it stands.
ghost use Rattle.std.specs.Prelude.{◌≡◌, ℕ, ◌+◌, ◌<◌, ◌≤◌, OnOk, length};
ghost use Rattle.buck_stem_shape.specs.Stem.{IsRisingFrom, grade_at};
ghost use Rattle.buck_stem_shape.specs.points.Profile.{profile_of, points_of};
ghost use Rattle.buck_stem_shape.specs.inner.Runs.{AreSteps};

use crate::stem::Stem;
use std::alloc::AllocError;

/// A step, which stands in a run of steps with the same grades.
#[derive(Clone, Copy)]
pub(crate) struct Step {
    /// Its grades: bit g - 1 for grade g.
    pub mask: u8,
    /// The first step of its run.
    pub first: u16,
}

/// A place up to which the grade stays what it is at `x`: the start of the first zone past it, if there is one.
fn grade_end(zones: &[(u32, u8)], x: u32) -> u32
    requires { IsRisingFrom 0 zones.now }
    ensures { (y : ℕ) → x ≤ y → y < result → grade_at zones.now y ≡ grade_at zones.now x }
{
    for zone in zones {
        if x < zone.0 {
            return zone.0;
        }
    }
    u32::MAX
}

/// Adds the next run: the steps up to the one in which the grade changes, or that one alone.
fn push_run(steps: &mut Vec<Step>, stem: &Stem, step: u32) -> Result<(), AllocError>
    requires step { (10 ≤ step) × (step ≤ 1000) }
    requires left { length steps.old.items + 1 < points_of (profile_of stem.now step) }
    requires right { AreSteps stem.now.zones step steps.old.items }
    ensures more { OnOk result (length steps.old.items < length steps.new.items) }
    ensures within { OnOk result (length steps.new.items + 1 ≤ points_of (profile_of stem.now step)) }
    ensures right { OnOk result (AreSteps stem.now.zones step steps.new.items) }
{
    let count = stem.length() / step;
    let first = steps.len() as u32;
    let even = (grade_end(stem.zones(), first * step) / step).min(count);
    // A step in which the grade changes has several, and is a run by itself.
    let end = even.max(first + 1);
    let mask = stem.grades_between(first * step, (first + 1) * step);
    let first = first as u16;
    steps.resize(end as usize, Step { mask, first })?;
    Ok(())
}

/// Puts the steps of a stem in the place of others.
pub(crate) fn put_steps(steps: &mut Vec<Step>, stem: &Stem, step: u32) -> Result<(), AllocError>
    requires { (10 ≤ step) × (step ≤ 1000) }
    ensures number { OnOk result (length steps.new.items + 1 ≡ points_of (profile_of stem.now step)) }
    ensures right { OnOk result (AreSteps stem.now.zones step steps.new.items) }
{
    let count = (stem.length() / step) as usize;
    steps.clear();
    steps.reserve(count)?;
    while steps.len() < count {
        push_run(steps, stem, step)?;
    }
    Ok(())
}
