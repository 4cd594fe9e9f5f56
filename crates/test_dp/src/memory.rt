//! Refused memory: what is made is then refused as `Memory`, and else as with ample memory. Run with each allocation
//! failing in turn.
use crate::fixtures::{base_of, log};
use buck_dp::{Cutting, Planner, best};
use buck_stem_shape::Stem;
use buck_value::{Prepared, Sheet};
use fixture_samples::{SAW_AND_POLE, uniform_stem};
use std::sync::Arc;
use std::test::Fail;

/// Whether a cutting is one saw log of 4,000 mm at the butt, and is worth what that is.
fn is_one_log(cutting: &Cutting, worth: u64) -> bool {
    worth == 157_080_000 && cutting.logs.as_slice() == [log(0, 4000, 0)].as_slice()
}

/// Whether a stem of 41 points is prepared and cut so.
fn is_cut(rt: &HostRuntime, sheet: &Sheet, stem: &Stem) -> Result<bool, Fail> {
    let points = Prepared::make(rt.alloc(), sheet, stem)?.points();
    let (cutting, worth) = best(rt.alloc(), sheet, stem)?;
    Ok(points == 41 && is_one_log(&cutting, worth))
}

/// The same under a copy of the base sheet.
fn is_cut_under_a_copy(rt: &HostRuntime) -> Result<bool, Fail> {
    let sheet = base_of(rt, SAW_AND_POLE)?.copy(rt.alloc())?;
    let stem = uniform_stem(rt.alloc(), 41, 250)?;
    is_cut(rt, &sheet, &stem)
}

#[test]
fn refused_memory_of_a_cutting(rt: HostRuntime) -> Result<(), Fail> {
    assert!(rt; is_cut_under_a_copy(&rt)?);
    Ok(())
}

/// Whether a planner had memory for two stems, and whether it then cuts the first so.
fn plans_on(
    rt: &HostRuntime,
    planner: &mut Planner,
    stem: &Stem,
    thinner: &Stem,
) -> Result<(bool, bool), Fail> {
    let first = planner.best(rt.alloc(), stem).is_ok();
    let second = planner.best(rt.alloc(), thinner).is_ok();
    let (cutting, worth) = planner.best(rt.alloc(), stem)?;
    Ok((first && second, is_one_log(&cutting, worth)))
}

/// The same of two stems.
fn plans_two(rt: &HostRuntime, planner: &mut Planner) -> Result<(bool, bool), Fail> {
    let stem = uniform_stem(rt.alloc(), 41, 250)?;
    let thinner = uniform_stem(rt.alloc(), 41, 150)?;
    plans_on(rt, planner, &stem, &thinner)
}

/// A planner under the base sheet.
fn new_planner(rt: &HostRuntime) -> Result<Planner, Fail> {
    let sheet = Arc::new(rt.alloc(), base_of(rt, SAW_AND_POLE)?)?;
    Ok(Planner::make(rt.alloc(), sheet)?)
}

/// A planner plans on after it was refused, be it for a stem as thick as one before or for another.
#[test]
fn refused_memory_of_a_planner(rt: HostRuntime) -> Result<(), Fail> {
    let mut planner = new_planner(&rt)?;
    let (had_memory, is_right) = plans_two(&rt, &mut planner)?;
    assert!(rt; is_right);
    if !had_memory {
        return Err(Fail::from("out of memory"));
    }
    Ok(())
}
