//! Diameters and grades of stems, worked out by hand.
use buck_stem_shape::{Profile, Stem};
use fixture_samples::stem_of;
use std::alloc::Global;
use std::test::Fail;

/// A place, and the diameter and the grade there.
const PLACES: [(u32, u32, u8); 8] = [
    (0, 250, 1),
    (50, 245, 1),
    (99, 240, 1),
    (100, 240, 3),
    (150, 240, 3),
    (250, 220, 3),
    (299, 201, 3),
    (300, 201, 3),
];

/// Whether a stem has this diameter and this grade at a place.
fn is_so_at(stem: &Stem, x: u32, diameter: u32, grade: u8) -> bool {
    x <= stem.length() && stem.diameter_at(x) == diameter && stem.grade_at(x) == grade
}

/// The first row that differs, counted from 1; 0 if none does.
fn first_other(stem: &Stem) -> usize {
    for i in 0..PLACES.len() {
        let (x, diameter, grade) = PLACES[i];
        if !is_so_at(stem, x, diameter, grade) {
            return i + 1;
        }
    }
    0
}

/// The grades from the butt up to 100 mm and up to 101 mm, and those of no place.
fn has_grades(stem: &Stem) -> bool {
    stem.grades_between(0, 100) == 1
        && stem.grades_between(0, 101) == 5
        && stem.grades_between(5, 5) == 0
}

#[test]
fn stem_geometry(rt: HostRuntime) -> Result<(), Fail> {
    let stem = stem_of(rt.alloc(), &[250, 240, 245, 201], &[(100, 3)])?;
    assert!(rt; first_other(&stem) == 0);
    assert!(rt; has_grades(&stem));
    Ok(())
}

/// Whether the runs of the steps start here. A run need not be as long as it can be; these are.
fn are_runs(profile: &Profile<'_>, starts: &[usize]) -> bool {
    for i in 0..starts.len() {
        if profile.points() <= i + 1 || profile.run_start(i) != starts[i] {
            return false;
        }
    }
    true
}

fn has_runs(alloc: Global, stem: &Stem, starts: &[usize]) -> bool {
    match Profile::make(alloc, stem, 100) {
        Ok(profile) => are_runs(&profile, starts),
        Err(_) => false,
    }
}

const ZONES: [(u32, u8); 4] = [(200, 2), (450, 3), (470, 2), (1000, 4)];

#[test]
fn runs_of_like_grades(rt: HostRuntime) -> Result<(), Fail> {
    let stem = stem_of(rt.alloc(), &[250; 11], &ZONES)?;
    assert!(rt; has_runs(rt.alloc(), &stem, &[0, 0, 2, 2, 4, 5, 5, 5, 5, 5]));
    Ok(())
}
