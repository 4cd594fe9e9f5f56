//! How a stem differs from another.
use buck_stem_shape::Stem;
use buckfleet_reason::Several;
use std::fmt;

/// A stem that was cut, and the one that should have been.
#[derive(Clone, Copy)]
pub(crate) struct Difference<'a> {
    pub(crate) found: &'a Stem,
    pub(crate) wanted: &'a Stem,
}

/// The first place, counted from 0, where two lists differ, and the numbers there in both.
fn first_apart<T: PartialEq + Copy>(found: &[T], wanted: &[T]) -> Option<(usize, T, T)> {
    for (place, (one, other)) in found.iter().zip(wanted).enumerate() {
        if *one != *other {
            return Some((place, *one, *other));
        }
    }
    None
}

impl Difference<'_> {
    /// Writes how the diameters differ, or else the zones, each of which is two numbers of its item.
    fn write_lists<W: fmt::Write>(&self, f: &mut fmt::Formatter<W>) -> fmt::Result {
        let found = self.found.samples();
        let wanted = self.wanted.samples();
        if let Some((place, one, other)) = first_apart(found, wanted) {
            let place = place.saturating_add(1);
            return write!(f, "diameters: {one} at place {place}, expected {other}");
        }
        if found.len() != wanted.len() {
            let numbers = Several(found.len(), "number");
            return write!(f, "diameters: {numbers}, expected {}", wanted.len());
        }
        let found = self.found.zones();
        let wanted = self.wanted.zones();
        let Some((place, one, other)) = first_apart(found, wanted) else {
            let numbers = Several(found.len().saturating_mul(2), "number");
            let all = wanted.len().saturating_mul(2);
            return write!(f, "zones: {numbers}, expected {all}");
        };
        let place = place.saturating_mul(2).saturating_add(1);
        if one.0 != other.0 {
            return write!(f, "zones: {} at place {place}, expected {}", one.0, other.0);
        }
        let place = place.saturating_add(1);
        write!(f, "zones: {} at place {place}, expected {}", one.1, other.1)
    }
}

impl fmt::Display for Difference<'_> {
    fn fmt<W: fmt::Write>(&self, f: &mut fmt::Formatter<W>) -> fmt::Result {
        let found = self.found.number();
        let wanted = self.wanted.number();
        if found != wanted {
            return write!(f, "stem {found}, expected {wanted}");
        }
        let found = self.found.species();
        let wanted = self.wanted.species();
        if found != wanted {
            return write!(f, "species {found}, expected {wanted}");
        }
        self.write_lists(f)
    }
}
