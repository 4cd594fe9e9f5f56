//! The tables of a stem at the multiples of a module.
pub(crate) mod diameters;
pub(crate) mod profile;
pub(crate) mod runs;
