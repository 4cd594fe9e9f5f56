//! Lines and items as they are written.
pub(crate) mod line;
