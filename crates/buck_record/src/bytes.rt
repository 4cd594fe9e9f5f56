//! From bytes to words, numbers and items, all at once.
pub(crate) mod digits;
pub(crate) mod reading;
pub(crate) mod white;
