//! Items and numbers in one pass over the bytes, with no list of the items.
pub(crate) mod cursor;
pub(crate) mod kept_numbers;
pub(crate) mod lanes;
pub(crate) mod parts;
