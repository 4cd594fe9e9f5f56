//! Memory that ran out.
use std::alloc::{AllocError, AllocFailed};
use thiserror::Error;

/// An allocation failed: there is no more memory. It comes in place of the answer that would have come, and leaves
/// everything as it was, but for lists that are lent to be filled: their calls say what these hold then.
#[derive(Clone, Copy, Debug, PartialEq, Eq, Error)]
#[error("out of memory")]
pub struct Memory;

impl From<AllocError> for Memory {
    fn from(_e: AllocError) -> Memory {
        Memory
    }
}

impl<T: Drop> From<AllocFailed<T>> for Memory {
    fn from(_e: AllocFailed<T>) -> Memory {
        Memory
    }
}
