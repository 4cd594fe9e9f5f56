//! Why there is no text.
use buck_record::Memory;
use std::alloc::AllocError;
use thiserror::Error;

/// Why there is no text.
#[derive(Clone, Copy, Debug, PartialEq, Eq, Error)]
pub enum TextFault {
    /// An allocation failed.
    #[error("out of memory")]
    Memory,
}

impl From<AllocError> for TextFault {
    fn from(_e: AllocError) -> TextFault {
        TextFault::Memory
    }
}

impl From<Memory> for TextFault {
    fn from(_e: Memory) -> TextFault {
        TextFault::Memory
    }
}
