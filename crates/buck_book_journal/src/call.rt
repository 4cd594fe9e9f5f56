//! What the first item of a posting says.

/// Who added a posting, which of its harvester's postings it is, and the version in force before it.
#[derive(Clone, Copy)]
pub struct Call {
    /// The harvester, from 1.
    pub harvester: u32,
    /// Which of its harvester's postings it is, from 1.
    pub number: u32,
    /// The version, from 0.
    pub version: u32,
}
