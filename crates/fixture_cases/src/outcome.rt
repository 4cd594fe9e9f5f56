//! What comes of a case.
use std::alloc::Global;

/// What a run writes, and how it ends.
#[derive(Drop)]
pub struct Outcome {
    /// What it prints.
    pub text: Vec<u8>,
    /// The journal of a fleet.
    pub journal: Vec<u8>,
    /// The line of its fault.
    pub line: Vec<u8>,
    /// The exit status.
    pub status: u8,
}

impl Outcome {
    /// Nothing written, and the status 0.
    pub fn none(alloc: Global) -> Outcome {
        Outcome {
            text: Vec::new(alloc),
            journal: Vec::new(alloc),
            line: Vec::new(alloc),
            status: 0,
        }
    }

    /// Whether all that is written and the status are those of another.
    pub fn is_same(&self, other: &Outcome) -> bool {
        self.status == other.status
            && self.line.as_slice() == other.line.as_slice()
            && self.text.as_slice() == other.text.as_slice()
            && self.journal.as_slice() == other.journal.as_slice()
    }
}
