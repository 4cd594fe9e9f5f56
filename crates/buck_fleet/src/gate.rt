//! Gates: observers of plans while a fleet cuts.
use buck_book_postings::Plan;
use std::sync::Wait;

/// Observes each plan that a call made without the lock. It may wait, because nobody holds the lock then.
pub trait Gate {
    /// A harvester made the plan of its attempt, 1 to 3, and is about to bring it to the book.
    fn planned<R: Wait>(&self, rt: &R, harvester: u32, attempt: u8, plan: &Plan);
}

/// A gate that does nothing.
#[derive(Drop)]
pub struct NoGate;

impl Gate for NoGate {
    fn planned<R: Wait>(&self, _rt: &R, _harvester: u32, _attempt: u8, _plan: &Plan) {}
}
