//! The published sheets: those put up so far, and which of them is the newest that a seat can see.
#![tactic(auto)]

mod board;
mod front;
mod put_up;
mod rule;
mod seat;
mod snapshot;

pub use board::Board;
pub use buck_record::Memory;
pub use put_up::PutUp;
pub use seat::BoardSeat;
pub use snapshot::Snapshot;
