//! A fleet of harvesters that cut towards one book: each plans without the lock, and its plan is committed if the sheet
//! that it was made under is still in force.
#![tactic(auto)]

mod close;
mod cut;
mod desk;
mod fault;
mod fleet;
mod gate;
mod open;
mod run;
mod seat;

pub use buck_board::Snapshot;
pub use buck_book_postings::{CutFault, Kept};
pub use buck_fleet_close_fault::CloseFault;
pub use buck_fleet_world as world;
pub use close::Closed;
pub use fault::{RetargetFault, RunFault, TryFault};
pub use fleet::Fleet;
pub use gate::{Gate, NoGate};
pub use open::OpenFault;
pub use run::run_fleet;
pub use seat::{DemandReply, MOST_ATTEMPTS, MOST_SEATS, Path, Reply, Seat};
