//! Why a fleet doesn't close well. The fault stands below the fleet, so that what reports it needs no fleet.
#![tactic(auto)]

mod fault;

pub use fault::CloseFault;
