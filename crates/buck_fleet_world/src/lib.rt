//! The design of the fleet as a machine of single events, so that each order in which threads may take their steps is a
//! run of it; and laws over all runs, for any number of harvesters.
//!
//! Words, as they are used here:
//!
//! - The *front* is the newest version that is shown to the harvesters. The *version in force* is how many ends the
//!   history has; a *sheet* stands for each version.
//! - An *event* is one atomic step of one harvester. It is *allowed* or not, by where the harvester and the others are;
//!   what *follows* is the next world. A *run* is a list of events from the opening on, each allowed where it stands.
//! - A harvester's *stage*: it is `Idle`; `Reading`, after it has read the front; `Planned`, with a plan under the
//!   sheet of the version that it has *seen*; or `Answered`, with a posting added and the front not yet raised.
//! - A *stale attempt* is a try whose plan was made under a sheet that is no longer in force.
//! - A run is *fresh* if each read shows the front as it stands there. A *lift* is a raise that makes the front
//!   greater.
#![tactic(auto)]

mod acts;
mod event;
mod fault;
mod harvester;
pub mod laws;
mod stage;
mod turns;
mod world;

pub use buck_record::Memory;
pub use event::Event;
pub use fault::StepFault;
pub use stage::Stage;
pub use world::World;
