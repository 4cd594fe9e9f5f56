//! The command line: what its words ask for, and a whole run from the words to the exit status.
//!
//! [`run`] takes the words, the files and the streams from its caller, so that it runs over memory as it does over a
//! disk. [`serve_work`] is what it does once it knows the [`Work`].
#![tactic(auto)]

mod refusing;
mod running;
mod served;
mod teller;
mod working;

pub use buckfleet_command_remarks::Screen;
pub use buckfleet_command_streams::{Known, KnownFiles, Trouble};
pub use buckfleet_tasks::Work;
pub use running::{run, say_help};
pub use served::Place;
pub use working::{Streams, serve_work};
