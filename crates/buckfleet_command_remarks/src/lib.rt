//! What is said of a run beside what it prints.
//!
//! [`Progress`] shows on a [`Screen`] how far long work is. After a run [`Inquest::notes`] has the warnings, and
//! [`Inquest::reason`] says in words why it failed.
#![tactic(auto)]

mod notes;
mod progress;
mod reason;

pub use progress::{Progress, Screen, Watched, WatchedFile};
pub use reason::Inquest;
