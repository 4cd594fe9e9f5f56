//! What the arguments of the command line ask for.
//!
//! [`parse`] goes from the arguments to a [`Request`], whose work has the files, the numbers and the options of its
//! command, or to the fault line that is to be explained.
#![tactic(auto)]

mod words;

pub use words::{Asked, Request, parse};
