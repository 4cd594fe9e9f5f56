//! The files and streams of a run, with standard input and output in the place of files.
//!
//! [`Streamed`] opens and makes files with `-` among them. [`Kept`] keeps what is read, if a run that fails is to be
//! explained by it; [`Known`] has what is known of files beside their bytes.
#![tactic(auto)]

mod inputs;
mod known;

pub use inputs::{Copied, Drawn, Inlet, Kept, Opened, Outlet, Shared, Streamed, Written};
pub use known::{Known, KnownFiles, LIMIT, Trouble, Troubled};
