//! Stems that are cut as they are felled: requests, one a line, each answered before the next is read.
//!
//! [`read_request`] says what a line asks for. [`Live`] is a book of one thread that answers lines, and [`serve_live`]
//! a whole run, by its [`LiveTask`].
#![tactic(auto)]

mod answering;
mod lines;
mod live;
mod replies;
mod request;
mod serving;
mod slots;

pub use buck_apt_instruction::Settings;
pub use buckfleet_tasks::LiveTask;
pub use live::Live;
pub use replies::Replies;
pub use request::{Asked, Request, read_request};
pub use serving::serve_live;
