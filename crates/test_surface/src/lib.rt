//! Each call that the product hands to other programs, under the name of the crate where callers look for it, and with
//! the arguments, results and conditions that it has there: a call that moves, or changes its head, is refused here.
#![tactic(auto)]

pub mod apt;
pub mod board;
pub mod book;
pub mod dp;
pub mod fleet;
pub mod journal;
pub mod record;
pub mod rule;
pub mod shapes;
pub mod stem;
pub mod value;
pub mod world;
