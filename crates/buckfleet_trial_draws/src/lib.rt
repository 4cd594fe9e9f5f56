//! Orders in which the stems of each harvester may come, drawn by chance: always the same ones for a seed.
//!
//! [`starts_of`] has the state of the generator at which each draw begins, and [`order_from`] the order of a draw that
//! begins at a state: so the orders needn't be held, and threads may make them in any sequence. [`shuffle`] is the
//! shuffle of one list, and [`below`] a number that is drawn. [`laws`] says that a shuffle loses nothing.
#![tactic(auto)]

mod drawn;
pub mod laws;
mod orders;

pub use drawn::{below, shuffle};
pub use orders::{Draws, order_from, starts_of};
