//! What a fault line says, in words.
//!
//! [`sentence`] is the sentence of a line that the program says of a fault: what is wrong, with the numbers of the line
//! put in, and what to do next. The lines and their sentences stand in one table.
#![tactic(auto)]

mod items;
mod line;
mod rows;
mod told;

pub use told::sentence;
