//! What deserves a warning in an instruction and in the stems that are cut by it: nothing is wrong, but a mistake is
//! likely.
//!
//! Each function looks for one thing and answers exactly its first place. Which warnings are printed, and in which
//! words, is the command line's.
#![tactic(auto)]

mod notes;

pub use notes::{first_again, first_namesake, first_untaken, is_too_long, is_unsteered};
