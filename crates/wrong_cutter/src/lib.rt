//! Wrong answers of a book with its planner, each proved wrong by a caller.
//!
//! A function is named for a wrong body of a public call, and its comment says what that body does wrong. It makes the
//! real call, of which it knows the public contract alone, and proves that the answer isn't the wrong one. A `requires`
//! says in which cases the wrong body would answer otherwise. In `committing` no answer is wrong: an edit puts the calls
//! of a right caller in a wrong order.
#![tactic(auto)]

pub mod committing;
pub mod cutter;
