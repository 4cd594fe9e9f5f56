//! Wrong answers of price rules, books and journals, each proved wrong by a caller.
//!
//! A function is named for a wrong body of a public call, and its comment says what that body does wrong. It makes the
//! real call, of which it knows the public contract alone, and proves that the answer isn't the wrong one. A `requires`
//! says in which cases the wrong body would answer otherwise.
#![tactic(auto)]

pub mod book;
pub mod parts;
pub mod reading;
pub mod replaying;
pub mod rule;
pub mod walk;
pub mod writing;
