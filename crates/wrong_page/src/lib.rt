//! Wrong answers of the figures of journals, and of the words that they are printed in, each proved wrong by a caller.
//!
//! A function is named for a wrong body of a public call, and its comment says what that body does wrong. It makes the
//! real call, of which it knows the public contract alone, and proves that the answer isn't the wrong one. A `requires`
//! says in which cases the wrong body would answer otherwise.
#![tactic(auto)]

pub mod curves;
pub mod cuts;
pub mod degrees;
pub mod figures;
pub mod grades;
pub mod lacks;
pub mod names;
pub mod weeks;
pub mod words;
