//! Wrong answers of a kept book and of its block, each proved wrong by a caller.
//!
//! A function is named for a wrong body of a public call, and its comment says what that body does wrong. It makes the
//! real call, of which it knows the public contract alone, and proves that the answer isn't the wrong one. A `requires`
//! says in which cases the wrong body would answer otherwise.
#![tactic(auto)]

pub mod block;
pub mod kept;
pub mod looking;
