//! Wrong bodies of the command line's work, each proved wrong by a caller.
//!
//! A caller knows of a call what its public clauses say and nothing else. Each function here makes the real call and
//! proves that what it gives, or leaves behind, isn't what the wrong body of the function's name would give or leave.
#![tactic(auto)]

pub mod commands;
