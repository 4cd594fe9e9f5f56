//! Wrong bodies of the engines and of requests, each proved wrong by a caller.
//!
//! A caller knows of a call what its public clauses say and nothing else. Each function here makes the real call and
//! proves that what it gives, or leaves behind, isn't what the wrong body of the function's name would give or leave.
#![tactic(auto)]

pub mod faults;
pub mod files;
pub mod fleets;
pub mod journal_reports;
pub mod looks;
pub mod opened;
pub mod parts;
pub mod reports;
pub mod requests;
pub mod texts;
pub mod ties;
pub mod turns;
pub mod views;
