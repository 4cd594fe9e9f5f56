//! Wrong bodies of sweeps and trials before a harvest and of accounts after it: cells of their tables, targets, an
//! owner's instruction, orders that are drawn, appraisals and comparisons. Each is proved wrong by a caller.
//!
//! A caller knows of a call what its public clauses say and nothing else. Each function here makes the real call and
//! proves that what it gives, or leaves behind, isn't what the wrong body of the function's name would give or leave.
#![tactic(auto)]

pub mod appraisals;
pub mod cells;
pub mod draws;
pub mod files;
pub mod ledgers;
pub mod own;
pub mod parts;
pub mod runs;
pub mod served;
pub mod sweep_tables;
pub mod targets;
pub mod trials;
pub mod tuning;
pub mod wishes;
