//! What is read beside an instruction: the targets that a mill asks for, and the instruction that says what an owner is
//! paid.
//!
//! [`targets_in`] reads a file of targets, and [`shape_fault`] says where an owner's instruction differs from another
//! though it may not. [`read_wanted`] and [`read_own`] read both from files, the one with [`TargetsFault`] and the
//! other with [`OwnFault`]; [`TermsFault`] is why a run over such files failed, and [`conclude_terms`] says it.
#![tactic(auto)]

mod fault;
mod own;
mod reading;
mod telling;
mod wanted;

pub use fault::{OwnFault, TargetsFault, TermsFault, status};
pub use own::shape_fault;
pub use reading::{open_last, open_more, read_own, read_wanted};
pub use telling::{conclude_terms, write_terms_fault};
pub use wanted::{all_numbers, targets_in};
