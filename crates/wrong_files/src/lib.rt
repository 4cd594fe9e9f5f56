//! Wrong bodies of the readers of files, each proved wrong by a caller.
#![tactic(auto)]

pub mod draft;
pub mod instruction;
pub mod notes;
pub mod record;
pub mod settings;
pub mod stem;
