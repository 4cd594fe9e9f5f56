//! The commands of the program with their options, files and helps.
#![tactic(auto)]

mod commands;
mod help;

pub use commands::{PROGRAM, help_text, mistake, program};
