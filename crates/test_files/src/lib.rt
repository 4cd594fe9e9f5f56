//! Tests of what reads files: items and numbers, instructions, stems and their profiles.
//!
//! What a contract says, or a case of `run_cases` shows, stands here no second time.
#![tactic(auto)]

#[cfg(test)]
mod cursors;
#[cfg(test)]
mod draws;
#[cfg(test)]
mod items;
#[cfg(test)]
mod long_files;
#[cfg(test)]
mod memory;
#[cfg(test)]
mod numbers;
#[cfg(test)]
mod parts;
#[cfg(test)]
mod stems;
#[cfg(test)]
mod texts;
