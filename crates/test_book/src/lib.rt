//! Tests of books and journals: histories and targets worked out by hand, what callers write, texts of faults, and refused
//! memory.
#![tactic(auto)]

pub mod callers;
#[cfg(test)]
mod fixtures;
#[cfg(test)]
mod histories;
#[cfg(test)]
mod memory;
#[cfg(test)]
mod targets;
#[cfg(test)]
mod texts;
