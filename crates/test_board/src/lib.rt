//! Tests of published sheets: reads of one thread and of two, refused memory, and what a caller writes.
#![tactic(auto)]

pub mod callers;
#[cfg(test)]
mod fixtures;
#[cfg(test)]
mod memory;
#[cfg(test)]
mod reads;
#[cfg(test)]
mod threads;
