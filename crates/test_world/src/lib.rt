//! Tests of the world: runs worked out by hand, a search over all short runs, refused memory, and the texts of its faults.
#![tactic(auto)]

#[cfg(test)]
mod fixtures;
#[cfg(test)]
mod plain;
#[cfg(test)]
mod playing;
#[cfg(test)]
mod runs;
#[cfg(test)]
mod search;
#[cfg(test)]
mod texts;
