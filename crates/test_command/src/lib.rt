//! Tests of whole runs from the words of the command line to the bytes on each stream, over files in memory.
#![tactic(auto)]

#[cfg(test)]
mod place;
#[cfg(test)]
mod runs;
