//! Tests of the engines: readers, writers and openers that fail, memory that is refused, files at the limit of length,
//! files that are cut at once, and what is said of faults.
#![tactic(auto)]

#[cfg(test)]
mod failing;
#[cfg(test)]
mod faults;
#[cfg(test)]
mod lengths;
#[cfg(test)]
mod meetings;
#[cfg(test)]
mod memory;
#[cfg(test)]
mod parts;
#[cfg(test)]
mod streams;
#[cfg(test)]
mod work;
