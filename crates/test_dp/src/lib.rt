//! Tests of sheets, bids and cuttings: classes and prices worked out by hand, a plain search over all lists of logs, and
//! refused memory.
#![tactic(auto)]

#[cfg(test)]
mod fixtures;
#[cfg(test)]
mod memory;
#[cfg(test)]
mod own;
#[cfg(test)]
mod sheets;
#[cfg(test)]
mod slow;
#[cfg(test)]
mod small_stems;
