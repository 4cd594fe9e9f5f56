//! The section of a page that draws single stems.
#![tactic(auto)]

mod drawing;
mod picks;
mod stems;
mod under;

pub use stems::write_stems;
