//! What a page draws of each assortment: its curves over the postings, and the matrices of its classes.
#![tactic(auto)]

mod charts;
mod matrix;
mod prices;

pub use charts::write_degree_chart;
pub use matrix::write_matrices;
pub use prices::write_price_chart;
