//! Journals as tables for a spreadsheet.
#![tactic(auto)]

mod classes;
mod degrees;
mod postings;
mod put;
mod tables;

pub use buck_page_cells::Table;
pub use tables::table_of;
