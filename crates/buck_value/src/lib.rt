//! Price sheets: which logs of a stem are allowed, their class and their worth.
#![tactic(auto)]

mod fault;
pub mod laws;
mod log;
mod prepared;
mod sheet;
mod wood;
mod worth;

pub use buck_record::Memory;
pub use fault::SheetFault;
pub use log::Log;
pub use prepared::Prepared;
pub use sheet::{HIGHEST_PRICE, Sheet};
pub use wood::takes;
pub use worth::{
    Valuation, bought_row, class_of, column_of, log_worth, row_of, valuation_of_allowed, volume_of,
    worth_if_allowed, worth_of_piece,
};
