//! Cells of a table: numbers, what a number changed by, and the least, the mean and the greatest of several changes.
//!
//! A cell is a comma and what stands behind it, nothing if there is no number. [`put_number`] puts a number,
//! [`put_change`] what one changed by, and [`put_spread`] the three cells of a [`Spread`], which [`spread_of`] has.
//! [`Table`] names the tables that are made of journals.
#![tactic(auto)]

mod cells;
mod change;
mod changing;
mod spread;
mod table;

pub use cells::{put_change, put_difference, put_number, put_numbers, put_spread};
pub use change::Change;
pub use spread::{Spread, spread_of};
pub use table::Table;
