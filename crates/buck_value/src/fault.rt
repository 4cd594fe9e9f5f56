//! Why prices make no sheet.
use thiserror::Error;

/// Why the prices of a sheet are refused.
#[derive(Clone, Copy, Debug, PartialEq, Eq, Error)]
pub enum SheetFault {
    /// There isn't one price for each class.
    #[error("there is not one price for each class")]
    Count,
    /// The price at this place, counted from 0, lies outside its span; none before it does.
    #[error("the price of class {at} is out of its span")]
    Price { at: usize },
}
