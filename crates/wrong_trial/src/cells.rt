//! Wrong bodies of cells of a table.
use buck_page_cells::{Change, put_spread, spread_of};
use std::alloc::Global;

/// The mean of -1 and -2, -1.5, is rounded to -2: a half goes away from 0, and not upwards.
pub fn spread_half_away_from_zero() {
    let one = Change { from: 1, to: 0 };
    let two = Change { from: 2, to: 0 };
    if let Some(right) = spread_of(&[Some(one), Some(two)]) {
        let wrong = 2;
        prove!(right.mean.size != wrong);
    }
}

/// A change that isn't there counts as 0.
pub fn spread_with_absent_as_zero() {
    if let Some(right) = spread_of(&[None, Some(Change::to(5))]) {
        let wrong = 0;
        prove!(right.least.size != wrong);
    }
}

/// The least and the greatest are those of the sizes, and not of the changes: -3 is greater than 2.
pub fn spread_by_size_alone() {
    let down = Change { from: 3, to: 0 };
    if let Some(right) = spread_of(&[Some(down), Some(Change::to(2))]) {
        let wrong = 3;
        prove!(right.greatest.size != wrong);
    }
}

/// If there is no change, there is a spread, as of zeros.
pub fn spread_of_nothing() {
    let right = spread_of(&[None, None]);
    prove!(right.is_none());
}

/// If there is no spread, one cell is left empty, and not three.
pub fn absent_spread_as_one_cell(alloc: Global) {
    let mut right = Vec::new(alloc);
    if let Ok(()) = put_spread(&mut right, None) {
        let wrong = b",";
        prove!(right.as_slice() != wrong.as_slice());
    }
}
