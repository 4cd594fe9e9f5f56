//! The least, the mean and the greatest of some changes.
ghost use Rattle.std.specs.Prelude.{◌≡◌, ◌+◌, ◌*◌, ◌<◌, ◌≤◌, ◌^◌, length};
ghost use Rattle.buck_page_cells.specs.Spread.{IsGreatest, IsLeast, IsMean, IsSpread, from_of, from_sum, how_many, one_of, to_of, to_sum};
ghost use Rattle.buck_page_cells.specs.inner.Picked.{greater, lesser};

use crate::change::Change;
use buck_page_text::Difference;

/// The least, the mean and the greatest of some changes, the mean to the nearest integer, a half upwards.
#[derive(Clone, Copy)]
pub struct Spread {
    pub least: Difference,
    pub mean: Difference,
    pub greatest: Difference,
}

/// The lesser of two changes, or the only one.
fn lesser(one: Option<Change>, other: Option<Change>) -> Option<Change>
    ensures { result ≡ lesser one other }
{
    match (one, other) {
        (None, other) => other,
        (one, None) => one,
        (Some(one), Some(other)) => if other.is_below(&one) {
            Some(other)
        } else {
            Some(one)
        },
    }
}

/// The greater of two changes, or the only one.
fn greater(one: Option<Change>, other: Option<Change>) -> Option<Change>
    ensures { result ≡ greater one other }
{
    match (one, other) {
        (None, other) => other,
        (one, None) => one,
        (Some(one), Some(other)) => if one.is_below(&other) {
            Some(other)
        } else {
            Some(one)
        },
    }
}

/// The least of the changes that are there.
fn least_of(changes: &[Option<Change>]) -> Option<Change>
    ensures { IsLeast changes.now result }
{
    let mut least = None;
    for change in changes {
        least = lesser(least, *change);
    }
    least
}

/// The greatest of the changes that are there.
fn greatest_of(changes: &[Option<Change>]) -> Option<Change>
    ensures { IsGreatest changes.now result }
{
    let mut greatest = None;
    for change in changes {
        greatest = greater(greatest, *change);
    }
    greatest
}

/// Changes that were added up, and how many they were.
#[derive(Clone, Copy)]
struct Sum {
    from: u128,
    to: u128,
    number: u128,
    ghost few: { number ≤ 1000000 },
    ghost small: { (from ≤ number * 2 ^ 100) × (to ≤ number * 2 ^ 100) },
}

impl Sum {
    /// The mean of the changes, to the nearest integer, a half upwards.
    fn mean(&self) -> Difference
        requires { 0 < self.now.number }
        ensures { IsMean self.now.from self.now.to self.now.number result }
    {
        let up = 2 * self.to + self.number;
        let down = 2 * self.from;
        let whole = 2 * self.number;
        if down <= up {
            Difference {
                below: false,
                size: (up - down) / whole,
            }
        } else {
            Difference {
                below: true,
                size: (down - up).div_ceil(whole),
            }
        }
    }
}

/// The sum of the changes that are there.
fn sum_of(changes: &[Option<Change>]) -> Sum
    requires { length changes.now ≤ 1000000 }
    ensures from { result.from ≡ from_sum changes.now }
    ensures to { result.to ≡ to_sum changes.now }
    ensures number { result.number ≡ how_many changes.now }
{
    let mut from = 0;
    let mut to = 0;
    let mut number = 0;
    for change in changes {
        if let Some(change) = change {
            from += change.from;
            to += change.to;
            number += 1;
        }
    }
    Sum { from, to, number }
}

/// The spread of the changes that are there, if there is one.
pub fn spread_of(changes: &[Option<Change>]) -> Option<Spread>
    requires { length changes.now ≤ 1000000 }
    ensures { IsSpread changes.now result }
{
    let sum = sum_of(changes);
    let Some(least) = least_of(changes) else {
        return None;
    };
    let Some(greatest) = greatest_of(changes) else {
        return None;
    };
    if sum.number == 0 {
        return None;
    }
    Some(Spread {
        least: least.difference(),
        mean: sum.mean(),
        greatest: greatest.difference(),
    })
}
