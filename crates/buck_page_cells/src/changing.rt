//! How far a number changes, beside another change.
ghost use Rattle.std.specs.Prelude.{◌≡◌, ◌+◌, ◌<◌, ◌^◌, ◌↔◌, IsTrue};
ghost use Rattle.buck_page_cells.specs.Spread.{IsDifference};

use crate::change::Change;
use buck_page_text::{Difference, difference_of};

impl Change {
    /// A number of its own, as a change from 0.
    pub fn to(number: u128) -> Change
        requires { number < 2 ^ 100 }
        ensures from { result.from ≡ 0 }
        ensures to { result.to ≡ number }
    {
        Change {
            from: 0,
            to: number,
        }
    }

    /// Whether it lies below another one: the number grows by less, or shrinks by more.
    pub fn is_below(&self, other: &Change) -> bool
        ensures { IsTrue result ↔ (self.now.to + other.now.from < other.now.to + self.now.from) }
    {
        self.to + other.from < other.to + self.from
    }

    /// How far it goes, and whether that is down.
    pub fn difference(&self) -> Difference
        ensures { IsDifference self.now result }
    {
        difference_of(self.from, self.to)
    }
}
