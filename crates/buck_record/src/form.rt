//! Faults of file forms.
ghost use Rattle.std.specs.Prelude.{◌≡◌, ℕ};
ghost use Rattle.buck_record.specs.checking.Rules.{of_slot};

use crate::slot::Slot;

/// A fault of a file form whose table has numbers by slots. The fault names what is wrong by the item's place in the
/// file, counted from 1, or by its slot.
pub trait FormFault: Drop {
    ghost out_of_memory: { Self };

    ghost headless: { ℕ → Self };

    ghost missing: { ℕ → ℕ → Self };

    ghost twice: { ℕ → ℕ → Self };

    ghost digits: { ℕ → ℕ → ℕ → Self };

    ghost range: { ℕ → ℕ → Self };

    ghost order: { ℕ → ℕ → Self };

    ghost count: { ℕ → ℕ → Self };

    /// An allocation failed.
    fn out_of_memory() -> Self
        ensures { result ≡ out_of_memory };

    /// An item has no head.
    fn headless(item: usize) -> Self
        ensures { result ≡ headless item };

    /// The slot has no item.
    fn missing(slot: Slot) -> Self
        ensures { result ≡ of_slot missing slot };

    /// The slot has two items.
    fn twice(slot: Slot) -> Self
        ensures { result ≡ of_slot twice slot };

    /// A word of the slot's item, counted from 1, is no number.
    fn digits(slot: Slot, place: usize) -> Self
        ensures { result ≡ of_slot digits slot place };

    /// The slot's item is out of range.
    fn range(slot: Slot) -> Self
        ensures { result ≡ of_slot range slot };

    /// The slot's item is out of order.
    fn order(slot: Slot) -> Self
        ensures { result ≡ of_slot order slot };

    /// The slot's item has another count of numbers.
    fn count(slot: Slot) -> Self
        ensures { result ≡ of_slot count slot };
}
