//! Items of a file by their places.
use crate::item::Item;
use crate::source::Source;
use buck_book_journal::slots::{CUT, DEMAND, SHEET};
use buck_record::Slot;
use buck_stem_shape::slots::STEM;

impl<'a> Source<'a> {
    /// The item of a kind that has so many of its kind before it, if there is one.
    fn nth_of(&self, slot: Slot, before: usize) -> Option<Item<'a>> {
        self.items().filter(|item| item.is(slot)).nth(before)
    }

    /// The first item of a kind, if there is one.
    pub(crate) fn first_of(&self, slot: Slot) -> Option<Item<'a>> {
        self.nth_of(slot, 0)
    }

    /// How many items of a kind there are.
    pub(crate) fn count_of(&self, slot: Slot) -> usize {
        self.items().filter(|item| item.is(slot)).count()
    }

    /// Returns the item that has the prices of a version, if there is one.
    pub fn sheet_item(&self, version: u32) -> Option<Item<'a>> {
        self.nth_of(SHEET, version as usize)
    }

    /// Returns the item that a stem begins with, by its index among the stems, from 0.
    pub fn stem_item(&self, place: usize) -> Option<Item<'a>> {
        self.nth_of(STEM, place)
    }

    /// Returns the number of stems that begin in it.
    pub fn stems(&self) -> usize {
        self.count_of(STEM)
    }

    /// Returns an item of a posting, by the posting's index among all, and its own within the posting, both from 0.
    pub fn posting_item(&self, posting: usize, part: usize) -> Option<Item<'a>> {
        let mut begun = 0usize;
        let mut parts = 0usize;
        for item in self.items() {
            let Some(key) = item.key() else {
                continue;
            };
            if key.is(CUT) || key.is(DEMAND) {
                begun = begun.saturating_add(1);
                parts = 0;
            }
            if begun == posting.saturating_add(1) && parts == part {
                return Some(item);
            }
            parts = parts.saturating_add(1);
        }
        None
    }
}
