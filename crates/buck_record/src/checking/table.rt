//! Items by number and kind, and groups of items.
ghost use Rattle.std.specs.Prelude.{◌≡◌, ◌<◌, ◌+◌, length, take, drop, IfOk, find, position};
ghost use Rattle.std.specs.List.{before_first};
ghost use Rattle.std.specs.Option.{option_copied};
ghost use Rattle.buck_record.specs.checking.Table.{is_at, is_in, count_in, rest_in, first_missing, first_twice, groups_of};

use crate::group::Group;
use crate::item::Piece;
use crate::listed::Listed;
use crate::slot::Slot;
use std::alloc::{AllocError, Global};

/// Whether the item stands in the slot.
pub(crate) fn is_at(item: &Piece<'_>, slot: Slot) -> bool
    ensures { result ≡ is_at slot item.now }
{
    item.number == slot.number && item.kind == slot.kind
}

/// Whether the item stands in one of the slots.
pub(crate) fn is_in(item: &Piece<'_>, slots: &[Slot]) -> bool
    ensures { result ≡ is_in slots.now item.now }
{
    slots.iter().any(|slot| is_at(item, *slot))
}

/// How many of the items stand in a slot.
pub fn count(items: &[Piece<'_>], slot: Slot) -> usize
    ensures { result ≡ count_in slot items.now }
{
    items.iter().filter(|item| is_at(item, slot)).count()
}

fn first_in<'a>(items: &'a [Piece<'a>], slot: Slot) -> Option<&'a Piece<'a>>
    ensures { option_copied result ≡ find (is_at slot) items.now }
{
    items.iter().find(|item| is_at(item, slot))
}

fn place_of_first(items: &[Piece<'_>], slot: Slot) -> Option<usize>
    ensures { result ≡ position (is_at slot) items.now }
{
    items.iter().position(|item| is_at(item, slot))
}

/// The rest of the first item in a slot, or the empty text if no item stands there.
#[tactic(auto, unfolding(crate::specs::checking::Table::rest_in))]
pub fn rest<'a>(items: &'a [Piece<'a>], slot: Slot) -> &'a [u8]
    ensures { result.now ≡ rest_in slot items.now }
{
    match first_in(items, slot) {
        None => &[],
        Some(item) => item.rest,
    }
}

/// The first of the slots, in their order, with no item.
pub fn missing(items: &[Piece<'_>], slots: &[Slot]) -> Option<Slot>
    ensures { result ≡ first_missing slots.now items.now }
{
    slots.iter().copied().find(|slot| count(items, *slot) == 0)
}

/// The first of the slots, in their order, with more than one item.
pub fn twice(items: &[Piece<'_>], slots: &[Slot]) -> Option<Slot>
    ensures { result ≡ first_twice slots.now items.now }
{
    slots.iter().copied().find(|slot| count(items, *slot) > 1)
}

/// The items before the first in a slot, or all of them if no item stands there.
pub fn front<'a>(items: &'a [Piece<'a>], slot: Slot) -> &'a [Piece<'a>]
    ensures { result.now ≡ before_first (is_at slot) items.now }
{
    match place_of_first(items, slot) {
        None => items,
        Some(end) => &items[..end],
    }
}

fn group_at<'a>(items: &'a [Piece<'a>], i: usize, slot: Slot) -> &'a [Piece<'a>]
    requires { i < length items.now }
    ensures { result.now
        ≡ take (1 + length (before_first (is_at slot) (drop (i + 1) items.now))) (drop i items.now) }
{
    let end = i + 1 + front(&items[i + 1..], slot).len();
    &items[i..end]
}

/// The groups that the items of a slot begin: each such item, with the items after it up to the next in the slot.
/// Refused if memory runs out.
pub fn groups<'a>(
    alloc: Global,
    items: &'a [Piece<'a>],
    slot: Slot,
) -> Result<Listed<Group<'a>>, AllocError>
    ensures { IfOk result (λ groups. groups ≡ groups_of slot items.now) }
{
    let mut groups = Vec::new(alloc);
    for i in 0..items.len() {
        if is_at(&items[i], slot) {
            groups.push(Group::of(group_at(items, i, slot)))?;
        }
    }
    Ok(Listed::of(groups))
}
