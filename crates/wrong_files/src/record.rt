//! Wrong bodies of what reads items and numbers, and of what writes them.
#![tactic(auto, unfolding(buck_record::specs::bytes::Record::number_of, buck_record::specs::bytes::Record::numbers_of, buck_record::specs::bytes::Record::number_at_most, buck_record::specs::bytes::Record::item_of, buck_record::specs::bytes::Record::items_of, buck_record::specs::bytes::White::words, buck_record::specs::bytes::White::first_word, buck_record::specs::bytes::White::after_word, buck_record::specs::bytes::White::trim_start, buck_record::specs::bytes::White::trim_end, buck_record::specs::Reading::each_from, buck_record::specs::checking::Table::rest_in, buck_record::specs::checking::Table::groups_of, buck_record::specs::checking::Rules::numbers_in, buck_record::specs::checking::Check::each, buck_record::specs::checking::Check::make_each))]

ghost use Rattle.std.specs.Prelude.{◌≡◌, ◌≤◌, ◌+◌, ◌*◌, [], ◌∷◌, nat_le, length, IsTrue, Ok};
ghost use Rattle.buck_record.specs.checking.Check.{check, each, make_each};
ghost use Rattle.buck_record.specs.Reading.{Gives, with_fault};
ghost use Rattle.buck_record.specs.bytes.Record.{items_of};
ghost use Rattle.buck_record.specs.checking.Table.{only_in};
ghost use Rattle.wrong_files.specs.declared.record.TheConstants.{LOWER};
ghost use Rattle.buck_record.specs.declared.fault.RecordFault.TheVariants.{Memory, Head, Digits};

use buck_apt::AptFault;
use buck_record::check::{all_absent, all_single, all_there, check, each, is_there, make_each};
use buck_record::rules::{
    FILE, all_in_range, all_within, counted_to, is_rising, items_at, items_in, numbers_in, one_to,
    within,
};
use buck_record::table::{count, front, groups, missing, rest, twice};
use buck_record::{
    FaultNumbers, FormFault, Group, Listed, Numbered, Piece, RecordFault, Slot, is_done, items,
    next_in, next_of, number, numbers, numbers_into, pieces_at, put_after, put_line, put_number,
    slot, two_parts, wide,
};
use std::alloc::Global;

const LOWER: Slot = slot!(915, 1);

const UPPER: Slot = slot!(915, 2, 1..=2000);

/// Two items of one number, and of two kinds.
const TWO_KINDS: [Piece<'static>; 2] = [
    Piece {
        number: 915,
        kind: 1,
        rest: b"100 200",
    },
    Piece {
        number: 915,
        kind: 2,
        rest: b"900",
    },
];

/// Three items, of which the first and the last stand in one slot.
const TWO_OF_A_SLOT: [Piece<'static>; 3] = [
    Piece {
        number: 915,
        kind: 1,
        rest: b"100 200",
    },
    Piece {
        number: 915,
        kind: 2,
        rest: b"900",
    },
    Piece {
        number: 915,
        kind: 1,
        rest: b"300",
    },
];

/// A refusal names the item by its place among those that were kept.
pub fn pieces_at_counts_only_the_kept(alloc: Global) {
    let right = pieces_at(alloc, b"7 7 other~no head", &[FILE]);
    if let Err(fault) = right {
        let wrong = RecordFault::Head { item: 1 };
        prove!(fault != wrong);
    }
}

/// A wide number is read up to 4,294,967,295 alone.
pub fn wide_as_narrow_as_number() {
    let right = wide(b"4294967296");
    let wrong: Result<u64, RecordFault> = Err(RecordFault::Digits { place: 1 });
    prove!(right != wrong);
}

/// What is left after an item is the whole text.
pub fn next_in_leaves_the_whole_text(slot: Slot, text: &[u8]) {
    if let Some((_, left)) = next_in(slot, text) {
        let right = left.len();
        let wrong = text.len();
        prove!(right != wrong);
    }
}

/// An item before one with no head is given another rest.
pub fn next_in_any_rest_before_no_head() {
    if let Some((right, _)) = next_in(LOWER, b"915 1 100~no head") {
        let wrong = b"200".as_slice();
        prove!(right != wrong);
    }
}

/// What is left after an item is some text that can't be read.
pub fn next_in_leaves_what_has_no_head() {
    if let Some((_, right)) = next_in(LOWER, b"915 1 100~915 1 200") {
        let wrong = b"x".as_slice();
        prove!(right != wrong);
    }
}

/// A text is cut into parts of which the first can't be read.
pub fn two_parts_first_has_no_head() {
    if let Some((right, _)) = two_parts(LOWER, b"915 1 100~915 1 200", 2) {
        let wrong = b"x".as_slice();
        prove!(right != wrong);
    }
}

fn has_no_items(text: &[u8]) -> bool
    ensures { IsTrue result → items_of text.now ≡ Ok [] }
{
    is_done(text)
}

/// A text with an item is said to have none.
pub fn done_before_the_last_items() {
    let right = has_no_items(b"1 2 APT");
    let wrong = true;
    prove!(right != wrong);
}

fn has_none_in(text: &[u8]) -> bool
    ensures { IsTrue result → only_in (LOWER ∷ []) (items_of text.now) ≡ Ok [] }
{
    let Ok(found) = next_of(LOWER, &[LOWER], text) else {
        return false;
    };
    let None = found else {
        return false;
    };
    true
}

/// A text with an item in a slot is said to have none there.
pub fn next_of_past_all() {
    let right = has_none_in(b"915 1 100");
    let wrong = true;
    prove!(right != wrong);
}

/// A colon, the byte after the 9, is read as a digit, into a list that is kept.
pub fn ten_is_a_digit_of_a_kept_list(held: &mut Vec<u32>) {
    let Ok(right) = numbers_into(b"30: 300 300 300 ", held) else {
        return;
    };
    let wrong = true;
    prove!(right != wrong);
}

/// A short word is read as the next number.
pub fn short_words_of_a_kept_list_one_more(held: &mut Vec<u32>) {
    let Ok(true) = numbers_into(b"12 900", held) else {
        return;
    };
    let wrong: &[u32] = &[13, 900];
    prove!(held.as_slice() != wrong);
}

/// Items are looked up by their number alone.
pub fn count_without_kind() {
    let right = count(&TWO_KINDS, LOWER);
    let wrong = 2;
    prove!(right != wrong);
}

/// Of two items in a slot the last is read.
pub fn last_of_two() {
    let right = rest(&TWO_OF_A_SLOT, LOWER);
    let wrong = b"300".as_slice();
    prove!(right != wrong);
}

/// A slot with one item is said to have none.
pub fn missing_names_what_stands_once() {
    let right = missing(&TWO_KINDS, &[LOWER, UPPER]);
    let wrong = Some(LOWER);
    prove!(right != wrong);
}

/// Two items in a slot are let by.
pub fn twice_accepted() {
    let right = twice(&TWO_OF_A_SLOT, &[LOWER]);
    let wrong = None;
    prove!(right != wrong);
}

/// Of the items before the first in a slot, that one is given too.
pub fn front_with_the_first() {
    let right = front(&TWO_KINDS, LOWER).len();
    let wrong = 1;
    prove!(right != wrong);
}

/// A group goes up to the end, past the next item of its slot.
pub fn groups_up_to_the_end(alloc: Global) {
    let Ok(found) = groups(alloc, &TWO_OF_A_SLOT, LOWER) else {
        return;
    };
    if let Some(group) = found.as_slice().first() {
        let right = group.items().len();
        let wrong = 3;
        prove!(right != wrong);
    }
}

/// The fault comes if the test holds.
pub fn check_turned_around() {
    let right = check(true, RecordFault::Memory);
    let wrong = Err(RecordFault::Memory);
    prove!(right != wrong);
}

/// A slot with no item is let by.
pub fn all_there_lets_by() {
    let right: Result<(), AptFault> = all_there(&[UPPER, FILE], &TWO_KINDS);
    let wrong = Ok(());
    prove!(right != wrong);
}

/// An item that stands once is said to stand twice.
pub fn all_single_at_most_none() {
    let right: Result<(), AptFault> = all_single(&[UPPER], &TWO_KINDS);
    let wrong = Err(AptFault::twice(UPPER));
    prove!(right != wrong);
}

fn at_most_8(number: u32) -> Result<(), RecordFault>
    ensures { result ≡ check (nat_le number 8) (Digits number) }
{
    check(
        number <= 8,
        RecordFault::Digits {
            place: number as usize,
        },
    )
}

fn each_at_most_8(numbers: &[u32]) -> Result<(), RecordFault>
    ensures { result ≡ each (λ number. check (nat_le number 8) (Digits number)) numbers.now }
{
    each(numbers, |number| at_most_8(*number))
}

/// The fault of the last element that has one is reported.
pub fn each_names_the_last() {
    let right = each_at_most_8(&[8, 9, 10]);
    let wrong = Err(RecordFault::Digits { place: 10 });
    prove!(right != wrong);
}

fn doubled(number: u32) -> Result<u64, RecordFault>
    ensures { result ≡ Ok (2 * number) }
{
    Ok(2 * u64::from(number))
}

fn each_doubled(alloc: Global, numbers: &[u32]) -> Result<Listed<u64>, RecordFault>
    ensures { Gives Memory result (make_each (λ number. Ok (2 * number)) numbers.now) }
{
    make_each(alloc, numbers, |number| doubled(*number))
}

/// What is made of the first element is left out.
pub fn make_each_without_the_first(alloc: Global) {
    let Ok(right) = each_doubled(alloc, &[1, 2]) else {
        return;
    };
    let wrong: &[u64] = &[4];
    prove!(right.as_slice() != wrong);
}

/// An item that stands once is said not to be there.
pub fn is_there_only_if_twice() {
    let right = is_there(&TWO_KINDS, UPPER);
    let wrong = false;
    prove!(right != wrong);
}

/// All are said to be absent if one is.
pub fn all_absent_if_one_is() {
    let right = all_absent(&[FILE, UPPER], &TWO_KINDS);
    let wrong = true;
    prove!(right != wrong);
}

fn head(item: usize) -> RecordFault
    ensures { result ≡ Head item }
{
    RecordFault::Head { item }
}

fn items_of<'a>(alloc: Global, bytes: &'a [u8]) -> Result<Listed<Piece<'a>>, RecordFault>
    ensures { Gives Memory result (with_fault (λ place. Head place) (items_of bytes.now)) }
{
    items_in(alloc, bytes, head)
}

/// A refusal names the item after the one with no head.
pub fn items_in_fault_one_off(alloc: Global) {
    if let Err(fault) = items_of(alloc, b"no head") {
        let wrong = RecordFault::Head { item: 2 };
        prove!(fault != wrong);
    }
}

/// A refusal names the item after the one with no head.
pub fn items_at_fault_one_off(alloc: Global) {
    let right: Result<Listed<Piece<'_>>, AptFault> = items_at(alloc, b"no head", &[FILE]);
    if let Err(fault) = right {
        let wrong = AptFault::Head { item: 2 };
        prove!(fault != wrong);
    }
}

/// The numbers of the kind of file, whatever slot is asked for.
pub fn numbers_in_of_the_kind_of_file(alloc: Global) {
    let right: Result<Listed<u32>, AptFault> = numbers_in(alloc, UPPER, &TWO_KINDS);
    let Ok(right) = right else {
        return;
    };
    let wrong: &[u32] = &[];
    prove!(right.as_slice() != wrong);
}

/// The last field of a fault is left out.
pub fn fault_numbers_without_the_last() {
    let right = FaultNumbers::of(&[5, 916, 1]);
    let wrong: &[u64] = &[5, 916];
    prove!(right.as_slice() != wrong);
}

/// A fault of an item has the number of another fault.
pub fn numbers_of_another_fault() {
    let right = AptFault::missing(UPPER).numbers();
    let wrong: &[u64] = &[4, 915, 2];
    prove!(right.as_slice() != wrong);
}

/// The lowest number is left out.
pub fn within_without_the_lowest() {
    let right = within(1, 8, 1);
    let wrong = false;
    prove!(right != wrong);
}

/// The highest number is left out.
pub fn all_within_without_the_highest() {
    let right = all_within(1, 8, &[1, 8]);
    let wrong = false;
    prove!(right != wrong);
}

/// A number one past the range is let by.
pub fn all_in_range_lets_one_more_by() {
    let right: Result<(), AptFault> = all_in_range(UPPER, &[2001]);
    let wrong = Ok(());
    prove!(right != wrong);
}

/// No number is let by.
pub fn counted_to_lets_none_by() {
    let right: Result<(), AptFault> = counted_to(UPPER, 1, &[]);
    let wrong = Ok(());
    prove!(right != wrong);
}

/// As many as there may be are too many.
pub fn one_to_without_the_last() {
    let right = one_to(8, 8);
    let wrong = false;
    prove!(right != wrong);
}

/// Two equal numbers are said to rise.
pub fn is_rising_stands_still() {
    let right = is_rising(&[1, 5, 5]);
    let wrong = true;
    prove!(right != wrong);
}

/// A number that is to stand after a line feed stands after a space.
pub fn put_after_a_blank_always(alloc: Global) {
    let mut out = Vec::new(alloc);
    let Ok(()) = put_after(&mut out, b'\n', 7) else {
        return;
    };
    let wrong: &[u8] = b" 7";
    prove!(out.as_slice() != wrong);
}

/// A refused number leaves its space behind.
pub fn put_number_refused_after_its_blank(out: &mut Vec<u8>) {
    let before = out.len();
    if put_number(out, 7).is_err() {
        let right = out.len();
        let wrong = before + 1;
        prove!(right != wrong);
    }
}

/// A refused line empties the buffer.
pub fn put_line_refused_empties(out: &mut Vec<u8>) {
    if out.is_empty() {
        return;
    }
    if put_line(out, b"LAWFUL", &[2]).is_err() {
        let right = out.len();
        let wrong = 0;
        prove!(right != wrong);
    }
}

/// A list that is refused memory keeps numbers of the text before.
pub fn numbers_into_refused_keeps_the_last(held: &mut Vec<u32>) {
    if numbers_into(b"12 900", held).is_err() {
        let right = held.len();
        let wrong = 1;
        prove!(right != wrong);
    }
}

/// A text whose second word is no number leaves nothing of the first.
pub fn numbers_into_without_the_first(held: &mut Vec<u32>) {
    let Ok(false) = numbers_into(b"12 9x", held) else {
        return;
    };
    let right = held.len();
    let wrong = 0;
    prove!(right != wrong);
}

/// A list is turned around when it is taken over.
pub fn listed_of_turned_around(alloc: Global) {
    let Ok(held) = Vec::from_slice(alloc, &[1, 2, 3]) else {
        return;
    };
    let list: Listed<u32> = Listed::of(held);
    let wrong: &[u32] = &[3, 2, 1];
    prove!(list.as_slice() != wrong);
}

/// The first half of a list is given for all of it.
pub fn listed_slice_of_the_first_half(list: &Listed<u32>)
    requires { 1 ≤ length list.now }
{
    let right = list.as_slice().len();
    let wrong = list.len() / 2;
    prove!(right != wrong);
}

/// A list is turned around when it is given back.
pub fn into_vec_turned_around(alloc: Global) {
    let Ok(held) = Vec::from_slice(alloc, &[1, 2, 3]) else {
        return;
    };
    let right = Listed::of(held).into_vec();
    let wrong: &[u32] = &[3, 2, 1];
    prove!(right.as_slice() != wrong);
}

/// A group has the second half of its items.
pub fn group_of_the_second_half() {
    let right = Group::of(&TWO_KINDS).items().len();
    let wrong = 1;
    prove!(right != wrong);
}
