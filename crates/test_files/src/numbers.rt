//! The numbers of texts.
use buck_record::{RecordFault, number, numbers, wide};
use std::alloc::Global;

/// A text and its numbers.
const TEXTS: [(&[u8], &[u32]); 8] = [
    (b"", &[]),
    (b" \t\r\n", &[]),
    (b"\t1\n2\r3 4\r\n", &[1, 2, 3, 4]),
    (b"0 4294967295 00", &[0, 4294967295, 0]),
    (b"100 200 300 400 ", &[100, 200, 300, 400]),
    (
        b"100 200 300  400 500 1 22 333 00001500",
        &[100, 200, 300, 400, 500, 1, 22, 333, 1500],
    ),
    (
        b" 1\n22\t333\r\n14990 000000000000000000001 9",
        &[1, 22, 333, 14990, 1, 9],
    ),
    (b"4294967294 99999 9999", &[4294967294, 99999, 9999]),
];

/// A text that is refused, and the place of its first word that is no number.
const REFUSED: [(&[u8], usize); 8] = [
    (b"1 2\x0b3", 2),
    (b"1 2 \xc2\xa0", 3),
    (b"\x00 1", 1),
    (b"1 x", 2),
    (b"1 2 4294967296 x", 3),
    (b"100 200 300 400 4294967296", 5),
    (b"100 200 300 40x 500", 4),
    (b"18446744073709551616 1", 1),
];

fn are_read(alloc: Global, text: &[u8], wanted: &[u32]) -> bool {
    match numbers(alloc, text) {
        Ok(found) => found.as_slice() == wanted,
        Err(_) => false,
    }
}

fn are_refused(alloc: Global, text: &[u8], word: usize) -> bool {
    match numbers(alloc, text) {
        Err(RecordFault::Digits { place }) => place == word,
        _ => false,
    }
}

/// The first row that is read otherwise, counted from 1; 0 if none is.
fn first_other(alloc: Global) -> usize {
    for i in 0..TEXTS.len() {
        let (text, wanted) = TEXTS[i];
        if !are_read(alloc, text, wanted) {
            return i + 1;
        }
    }
    0
}

/// The first row that isn't refused so, counted from 1; 0 if all are.
fn first_accepted(alloc: Global) -> usize {
    for i in 0..REFUSED.len() {
        let (text, word) = REFUSED[i];
        if !are_refused(alloc, text, word) {
            return i + 1;
        }
    }
    0
}

#[test]
fn numbers_of_texts(rt: HostRuntime) {
    assert!(rt; first_other(rt.alloc()) == 0);
    assert!(rt; first_accepted(rt.alloc()) == 0);
}

/// A text, its one number, and the place where it is refused, with 0 if it isn't.
const ONES: [(&[u8], u32, usize); 8] = [
    (b"007", 7, 0),
    (b"\n\t 5\r", 5, 0),
    (b"4294967295", 4_294_967_295, 0),
    (b"4294967296", 0, 1),
    (b"", 0, 1),
    (b"x 2", 0, 1),
    (b"1 x", 0, 2),
    (b"1 2", 0, 2),
];

fn is_one(text: &[u8], value: u32, word: usize) -> bool {
    match number(text) {
        Ok(found) => word == 0 && found == value,
        Err(RecordFault::Digits { place }) => place == word,
        Err(_) => false,
    }
}

/// The first row of single numbers that differs, counted from 1; 0 if none does.
fn first_other_one() -> usize {
    for i in 0..ONES.len() {
        let (text, value, word) = ONES[i];
        if !is_one(text, value, word) {
            return i + 1;
        }
    }
    0
}

#[test]
fn words_of_items_one_number(rt: HostRuntime) {
    assert!(rt; first_other_one() == 0);
    assert!(rt; wide(b"18446744073709551615") == Ok(18_446_744_073_709_551_615));
}
