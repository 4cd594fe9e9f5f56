//! The items of files.
use buck_record::rules::items_in;
use buck_record::{Item, RecordFault, items, pieces_at, slot};
use std::alloc::Global;
use std::test::Fail;

/// A file, how many items it has, the place of one of them from 0, and its number, its kind and its rest.
type Row = (&'static [u8], usize, usize, u16, u16, &'static [u8]);

const FILES: [Row; 9] = [
    (b"~ 1 2 STM~~ 951 1 007 ~", 2, 0, 1, 2, b"STM"),
    (b"~ 1 2 STM~~ 951 1 007 ~", 2, 1, 951, 1, b"007"),
    (b"1 \r\n 2 \t\n \ta\r\nb", 1, 0, 1, 2, b"a\r\nb"),
    (b"1 2 \x0brest\x0c ~", 1, 0, 1, 2, b"\x0brest\x0c"),
    (b"65535 65535 x~0 0", 2, 0, 65535, 65535, b"x"),
    (b"65535 65535 x~0 0", 2, 1, 0, 0, b""),
    (b"0000065535 007\n", 1, 0, 65535, 7, b""),
    (b"9 1 gr\xe4n \x00\x7f~", 1, 0, 9, 1, b"gr\xe4n \x00\x7f"),
    (b"1 2 ~ ~ 1 2 ", 2, 1, 1, 2, b""),
];

/// A file that is refused, and the place of its first item that has no head.
const HEADLESS: [(&[u8], usize); 8] = [
    (b"1 2 APT~x 1 5", 2),
    (b"1 2~\x0b~", 2),
    (b"1\x0c2", 1),
    (b"1 2\xc2\xa0", 1),
    (b"1 2~\n~~3~", 2),
    (b"1 18446744073709551617", 1),
    (b"1 2x", 1),
    (b"\xff 2", 1),
];

fn is_so(items: &[Item], row: Row) -> bool {
    let (_, count, i, number, kind, rest) = row;
    if items.len() != count || count <= i {
        return false;
    }
    let item = &items[i];
    item.number == number && item.kind == kind && item.rest.as_slice() == rest
}

fn is_read(alloc: Global, row: Row) -> bool {
    match items(alloc, row.0) {
        Ok(found) => is_so(found.as_slice(), row),
        Err(_) => false,
    }
}

fn is_refused(alloc: Global, file: &[u8], place: usize) -> bool {
    match items(alloc, file) {
        Err(RecordFault::Head { item }) => item == place,
        _ => false,
    }
}

/// The first row that is read otherwise, counted from 1; 0 if none is.
fn first_other(alloc: Global) -> usize {
    for i in 0..FILES.len() {
        if !is_read(alloc, FILES[i]) {
            return i + 1;
        }
    }
    0
}

/// The first row that isn't refused so, counted from 1; 0 if all are.
fn first_accepted(alloc: Global) -> usize {
    for i in 0..HEADLESS.len() {
        let (file, place) = HEADLESS[i];
        if !is_refused(alloc, file, place) {
            return i + 1;
        }
    }
    0
}

#[test]
fn words_of_items(rt: HostRuntime) {
    assert!(rt; first_other(rt.alloc()) == 0);
    assert!(rt; first_accepted(rt.alloc()) == 0);
}

/// How many items a file has, and how many of them are names.
fn counts(alloc: Global) -> Result<(usize, usize), RecordFault> {
    let file = b"1 2 APT~901 1 100~911 1 saw~912 1 1 7~911 1 pole~".as_slice();
    let all = items_in(alloc, file, |item| RecordFault::Head { item })?.len();
    Ok((all, pieces_at(alloc, file, &[slot!(911, 1)])?.len()))
}

#[test]
fn lists_of_items(rt: HostRuntime) -> Result<(), Fail> {
    assert!(rt; counts(rt.alloc())? == (5, 2));
    Ok(())
}
