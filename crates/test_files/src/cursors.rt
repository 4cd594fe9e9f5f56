//! Items one after the other: those that a text begins with are found, and so is its end. What is found is right by
//! contract; that something is found, no contract says.
use buck_record::{Slot, is_done, next_in, slot};

/// Twelve items of one slot, in all ways to write its head.
const TWELVE: &str = "7 1 a b~7 1 c~\r\n 07\t1 \n a  b \n~~ ~7 1~7 1 x~
7 1 a b ~
7  1 a b~7\t1
a b~007 0001 a b~00007 00001 a~7 1 1~7 1 12 3";

/// Whether a text has so many items, all in this slot.
fn has_items(slot: Slot, count: usize, text: &str) -> bool {
    let mut rest = text.as_bytes();
    for _ in 0..count {
        let Some((_, left)) = next_in(slot, rest) else {
            return false;
        };
        rest = left;
    }
    is_done(rest)
}

#[test]
fn items_at_the_front(rt: HostRuntime) {
    assert!(rt; has_items(slot!(7, 1), 12, TWELVE));
    assert!(rt; has_items(slot!(981, 3), 1, "\n981 3 310 305~\n"));
    assert!(rt; has_items(slot!(65_535, 12_345), 1, "65535 12345 310 305~"));
}

#[test]
fn ends_of_files(rt: HostRuntime) {
    assert!(rt; is_done(b"") && is_done(b" \n"));
    assert!(rt; is_done(b"~") && is_done(b" ~~ \n~"));
}
