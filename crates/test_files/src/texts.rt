//! Texts of faults.
use buck_apt::AptFault;
use buck_record::{Memory, RecordFault};
use buck_stem::StmFault;
use buck_stem_shape::StemFault;
use std::alloc::Global;
use std::fmt::Display;

const INSTRUCTIONS: &str = "item 3 has no head
the file is not an instruction
item 954 1 is missing
item 954 1 stands twice
word 2 of item 954 1 is not a number
item 954 1 is out of range
item 954 1 is out of order
item 954 1 has another count of numbers
length 650 is not a multiple of the module
the targets of assortment 3 are too many
out of memory
";

const STEMS: &str = "item 3 has no head
the file is not one of stems
item 954 1 is missing
item 954 1 stands twice
word 2 of item 954 1 is not a number
a number of item 954 1 is out of range
item 954 1 is out of order
item 954 1 has another count of numbers
out of memory
";

const OF_RECORDS: [RecordFault; 3] = [
    RecordFault::Head { item: 2 },
    RecordFault::Digits { place: 3 },
    RecordFault::Memory,
];

const RECORDS: &str = "item 2 has no head
word 3 is not a number
out of memory
";

/// Puts the text of a fault on a line of its own.
fn put_line<T: Display>(out: &mut String, fault: &T) -> Result<(), Memory> {
    Ok(write!(out, "{fault}\n")?)
}

fn put_lines<T: Display>(out: &mut String, faults: &[T]) -> Result<(), Memory> {
    for fault in faults {
        put_line(&mut *out, fault)?;
    }
    Ok(())
}

/// Whether these are the texts of faults, each on a line of its own.
fn have_texts<T: Display>(alloc: Global, faults: &[T], wanted: &str) -> bool {
    let mut text = String::new(alloc);
    put_lines(&mut text, faults).is_ok() && text.as_str() == wanted
}

/// Whether the faults of an instruction have their texts, if those of an item name this one.
fn instructions_have(alloc: Global, number: u16, kind: u16, place: usize) -> bool {
    let faults = [
        AptFault::Head { item: 3 },
        AptFault::NotApt,
        AptFault::Missing { number, kind },
        AptFault::Twice { number, kind },
        AptFault::Digits {
            number,
            kind,
            place,
        },
        AptFault::Range { number, kind },
        AptFault::Order { number, kind },
        AptFault::Count { number, kind },
        AptFault::Module { length: 650 },
        AptFault::Targets { assortment: 3 },
        AptFault::Memory,
    ];
    have_texts(alloc, &faults, INSTRUCTIONS)
}

/// Whether the faults of stems have their texts, if those of an item name this one.
fn stems_have(alloc: Global, number: u16, kind: u16, place: usize) -> bool {
    let faults = [
        StmFault::Head { item: 3 },
        StmFault::NotStm,
        StmFault::Missing { number, kind },
        StmFault::Twice { number, kind },
        StmFault::Digits {
            number,
            kind,
            place,
        },
        StmFault::Range { number, kind },
        StmFault::Order { number, kind },
        StmFault::Count { number, kind },
        StmFault::Memory,
    ];
    have_texts(alloc, &faults, STEMS)
}

#[test]
fn texts_of_faults(rt: HostRuntime) {
    assert!(rt; instructions_have(rt.alloc(), 954, 1, 2));
    assert!(rt; stems_have(rt.alloc(), 954, 1, 2));
}

#[test]
fn texts_of_parts(rt: HostRuntime) {
    assert!(rt; have_texts(rt.alloc(), &OF_RECORDS, RECORDS));
    assert!(rt;
        have_texts(
            rt.alloc(),
            &[StemFault::Limits],
            "the stem is outside its limits\n"
        )
    );
    assert!(rt; have_texts(rt.alloc(), &[StemFault::Memory], "out of memory\n"));
    assert!(rt; have_texts(rt.alloc(), &[Memory], "out of memory\n"));
}
