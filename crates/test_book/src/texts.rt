//! Texts of faults.
use crate::fixtures::reads;
use buck_book_postings::DemandRefusal::{Full, Memory, Targets};
use buck_book_postings::TargetsFault::{Count, Range, Sum};
use buck_book_postings::{DemandRefusal, Refusal};
use std::test::Fail;

const TEXTS: [(DemandRefusal, &str); 5] = [
    (Full, "the history is at its capacity, Full"),
    (Memory, "out of memory, Memory"),
    (
        Targets(Count),
        "there is not one target for each class, Targets(Count)",
    ),
    (
        Targets(Range { at: 2 }),
        "the target of class 2 is above 1000000, Targets(Range { at: 2 })",
    ),
    (
        Targets(Sum { assortment: 0 }),
        "the targets of assortment 0 are together above 1000000000, Targets(Sum { assortment: 0 })",
    ),
];

#[test]
fn texts_of_refusals(rt: HostRuntime) -> Result<(), Fail> {
    for (refusal, want) in TEXTS {
        assert!(rt; reads(rt.alloc(), &refusal, want)?);
    }
    assert!(rt;
        reads(
            rt.alloc(),
            &Refusal::Full,
            "the history is at its capacity, Full"
        )?
    );
    assert!(rt; reads(rt.alloc(), &Refusal::Memory, "out of memory, Memory")?);
    Ok(())
}
