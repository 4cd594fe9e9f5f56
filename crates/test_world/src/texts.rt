//! The texts of a world's faults.
use buck_book_postings::TargetsFault;
use buck_fleet_world::StepFault;

/// Each fault and its text.
const TEXTS: [(StepFault, &str); 5] = [
    (StepFault::NotAllowed, "the event is not allowed here"),
    (StepFault::Full, "the history is at its capacity"),
    (StepFault::Memory, "out of memory"),
    (
        StepFault::Targets(TargetsFault::Range { at: 2 }),
        "the target of class 2 is above 1000000",
    ),
    (
        StepFault::Targets(TargetsFault::Sum { assortment: 0 }),
        "the targets of assortment 0 are together above 1000000000",
    ),
];

/// Whether a fault has this text.
fn reads(rt: &HostRuntime, fault: StepFault, want: &str) -> bool {
    match format!(in rt.alloc(); "{fault}") {
        Ok(text) => text.as_str() == want,
        Err(_) => false,
    }
}

#[test]
fn texts_of_faults(rt: HostRuntime) {
    for (fault, want) in TEXTS {
        assert!(rt; reads(&rt, fault, want));
    }
}
