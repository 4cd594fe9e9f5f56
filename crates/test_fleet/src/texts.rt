//! The texts of a fleet's faults.
use buck_book_postings::{Plan, TargetsFault};
use buck_fleet::{CloseFault, CutFault, OpenFault, RetargetFault, RunFault, TryFault};
use buck_value::Sheet;
use fixture_samples::{saw_instruction, uniform_stem};
use std::alloc::Global;
use std::fmt::Display;
use std::sync::Arc;
use std::test::Fail;

/// Whether each fault has its text.
fn read<T: Display>(alloc: Global, rows: &[(T, &str)]) -> Result<bool, Fail> {
    for (fault, want) in rows {
        if format!(in alloc; "{fault}")?.as_str() != *want {
            return Ok(false);
        }
    }
    Ok(true)
}

const SHORT: &str = "out of memory";

const FULL: &str = "the history is at its capacity";

const OPEN: [(OpenFault, &str); 3] = [
    (OpenFault::Seats, "not 1 to 64 seats"),
    (OpenFault::Capacity, "not 1 to 1000000 postings"),
    (OpenFault::Memory, SHORT),
];

const CUT: [(CutFault, &str); 2] = [(CutFault::Full, FULL), (CutFault::Memory, SHORT)];

const RUN: [(RunFault, &str); 2] = [(RunFault::Full, FULL), (RunFault::Memory, SHORT)];

const RETARGET: [(RetargetFault, &str); 3] = [
    (RetargetFault::Full, FULL),
    (
        RetargetFault::Targets(TargetsFault::Count),
        "there is not one target for each class",
    ),
    (RetargetFault::Memory, SHORT),
];

const CLOSE: [(CloseFault, &str); 2] = [
    (CloseFault::Instruction, "the instruction is another"),
    (
        CloseFault::Calls {
            harvester: 2,
            number: 3,
        },
        "the calls of harvester 2 differ at number 3",
    ),
];

#[test]
fn texts_of_faults(rt: HostRuntime) -> Result<(), Fail> {
    assert!(rt; read(rt.alloc(), &OPEN)? && read(rt.alloc(), &CUT)? && read(rt.alloc(), &RUN)?);
    assert!(rt; read(rt.alloc(), &RETARGET)? && read(rt.alloc(), &CLOSE)?);
    Ok(())
}

/// The texts of plans that are given back, each with its debugging form.
const GIVEN_BACK: [&str; 3] = [
    "the plan was made under another sheet than the one in force; Stale { version: 0 }",
    "the history is at its capacity; Full",
    "out of memory; Memory",
];

/// The base sheet of the saw instruction.
fn sheet(alloc: Global) -> Result<Arc<Sheet>, Fail> {
    let sheet = Sheet::base(alloc, saw_instruction(alloc, 1, 0, "1 1 1 1")?)?;
    Ok(Arc::new(alloc, sheet)?)
}

/// A plan under a sheet.
fn planned(alloc: Global, sheet: &Arc<Sheet>) -> Result<Plan, Fail> {
    let stem = Arc::new(alloc, uniform_stem(alloc, 41, 250)?)?;
    Ok(Plan::make(alloc, sheet.clone()?, stem)?)
}

/// The fault at a place of these texts.
fn fault(alloc: Global, at: usize) -> Result<TryFault, Fail> {
    let in_force = sheet(alloc)?;
    let plan = planned(alloc, &in_force)?;
    Ok(match at {
        0 => TryFault::Stale { in_force, plan },
        1 => TryFault::Full { plan },
        _ => TryFault::Memory { plan },
    })
}

/// Whether that fault has its text.
fn is_given_back(alloc: Global, at: usize, want: &str) -> Result<bool, Fail> {
    let fault = fault(alloc, at)?;
    Ok(format!(in alloc; "{fault}; {fault:?}")?.as_str() == want)
}

#[test]
fn texts_of_plans_given_back(rt: HostRuntime) -> Result<(), Fail> {
    for at in 0..3usize {
        assert!(rt; is_given_back(rt.alloc(), at, GIVEN_BACK[at])?);
    }
    Ok(())
}
