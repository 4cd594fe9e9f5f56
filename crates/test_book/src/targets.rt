//! Targets that may come into force, and those that may not.
use buck_apt_instruction::Instruction;
use buck_book_postings::{TargetsFault, check_targets};
use fixture_samples::{largest_instruction, saw_instruction};
use std::test::Fail;

/// Targets of the saw instruction, and what is wrong with them.
const TARGETS: [(&[u32], Option<TargetsFault>); 5] = [
    (&[0, 0, 0, 4], None),
    (&[0, 0, 1_000_000, 1_000_000], None),
    (&[1, 1, 1], Some(TargetsFault::Count)),
    (&[1, 1, 1, 1, 1], Some(TargetsFault::Count)),
    (
        &[1, 1, 1_000_001, 2_000_000],
        Some(TargetsFault::Range { at: 2 }),
    ),
];

/// The first of 1,024 targets, how many after it are 0 if all others are 1,000,000, and what is wrong with them.
const MANY: [(u32, usize, Option<TargetsFault>); 3] = [
    (1_000_000, 0, Some(TargetsFault::Sum { assortment: 0 })),
    (1, 23, Some(TargetsFault::Sum { assortment: 0 })),
    (0, 23, None),
];

/// What is wrong with such targets.
fn fault_of_many(
    rt: &HostRuntime,
    instruction: &Instruction,
    first: u32,
    zeros: usize,
) -> Result<Option<TargetsFault>, Fail> {
    let mut targets = vec![in rt.alloc(); first; 1]?;
    for at in 1..1024 {
        targets.push(if at <= zeros { 0 } else { 1_000_000 })?;
    }
    Ok(check_targets(instruction, targets.as_slice()).err())
}

/// Whether these many are judged so.
fn are_judged(rt: &HostRuntime, instruction: &Instruction) -> Result<bool, Fail> {
    for (first, zeros, want) in MANY {
        if fault_of_many(rt, instruction, first, zeros)? != want {
            return Ok(false);
        }
    }
    Ok(true)
}

/// Whether those of the saw instruction are judged so.
fn are_judged_by_saw(saw: &Instruction) -> bool {
    for (targets, want) in TARGETS {
        if check_targets(saw, targets).err() != want {
            return false;
        }
    }
    true
}

#[test]
fn targets(rt: HostRuntime) -> Result<(), Fail> {
    let saw = saw_instruction(rt.alloc(), 1, 500, "1 1 1 1")?;
    let many = largest_instruction(rt.alloc())?;
    assert!(rt; are_judged_by_saw(&saw) && are_judged(&rt, &many)?);
    Ok(())
}
