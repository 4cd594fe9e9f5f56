//! Which targets may come into force.
ghost use Rattle.std.specs.Prelude.{◌≡◌, ◌+◌, ◌*◌, ◌<◌, ◌≤◌, ◌^◌, IfErr, OnOk, length, take, drop, sum, Some};
ghost use Rattle.buck_apt_instruction.specs.Instruction.{classes, classes_of};
ghost use Rattle.buck_book_postings.specs.Targets.{AreTargets, IsTargetsFault, targets_sum};

use buck_apt_instruction::slots::{MOST_TARGETS_TOGETHER, TARGETS};
use buck_apt_instruction::{Assortment, Instruction};
use thiserror::Error;

/// Why targets are refused.
#[derive(Clone, Copy, Debug, PartialEq, Eq, Error)]
pub enum TargetsFault {
    /// There isn't one target for each class.
    #[error("there is not one target for each class")]
    Count,
    /// The target of this class, counted from 0, is above 1,000,000; none before it is.
    #[error("the target of class {at} is above 1000000")]
    Range { at: usize },
    /// The targets of this assortment, counted from 0, are together above 1,000,000,000; those of none before it are.
    #[error("the targets of assortment {assortment} are together above 1000000000")]
    Sum { assortment: usize },
}

/// All of some numbers together.
pub fn sum_of(targets: &[u32]) -> u64
    requires few { length targets.now ≤ 1024 }
    ensures sum { result ≡ sum targets.now }
    ensures low { result ≤ 1024 * 2 ^ 32 }
{
    let mut all = 0;
    for target in targets {
        all += u64::from(*target);
    }
    all
}

/// Adds up the targets of an assortment, over all its classes, of which the first stands at a place among all classes.
pub fn targets_sum(assortment: &Assortment, first: usize, targets: &[u32]) -> u64
    requires first { first + classes_of assortment.now ≤ length targets.now }
    ensures { result ≡ sum (take (classes_of assortment.now) (drop first targets.now)) }
{
    sum_of(&targets[first..first + assortment.classes()])
}

/// Whether targets may come into force: one for each class of the instruction, assortment by assortment and row by
/// row, each at most 1,000,000, and those of an assortment together at most 1,000,000,000. Refused as `Count`, else as
/// `Range` with the least class, else as `Sum` with the least assortment. It takes no memory.
pub fn check_targets(instruction: &Instruction, targets: &[u32]) -> Result<(), TargetsFault>
    ensures valid { OnOk result (AreTargets instruction.now targets.now) }
    ensures refused { IfErr result (IsTargetsFault instruction.now targets.now) }
{
    if targets.len() != instruction.classes() {
        return Err(TargetsFault::Count);
    }
    match targets.iter().position(|target| *target > TARGETS.high) {
        Some(at) => return Err(TargetsFault::Range { at }),
        None => {}
    }
    let assortments = instruction.assortments();
    let mut first = 0;
    for at in 0..assortments.len() {
        let assortment = &assortments[at];
        if targets_sum(assortment, first, targets) > MOST_TARGETS_TOGETHER {
            return Err(TargetsFault::Sum { assortment: at });
        }
        first += assortment.classes();
    }
    Ok(())
}
