//! Targets that may not come into force.
use buck_apt_instruction::Instruction;
use buck_apt_instruction::slots::{MOST_TARGETS_TOGETHER, TARGETS};
use buck_book_postings::{TargetsFault, check_targets};
use buckfleet_reason::{Quoted, Several};
use std::fmt;

/// The fault of targets, if there is one, in words.
#[derive(Clone, Copy)]
pub struct WrongTargets<'a> {
    pub instruction: &'a Instruction,
    /// The targets, in logs of each class: assortment by assortment, row by row.
    pub targets: &'a [u32],
}

impl<'a> WrongTargets<'a> {
    /// The name of an assortment, if there is one, and its targets together.
    fn part(&self, place: usize) -> Option<(&'a [u8], u64)> {
        let mut rest = self.targets;
        for (at, assortment) in self.instruction.assortments().iter().enumerate() {
            let split = rest.split_at_checked(assortment.classes());
            let (own, behind) = split.unwrap_or((rest, &[]));
            if at == place {
                let sum = own.iter().fold(0u64, |sum, target| {
                    sum.saturating_add(u64::from(*target))
                });
                return Some((assortment.name(), sum));
            }
            rest = behind;
        }
        None
    }
}

impl fmt::Display for WrongTargets<'_> {
    fn fmt<W: fmt::Write>(&self, f: &mut fmt::Formatter<W>) -> fmt::Result {
        match check_targets(self.instruction, self.targets) {
            Ok(()) => Ok(()),
            Err(TargetsFault::Count) => {
                let classes = self.instruction.classes();
                write!(
                    f,
                    "targets (982 2): {}, expected {classes}, one for each class",
                    Several(self.targets.len(), "number")
                )
            }
            Err(TargetsFault::Range { at }) => {
                let target = self.targets.get(at).copied().unwrap_or(0);
                write!(
                    f,
                    "targets (982 2): {target} at place {}, expected {} to {}",
                    at.saturating_add(1),
                    TARGETS.low,
                    TARGETS.high
                )
            }
            Err(TargetsFault::Sum { assortment }) => {
                let Some((name, sum)) = self.part(assortment) else {
                    return Ok(());
                };
                let name = Quoted(name);
                let most = MOST_TARGETS_TOGETHER;
                write!(
                    f,
                    "targets (982 2) of assortment {assortment} {name}: {sum} together, expected at most {most}"
                )
            }
        }
    }
}
