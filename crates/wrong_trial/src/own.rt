//! Wrong bodies of the comparison of two instructions.
ghost use Rattle.std.specs.Prelude.{◌≡◌};

use buck_apt_instruction::{Instruction, Settings};
use buckfleet_terms_files::{OwnFault, shape_fault};

/// A trim that differs is accepted.
pub fn own_with_another_trim_accepted(instruction: &Instruction, own: &Instruction) {
    let theirs = instruction.assortments()[0].trim();
    let mine = own.assortments()[0].trim();
    if theirs != mine {
        let right = shape_fault(instruction, own);
        prove!(right.is_some());
    }
}

/// A number of assortments that differs is accepted.
pub fn own_with_fewer_assortments_accepted(instruction: &Instruction, own: &Instruction) {
    if own.assortments().len() < instruction.assortments().len() {
        let right = shape_fault(instruction, own);
        prove!(right.is_some());
    }
}

/// A period and a limit that differ are refused.
pub fn own_with_another_period_refused(
    instruction: &Instruction,
    own: Instruction,
    settings: &Settings,
)
    requires { own ≡ instruction.now }
{
    let own = own.with(settings);
    let right = shape_fault(instruction, &own);
    prove!(right.is_none());
}

/// The number of assortments is reported, though the module differs too.
pub fn own_number_told_before_the_module(instruction: &Instruction, own: &Instruction) {
    if own.module() != instruction.module() {
        let right = shape_fault(instruction, own);
        let wrong = Some(OwnFault::Whole {
            number: 910,
            kind: 1,
        });
        prove!(right != wrong);
    }
}

/// The grades are reported, though the species differs too.
pub fn own_grades_told_before_the_species(instruction: &Instruction, own: &Instruction) {
    let theirs = instruction.assortments()[0].species();
    let mine = own.assortments()[0].species();
    if mine != theirs {
        let right = shape_fault(instruction, own);
        let wrong = Some(OwnFault::Part {
            number: 913,
            kind: 1,
            assortment: 0,
        });
        prove!(right != wrong);
    }
}
