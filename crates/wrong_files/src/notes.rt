//! Wrong answers about what is worth a note.
ghost use Rattle.std.specs.Prelude.{◌≡◌, slice_index, true, false};
ghost use Rattle.buckfleet_notes.specs.Notes.{has_species, is_namesake};

use buck_apt_instruction::Instruction;
use buckfleet_notes::{first_again, first_namesake, first_untaken, is_too_long, is_unsteered};
use std::alloc::Global;

/// The earlier of two places is noted.
pub fn earlier_of_two_noted(alloc: Global) {
    let numbers = [7, 4, 7];
    if let Ok(right) = first_again(alloc, &numbers) {
        let wrong = Some(0);
        prove!(right != wrong);
    }
}

/// A stem whose species an assortment takes is noted.
pub fn taken_species_noted(instruction: &Instruction, species: &[u8])
    requires taken { has_species instruction.now.assortments (slice_index species.now 0) ≡ true }
{
    let right = first_untaken(instruction, species);
    let wrong = Some(0);
    prove!(right != wrong);
}

/// An assortment whose name no earlier one has is noted.
pub fn only_name_noted(instruction: &Instruction)
    requires apart { is_namesake instruction.now.assortments 1 ≡ false }
{
    let right = first_namesake(instruction);
    let wrong = Some(1);
    prove!(right != wrong);
}

/// No stems at all are noted.
pub fn no_stems_noted() {
    let right = is_unsteered(0, 5);
    let wrong = true;
    prove!(right != wrong);
}

/// The longest journal that is read is noted.
pub fn longest_journal_noted() {
    let right = is_too_long(67_108_864);
    let wrong = true;
    prove!(right != wrong);
}
