//! What deserves a warning, and its first place.
ghost use Rattle.std.specs.Prelude.{◌≡◌, IfOk, length};
ghost use Rattle.buckfleet_notes.specs.Notes.{IsFirstOf, has_name, has_species, is_again, is_namesake, is_too_long, is_unsteered, is_untaken};

use buck_apt_instruction::{Assortment, Instruction};
use buck_record::Memory;
use std::alloc::Global;
use std::collections::BTreeSet;

/// The most bytes of a journal that is read again.
const LONGEST: u64 = 67_108_864;

/// Returns the first place whose number is at an earlier place too. Refused as `Memory` alone.
pub fn first_again(alloc: Global, numbers: &[u32]) -> Result<Option<usize>, Memory>
    ensures { IfOk result (IsFirstOf (is_again numbers.now) (length numbers.now)) }
{
    let mut seen = BTreeSet::new(alloc);
    for place in 0..numbers.len() {
        if !seen.insert(numbers[place])? {
            return Ok(Some(place));
        }
    }
    Ok(None)
}

/// Whether some assortment takes a species.
fn has_species(assortments: &[Assortment], species: u8) -> bool
    ensures { result ≡ has_species assortments.now species }
{
    assortments.iter().any(|a| a.species() == species)
}

/// Returns the first place whose species no assortment takes.
pub fn first_untaken(instruction: &Instruction, species: &[u8]) -> Option<usize>
    ensures { IsFirstOf (is_untaken instruction.now species.now) (length species.now) result }
{
    for place in 0..species.len() {
        if !has_species(instruction.assortments(), species[place]) {
            return Some(place);
        }
    }
    None
}

/// Whether some assortment has a name.
fn has_name(assortments: &[Assortment], name: &[u8]) -> bool
    ensures { result ≡ has_name assortments.now name.now }
{
    assortments.iter().any(|a| a.name() == name)
}

/// Returns the first assortment whose name an earlier one has too.
pub fn first_namesake(instruction: &Instruction) -> Option<usize>
    ensures { IsFirstOf (is_namesake instruction.now.assortments) (length instruction.now.assortments) result }
{
    let all = instruction.assortments();
    for place in 0..all.len() {
        if has_name(&all[..place], all[place].name()) {
            return Some(place);
        }
    }
    None
}

/// Returns whether there are stems, and so few that the first period ends with the last of them or never: no price
/// moves before all are cut.
pub fn is_unsteered(stems: usize, period: u32) -> bool
    ensures { result ≡ is_unsteered stems period }
{
    0 < stems && stems as u64 <= u64::from(period)
}

/// Returns whether a journal of so many bytes is too long to be read again.
pub fn is_too_long(bytes: u64) -> bool
    ensures { result ≡ is_too_long bytes }
{
    LONGEST < bytes
}
