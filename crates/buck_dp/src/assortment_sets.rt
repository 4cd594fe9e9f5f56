//! Sets of assortments: who takes some wood.
ghost use Rattle.std.specs.Prelude.{ℕ, ◌<◌, ◌↔◌, IsTrue, IfOk};
ghost use Rattle.buck_dp.specs.inner.Logs.{IsTaker, AreTakersOf, AreWoodEntries};

use buck_apt_instruction::Instruction;
use buck_stem_shape::Grades;
use buck_value::{Sheet, takes};
use std::alloc::AllocError;

/// A set of assortments, such as those that take some wood: bit a for the one at place a.
#[derive(Clone, Copy, Debug, PartialEq, Eq)]
pub struct AssortmentSet {
    marks: u16,
}

impl AssortmentSet {
    /// Every assortment.
    pub fn every() -> AssortmentSet {
        AssortmentSet { marks: u16::MAX }
    }

    /// Whether the set is empty.
    pub fn is_empty(self) -> bool
        ensures { IsTrue result → (a : ℕ) → IsTaker self a → ⊥ }
    {
        self.marks == 0
    }

    /// Whether the assortment at a place is among them.
    pub fn contains(self, place: usize) -> bool
        requires { place < 16 }
        ensures { IsTrue result ↔ IsTaker self place }
    {
        self.marks >> place & 1 == 1
    }
}

/// The assortments that take wood of a species and of some grades.
#[tactic(auto, using(std::proofs::lemmas::Option::slice_get_within))]
pub fn takers_of(instruction: &Instruction, species: u8, grades: Grades) -> AssortmentSet
    ensures { AreTakersOf instruction.now species grades result }
{
    let all = instruction.assortments();
    let mut marks = 0;
    for place in 0..all.len() {
        if takes(&all[place], species, grades) {
            marks |= 1 << place;
        }
    }
    AssortmentSet { marks }
}

/// A set of takers with its number.
#[derive(Clone, Copy, Debug)]
pub struct NumberedSet {
    pub takers: AssortmentSet,
    /// Index of the first kind of wood that has this set, from 0.
    pub number: u16,
}

/// The species and the grades of some wood, and who takes it.
#[derive(Clone, Copy, Debug)]
pub struct WoodEntry {
    /// The species, from 1 to 255.
    pub species: u8,
    pub grades: Grades,
    pub set: NumberedSet,
}

/// The number of a set of takers among the kinds that were met: the next if none has it.
fn number_of(kinds: &[WoodEntry], takers: AssortmentSet) -> u16 {
    for entry in kinds {
        if entry.set.takers == takers {
            return entry.set.number;
        }
    }
    // There are at most 65,280 kinds, 255 species with 256 sets of grades each.
    u16::try_from(kinds.len()).unwrap_or(u16::MAX)
}

/// The assortments that take wood of a species and of some grades, which are known from then on. Refused only if an
/// allocation failed.
pub fn set_of(
    kinds: &mut Vec<WoodEntry>,
    sheet: &Sheet,
    species: u8,
    grades: Grades,
) -> Result<NumberedSet, AllocError>
    requires kinds { AreWoodEntries sheet.now.instruction kinds.old.items }
    ensures kinds { AreWoodEntries sheet.now.instruction kinds.new.items }
    ensures right { IfOk result (λ g. AreTakersOf sheet.now.instruction species grades g.takers) }
{
    for place in 0..kinds.len() {
        let entry = kinds[place];
        if entry.species == species && entry.grades == grades {
            return Ok(entry.set);
        }
    }
    let takers = takers_of(sheet.instruction(), species, grades);
    let number = number_of(kinds.as_slice(), takers);
    let set = NumberedSet { takers, number };
    kinds.push(WoodEntry {
        species,
        grades,
        set,
    })?;
    Ok(set)
}
