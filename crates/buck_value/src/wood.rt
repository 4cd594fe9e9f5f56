//! Wood, and who takes it.
ghost use Rattle.std.specs.Prelude.{◌↔◌, IsTrue};
ghost use Rattle.buck_value.specs.Wood.{AllIn, TakesWood};

use buck_apt_instruction::Assortment;
use buck_stem_shape::Grades;

/// Whether each of some grades is one of these.
fn are_in(grades: Grades, list: &[u8]) -> bool
    ensures { IsTrue result ↔ AllIn grades list.now }
{
    for grade in 1..9u8 {
        if grades.contains(grade) && !list.contains(&grade) {
            return false;
        }
    }
    true
}

/// Whether an assortment takes wood of a species and of some grades: the species is its own, and the grades are among
/// its grades.
pub fn takes(assortment: &Assortment, species: u8, grades: Grades) -> bool
    ensures { IsTrue result ↔ TakesWood assortment.now species grades }
{
    assortment.species() == species && are_in(grades, assortment.grades())
}
