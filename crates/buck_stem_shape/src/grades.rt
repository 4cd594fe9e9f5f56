//! Sets of grades.
ghost use Rattle.std.specs.Prelude.{◌≡◌, ℕ, ◌-◌, ◌≤◌, ◌⊎◌, ◌↔◌, IsTrue};
ghost use Rattle.std.specs.Int.{bit_at};
ghost use Rattle.buck_stem_shape.specs.Stem.{IsGrade};
ghost use Rattle.buck_stem_shape.specs.inner.Zones.{ShowsGrade};

use std::marker::Model;

/// A set of grades from 1 to 8. Contracts see its mask: bit g - 1 for grade g.
#[derive(Clone, Copy, Debug, PartialEq, Eq)]
pub struct Grades {
    bits: u8,
}

impl Model for Grades {
    ghost use Rattle.std.specs.Prelude.{ℕ};

    ghost Value = { ℕ };

    ghost view = { λ s. s.bits };

    ghost inverse = { λ n. record { bits = n } };
}

impl Grades {
    /// No grade.
    #[inline(always)]
    pub fn none() -> Grades
        ensures { result ≡ 0 }
    {
        Grades { bits: 0 }
    }

    /// The grades of a mask: bit g - 1 for grade g.
    #[inline(always)]
    pub fn of(mask: u8) -> Grades
        ensures { result ≡ mask }
    {
        Grades { bits: mask }
    }

    /// The mask: bit g - 1 for grade g.
    #[inline(always)]
    pub fn mask(self) -> u8
        ensures { result ≡ self }
    {
        self.bits
    }

    /// Whether a grade is among them.
    #[inline(always)]
    pub fn contains(self, grade: u8) -> bool
        requires { (1 ≤ grade) × (grade ≤ 8) }
        ensures { IsTrue result ↔ (bit_at self (grade - 1) ≡ 1) }
    {
        self.bits >> (grade - 1) & 1 == 1
    }

    /// These and one more.
    #[inline(always)]
    pub(crate) fn with(self, grade: u8) -> Grades
        requires { IsGrade grade }
        ensures { (g : ℕ) → 1 ≤ g → ShowsGrade result g ↔ ((g ≡ grade) ⊎ ShowsGrade self g) }
    {
        Grades {
            bits: self.bits | (1 << (grade - 1)),
        }
    }
}
