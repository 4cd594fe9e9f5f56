//! What follows from the definitions, for all sheets, stems and logs: each law is the contract of an empty function.
ghost use Rattle.std.specs.Prelude.{ℕ, ◌*◌, ◌≤◌, ◌↔◌, All, slice_index};
ghost use Rattle.buck_apt_instruction.specs.Instruction.{InstructionParts, AssortmentParts, IsInstruction, IsAssortment, IsClass};
ghost use Rattle.buck_stem_shape.specs.Stem.{StemParts};
ghost use Rattle.buck_value.specs.declared.log.Log.{Log};
ghost use Rattle.buck_value.specs.Sheet.{SheetParts, IsSheet};
ghost use Rattle.buck_value.specs.Untrimmed.{HasNoTrim, IsAllowedUntrimmed};
ghost use Rattle.buck_value.specs.Allowed.{IsAllowed, IsRow, top_diameter, row_at, class_of, worth_of};
ghost use Rattle.buck_value.specs.declared.sheet.TheConstants.{HIGHEST_PRICE};

/// No price of a sheet is above 20,000,000.
#[tactic(auto, using(crate::proofs::Prices::prices_low))]
pub fn prices_are_bounded()
    ensures { (s : SheetParts) → IsSheet s → All (λ p. p ≤ HIGHEST_PRICE) s.prices }
{}

/// An allowed log is 500 to 30,000 mm long, and its top diameter is at most 2,000 mm.
#[tactic(auto, using(crate::proofs::Classes::allowed_low))]
pub fn allowed_logs_are_bounded()
    ensures { (i : InstructionParts) (stem : StemParts) (g : Log)
        → IsInstruction i → IsAllowed i stem g
        → (500 ≤ g.length) × (g.length ≤ 30000) × (top_diameter stem g ≤ 2000) }
{}

/// An allowed log is worth at most 70,000,000,000 millionths of the price unit for each mm of its length.
#[tactic(auto, using(crate::proofs::Rates::worth_low))]
pub fn worth_is_bounded()
    ensures { (s : SheetParts) (stem : StemParts) (g : Log)
        → IsSheet s → IsAllowed s.instruction stem g
        → worth_of s stem g ≤ 70000000000 * g.length }
{}

/// The class of an allowed log is one of the instruction's.
#[tactic(auto, using(crate::proofs::Classes::class_is_class))]
pub fn class_of_allowed_log_exists()
    ensures { (i : InstructionParts) (stem : StemParts) (g : Log)
        → IsInstruction i → IsAllowed i stem g
        → IsClass i (class_of i stem g) }
{}

/// The row of a top diameter at or above the first lower limit is the last whose lower limit is at most it.
#[tactic(auto, using(crate::proofs::Rows::row_is_last))]
pub fn row_is_the_last()
    ensures { (a : AssortmentParts) (d : ℕ)
        → IsAssortment a → slice_index a.diameters 0 ≤ d → IsRow a d (row_at a d) }
{}

/// If no assortment has a trim, the logs that are allowed are those that would be without any trim.
#[tactic(auto, using(crate::proofs::Untrimmed::without_trim, crate::proofs::Untrimmed::with_trim))]
pub fn no_trim_allows_the_same()
    ensures { (i : InstructionParts) (stem : StemParts) (g : Log)
        → HasNoTrim i → (IsAllowed i stem g ↔ IsAllowedUntrimmed i stem g) }
{}
