//! What follows from the definitions, for all sheets, stems and lists of logs: each law is the contract of an empty
//! function.
ghost use Rattle.std.specs.Prelude.{◌≡◌, ℕ, ◌≤◌, ◌↔◌, List, All, length};
ghost use Rattle.buck_stem_shape.specs.Stem.{StemParts, IsStem};
ghost use Rattle.buck_value.specs.declared.log.Log.{Log};
ghost use Rattle.buck_value.specs.Sheet.{SheetParts, IsSheet};
ghost use Rattle.buck_value.specs.Allowed.{IsAllowed};
ghost use Rattle.buck_value.specs.Untrimmed.{HasNoTrim};
ghost use Rattle.buck_dp.specs.Untrimmed.{IsAdmissibleUntrimmed};
ghost use Rattle.buck_dp.specs.Best.{IsAdmissible, IsFirstBest, cutting_worth};

/// Each log of an admissible cutting is allowed.
#[tactic(auto, using(crate::proofs::Lists::each_allowed))]
pub fn logs_of_a_cutting_are_allowed()
    ensures { (sheet : SheetParts) (stem : StemParts) (logs : List Log) → IsAdmissible sheet stem logs
        → All (λ g. IsAllowed sheet.instruction stem g) logs }
{}

/// An admissible cutting has at most 80 logs.
#[tactic(auto, using(crate::proofs::Lists::cut_bounded))]
pub fn cuttings_are_short()
    ensures { (sheet : SheetParts) (stem : StemParts) (logs : List Log) → IsSheet sheet → IsStem stem
        → IsAdmissible sheet stem logs → length logs ≤ 80 }
{}

/// An admissible cutting is worth at most 2,800,000,000,000,000 millionths of the price unit.
#[tactic(auto, using(crate::proofs::Lists::cut_bounded))]
pub fn worth_is_bounded()
    ensures { (sheet : SheetParts) (stem : StemParts) (logs : List Log) → IsSheet sheet → IsStem stem
        → IsAdmissible sheet stem logs → cutting_worth sheet stem logs ≤ 2800000000000000 }
{}

/// One cutting alone is the first of the best.
#[tactic(auto, using(crate::proofs::Lists::only_one))]
pub fn first_of_the_best_is_one()
    ensures { (sheet : SheetParts) (stem : StemParts) (these those : List Log) → IsFirstBest sheet stem these
        → IsFirstBest sheet stem those → these ≡ those }
{}

/// If no assortment has a trim, the cuttings that are admissible are those that would be without any trim.
#[tactic(auto, using(crate::proofs::Lists::cut_same))]
pub fn no_trim_admits_the_same()
    ensures { (sheet : SheetParts) (stem : StemParts) (logs : List Log) → HasNoTrim sheet.instruction
        → (IsAdmissible sheet stem logs ↔ IsAdmissibleUntrimmed sheet stem logs) }
{}
