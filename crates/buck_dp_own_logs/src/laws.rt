//! What follows from the definitions, for all sheets, stems and lists of logs: each law is the contract of an empty
//! function.
ghost use Rattle.std.specs.Prelude.{◌≡◌, ℕ, ◌≤◌, ◌↔◌, List};
ghost use Rattle.buck_apt_instruction.specs.Instruction.{InstructionParts};
ghost use Rattle.buck_stem_shape.specs.Stem.{StemParts};
ghost use Rattle.buck_value.specs.declared.log.Log.{Log};
ghost use Rattle.buck_value.specs.Sheet.{SheetParts};
ghost use Rattle.buck_value.specs.Allowed.{IsAllowed};
ghost use Rattle.buck_dp.specs.Best.{IsAdmissible};
ghost use Rattle.buck_dp_own_logs.specs.declared.reason.Reason.{Reason};
ghost use Rattle.buck_dp_own_logs.specs.declared.judging.Judged.{Judged};
ghost use Rattle.buck_dp_own_logs.specs.Reasons.{Applies};
ghost use Rattle.buck_dp_own_logs.specs.Judged.{AppliesAt, IsJudged};

/// A log is allowed and starts at or after a place exactly if no reason applies to it on a stem that was cut up to
/// there.
pub fn logs_without_a_reason_are_allowed()
    ensures { (i : InstructionParts) (stem : StemParts) (from : ℕ) (g : Log)
        → ((from ≤ g.start) × IsAllowed i stem g) ↔ ((r : Reason) → Applies i stem from g r → ⊥) }
{}

/// A cutting is admissible exactly if no reason applies to any of its logs.
#[tactic(auto, using(crate::proofs::Listed::admissible_exactly))]
pub fn cuttings_without_a_reason_are_admissible()
    ensures { (sheet : SheetParts) (stem : StemParts) (logs : List Log)
        → IsAdmissible sheet stem logs ↔ ((k : ℕ) (r : Reason) → AppliesAt sheet.instruction stem logs k r → ⊥) }
{}

/// One judgement alone is that of a cutting.
#[tactic(auto, using(crate::proofs::Alone::one_judged))]
pub fn judgement_is_one()
    ensures { (sheet : SheetParts) (stem : StemParts) (logs : List Log) (this that : Judged)
        → IsJudged sheet stem logs this → IsJudged sheet stem logs that → this ≡ that }
{}
