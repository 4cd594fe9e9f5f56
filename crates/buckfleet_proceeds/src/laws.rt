//! Laws of appraisals.
ghost use Rattle.std.specs.Prelude.{List, ◌≤◌};
ghost use Rattle.buck_apt_instruction.specs.Instruction.{InstructionParts};
ghost use Rattle.buck_stem_shape.specs.Stem.{StemParts};
ghost use Rattle.buck_value.specs.declared.log.Log.{Log};
ghost use Rattle.buck_dp.specs.Best.{IsAdmissible, IsBest, cutting_worth};
ghost use Rattle.buck_page_figures.specs.Figures.{base_sheet};
ghost use Rattle.buckfleet_terms_files.specs.Own.{HasShapeOf};
ghost use Rattle.buckfleet_proceeds.specs.Paid.{AreBought};

/// The logs of a cutting that an owner's instruction buys are a cutting under it, if it may stand beside the other
/// instruction: the logs that are left out leave room, and the others keep theirs.
#[tactic(auto, using(crate::proofs::Bought::can_be_cut))]
pub fn what_is_bought_can_be_cut()
    ensures { (i own : InstructionParts) (stem : StemParts) (logs bought : List Log) → HasShapeOf i own
        → IsAdmissible (base_sheet i) stem logs → AreBought own stem logs bought
        → IsAdmissible (base_sheet own) stem bought }
{}

/// So a cutting never brings more than the best one under the owner's instruction: no loss is below 0.
#[tactic(auto, using(crate::proofs::Bought::none_lost))]
pub fn nothing_is_lost_below_zero()
    ensures { (i own : InstructionParts) (stem : StemParts) (logs bought best : List Log) → HasShapeOf i own
        → IsAdmissible (base_sheet i) stem logs → AreBought own stem logs bought
        → IsBest (base_sheet own) stem best
        → cutting_worth (base_sheet own) stem bought ≤ cutting_worth (base_sheet own) stem best }
{}
