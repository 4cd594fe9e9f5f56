//! What cuts and demands come to, added up.
ghost use Rattle.std.specs.Prelude.{◌≡◌, ◌+◌, ◌*◌, ◌≤◌, [], ◌∷◌, All, IfOk, OnOk};
ghost use Rattle.buck_apt_instruction.specs.Instruction.{InstructionParts};
ghost use Rattle.buck_stem_shape.specs.Stem.{IsStem};
ghost use Rattle.buck_value.specs.Allowed.{IsAllowed};
ghost use Rattle.buck_dp.specs.Best.{IsAdmissible, cutting_worth};
ghost use Rattle.buck_book_postings.specs.Entry.{EntryParts, DemandParts};
ghost use Rattle.buck_book_postings.specs.declared.posting.Posting.TheVariants.{Cut, Demand};
ghost use Rattle.buck_page_figures.specs.inner.Counted.{AreOfPosting};
ghost use Rattle.buck_page_figures.specs.Figures.{base_sheet};
ghost use Rattle.buck_page_figures.specs.Sums.{AreSums};
ghost use Rattle.buck_page_figures.specs.inner.Adding.{AreSumsTogether, IsCuttable, IsLow, IsPassed, IsWoodOf, logs_in_some, logs_of};
ghost use Rattle.buck_book_postings.specs.declared.posting.TheConstants.{MOST_POSTINGS};

use crate::sums::Sums;
use buck_book_postings::{Entry, Posting};
use buck_dp::{Cutting, Planner};
use buck_record::Memory;
use buck_stem_shape::Stem;
use buck_value::{Log, Sheet, valuation_of_allowed, volume_of};
use std::alloc::Global;

impl Sums {
    /// What nothing comes to.
    pub(crate) fn none() -> Sums
        ensures { (i : InstructionParts) → AreSums i [] [] result }
    {
        Sums {
            stems: 0,
            demands: 0,
            logs: 0,
            volume: 0,
            length: 0,
            logged: 0,
            trim: 0,
            worth: 0,
            at_base: 0,
            best: 0,
        }
    }

    /// What both come to together.
    pub(crate) fn plus(&self, other: &Sums) -> Sums
        requires stems { self.now.stems + other.now.stems ≤ MOST_POSTINGS }
        requires demands { self.now.demands + other.now.demands ≤ MOST_POSTINGS }
        ensures { AreSumsTogether self.now other.now result }
    {
        Sums {
            stems: self.stems + other.stems,
            demands: self.demands + other.demands,
            logs: self.logs + other.logs,
            volume: self.volume + other.volume,
            length: self.length + other.length,
            logged: self.logged + other.logged,
            trim: self.trim + other.trim,
            worth: self.worth + other.worth,
            at_base: self.at_base + other.at_base,
            best: self.best + other.best,
        }
    }
}

/// What the logs of a cutting come to.
#[derive(Clone, Copy)]
pub(crate) struct Wood {
    /// In cm³.
    pub volume: u128,
    /// In mm.
    pub logged: u128,
    /// Of what is cut with them, in mm.
    pub trim: u128,
    /// In millionths of the price unit, at base prices.
    pub at_base: u128,
}

/// What an allowed log comes to, at base prices.
pub(crate) fn wood_in(base: &Sheet, stem: &Stem, log: &Log) -> Wood
    requires { IsAllowed base.now.instruction stem.now log.now }
    ensures wood { IsWoodOf base.now stem.now (log.now ∷ []) result }
    ensures thin { result.volume ≤ 3142 * result.logged }
    ensures low { IsLow result }
{
    let found = valuation_of_allowed(base, stem, log);
    let assortments = base.instruction().assortments();
    let trim = assortments[log.assortment as usize].trim();
    Wood {
        volume: u128::from(volume_of(found.top, log.length)),
        logged: u128::from(log.length),
        trim: u128::from(trim),
        at_base: u128::from(found.worth),
    }
}

/// What allowed logs come to, at base prices.
fn wood_of(base: &Sheet, stem: &Stem, logs: &[Log]) -> Wood
    requires { All (λ g. IsAllowed base.now.instruction stem.now g) logs.now }
    ensures wood { IsWoodOf base.now stem.now logs.now result }
    ensures thin { result.volume ≤ 3142 * result.logged }
{
    let mut wood = Wood {
        volume: 0,
        logged: 0,
        trim: 0,
        at_base: 0,
    };
    for log in logs {
        let one = wood_in(base, stem, log);
        wood = Wood {
            volume: wood.volume + one.volume,
            logged: wood.logged + one.logged,
            trim: wood.trim + one.trim,
            at_base: wood.at_base + one.at_base,
        };
    }
    wood
}

/// Gives the sums of a cut, from the worth of the best cutting of its stem at base prices.
pub fn sums_of_cut(base: &Sheet, entry: &Entry, best: u64) -> Sums
    requires admissible { IsAdmissible base.now entry.now.stem entry.now.logs }
    requires best { cutting_worth base.now entry.now.stem entry.now.logs ≤ best }
    ensures sums { (u : EntryParts) → base.now ≡ base_sheet base.now.instruction → u.worth ≡ best
        → AreSums base.now.instruction (Cut entry.now ∷ []) (Cut u ∷ []) result }
    ensures stem { IsStem entry.now.stem }
{
    let logs = entry.cutting.logs.as_slice();
    let wood = wood_of(base, &entry.stem, logs);
    Sums {
        stems: 1,
        demands: 0,
        logs: logs.len() as u128,
        volume: wood.volume,
        length: u128::from(entry.stem.length()),
        logged: wood.logged,
        trim: wood.trim,
        worth: u128::from(entry.worth),
        at_base: wood.at_base,
        best: u128::from(best),
    }
}

/// Gives the sums of a demand.
pub fn sums_of_demand() -> Sums
    ensures { (i : InstructionParts) (d : DemandParts) → AreSums i (Demand d ∷ []) (Demand d ∷ []) result }
{
    Sums {
        stems: 0,
        demands: 1,
        logs: 0,
        volume: 0,
        length: 0,
        logged: 0,
        trim: 0,
        worth: 0,
        at_base: 0,
        best: 0,
    }
}

/// Gives the sums of a posting, with the best cutting of its stem at base prices, if it is a cut. Refused as `Memory`
/// alone.
pub fn sums_of(
    alloc: Global,
    planner: &mut Planner,
    posting: &Posting,
) -> Result<(Sums, Option<Cutting>), Memory>
    requires base { planner.old ≡ base_sheet planner.old.instruction }
    requires cuttable { IsCuttable planner.old.instruction posting.now }
    ensures same { planner.new ≡ planner.old }
    ensures passed { IfOk result (λ r. IsPassed planner.old.instruction posting.now r.0 (logs_in_some r.1)) }
    ensures own { OnOk result (AreOfPosting planner.old.instruction posting.now (logs_of posting.now)) }
    ensures unsteered { IfOk result (λ r. AreOfPosting planner.old.instruction posting.now (logs_in_some r.1)) }
{
    let Posting::Cut(entry) = posting else {
        return Ok((sums_of_demand(), None));
    };
    let (unsteered, best) = planner.best(alloc, &entry.stem)?;
    Ok((sums_of_cut(planner.sheet(), entry, best), Some(unsteered)))
}
