//! Plans.
ghost use Rattle.std.specs.Prelude.{◌≡◌, All, IfOk};
ghost use Rattle.buck_value.specs.Allowed.{IsAllowed};
ghost use Rattle.buck_book_postings.specs.Plan.{IsPlan};
ghost use Rattle.buck_book_postings.specs.inner.Places.{ArePlaces};

use buck_dp::{Cutting, Planner};
use buck_record::Memory;
use buck_stem_shape::Stem;
use buck_value::{Log, Sheet, class_of};
use std::alloc::{AllocError, Global};
use std::marker::Model;
use std::sync::Arc;

/// A plan for a stem: the first of the best cuttings under a sheet, and its worth.
#[derive(Drop)]
pub struct Plan {
    pub(crate) stem: Arc<Stem>,
    sheet: Arc<Sheet>,
    pub(crate) cutting: Arc<Cutting>,
    pub(crate) worth: u64,
    /// The places of its logs' classes: they are looked up with the plan, so that a commit has but to count.
    places: Vec<usize>,
}

impl Model for Plan {
    ghost use Rattle.buck_book_postings.specs.Plan.{PlanParts, IsPlan, plan_of};
    ghost use Rattle.buck_book_postings.specs.inner.Places.{ArePlaces};

    ghost Value = { PlanParts };

    ghost view = { λ p. plan_of p.stem.value p.sheet.value p.cutting.value.logs.items p.worth };

    ghost invariant = { λ p. IsPlan (plan_of p.stem.value p.sheet.value p.cutting.value.logs.items p.worth)
        × ArePlaces p.sheet.value.instruction p.stem.value p.cutting.value.logs.items p.places.items };
}

/// The places of the classes of logs, each allowed under the sheet.
fn places_of(
    alloc: Global,
    sheet: &Sheet,
    stem: &Stem,
    logs: &[Log],
) -> Result<Vec<usize>, AllocError>
    requires { All (IsAllowed sheet.now.instruction stem.now) logs.now }
    ensures { IfOk result (λ places. ArePlaces sheet.now.instruction stem.now logs.now places.items) }
{
    let mut places = Vec::with_capacity(alloc, logs.len())?;
    for log in logs {
        let Some(class) = class_of(sheet, stem, log.start, log.assortment, log.length) else {
            unreachable!()
        };
        places.push_reserved(sheet.instruction().index(class));
    }
    Ok(places)
}

impl Plan {
    /// Plans a stem under a sheet. It asks nobody else and waits for nobody. Refused as `Memory` alone.
    pub fn make(alloc: Global, sheet: Arc<Sheet>, stem: Arc<Stem>) -> Result<Plan, Memory>
        ensures sheet { IfOk result (λ p. p.sheet ≡ sheet.value) }
        ensures stem { IfOk result (λ p. p.stem ≡ stem.value) }
        ensures best { IfOk result IsPlan }
    {
        let mut planner = Planner::make(alloc, sheet)?;
        Plan::make_with(alloc, &mut planner, stem)
    }

    /// Plans a stem under the sheet of a planner, which may have planned other stems before: that is faster. Refused as
    /// `Memory` alone.
    #[tactic(auto, using(crate::proofs::Cuts::each_allowed))]
    pub fn make_with(alloc: Global, planner: &mut Planner, stem: Arc<Stem>) -> Result<Plan, Memory>
        ensures same { planner.new ≡ planner.old }
        ensures sheet { IfOk result (λ p. p.sheet ≡ planner.old) }
        ensures stem { IfOk result (λ p. p.stem ≡ stem.value) }
        ensures best { IfOk result IsPlan }
    {
        let (cutting, worth) = planner.best(alloc, &stem)?;
        let sheet = planner.sheet().clone()?;
        // Here, without the fleet's lock: found under it, they would take a third of the time that it is held.
        let places = places_of(alloc, &sheet, &stem, cutting.logs.as_slice())?;
        let cutting = Arc::new(alloc, cutting)?;
        // No stem is longer: this one is within the limits.
        prove!(stem.length() <= 40_000);
        Ok(Plan {
            stem,
            sheet,
            cutting,
            worth,
            places,
        })
    }

    /// The stem to be cut.
    pub fn stem(&self) -> &Arc<Stem>
        ensures { result.now.value ≡ self.now.stem }
    {
        &self.stem
    }

    /// The sheet that it was planned under.
    pub fn sheet(&self) -> &Arc<Sheet>
        ensures { result.now.value ≡ self.now.sheet }
    {
        &self.sheet
    }

    /// The logs to be cut: the first of the best cuttings.
    pub fn cutting(&self) -> &Arc<Cutting>
        ensures logs { result.now.value.logs.items ≡ self.now.logs }
        ensures best { IsPlan self.now }
    {
        &self.cutting
    }

    /// Worth of the logs under the sheet, in millionths of the price unit.
    pub fn worth(&self) -> u64
        ensures worth { result ≡ self.now.worth }
        ensures best { IsPlan self.now }
    {
        self.worth
    }

    /// The places of its logs' classes: assortment by assortment and row by row.
    pub(crate) fn places(&self) -> &[usize]
        ensures { ArePlaces self.now.sheet.instruction self.now.stem self.now.logs result.now }
    {
        self.places.as_slice()
    }
}
