//! What runs on along postings: a book and a walk hold one each.
ghost use Rattle.std.specs.Prelude.{ℕ, List, ◌≡◌, ◌+◌, ◌<◌, ◌≤◌, ◌^◌, ◌==◌, [], IfOk, OnOk, All, cond, length, slice_index, slice_set};
ghost use Rattle.buck_apt_instruction.specs.Instruction.{InstructionParts, classes};
ghost use Rattle.buck_rule.specs.Stored.{Answers};
ghost use Rattle.buck_value.specs.Allowed.{IsAllowed, class_of, end_of};
ghost use Rattle.buck_dp.specs.Cutting.{IsCutFrom};
ghost use Rattle.buck_book_postings.specs.declared.posting.Posting.{Posting};
ghost use Rattle.buck_book_postings.specs.Entry.{EntryParts, DemandParts};
ghost use Rattle.buck_book_postings.specs.Targets.{AreTargets};
ghost use Rattle.buck_book_postings.specs.Walk.{IsCountable};
ghost use Rattle.buck_book_postings.specs.inner.Places.{ArePlaces, class_place};
ghost use Rattle.buck_book_postings.specs.inner.Running.{AreGrownAt, AreGrownBy, Tells, GoesOn, IsAfter, IsCopy, IsSheetAfter};
ghost use Rattle.buck_book_postings.specs.declared.posting.TheConstants.{MOST_POSTINGS};

use crate::plan::Plan;
use crate::posting::Posting;
use crate::pricing::prices_by;
use buck_apt_instruction::Instruction;
use buck_record::Memory;
use buck_rule::{Rule, Standing};
use buck_stem_shape::Stem;
use buck_value::{Log, Sheet, class_of};
use std::alloc::{AllocError, Global};
use std::sync::Arc;

/// The sum of some postings, from the opening on.
#[derive(Drop)]
pub struct Running {
    /// Targets in force, in logs: assortment by assortment, row by row.
    pub targets: Arc<Vec<u32>>,
    /// Number of cuts since the last period end; it stays below the period.
    pub cuts: u32,
    /// Number of period ends: the version in force, from 0.
    pub version: u32,
    /// Number of logs cut of each class: assortment by assortment, row by row.
    pub by_class: Vec<u32>,
    /// Number of logs cut of each assortment.
    pub by_assortment: Vec<u32>,
}

/// How many cuts came since the last end, and the version in force, after one cut more.
fn cut_more(cuts: u32, version: u32, period: u32) -> (u32, u32)
    requires { (cuts < 1000) × (version ≤ MOST_POSTINGS) }
    ensures cuts { result.0 ≡ cond (cuts + 1 == period) 0 (cuts + 1) }
    ensures version { result.1 ≡ version + cond (cuts + 1 == period) 1 0 }
{
    if cuts + 1 == period {
        (0, version + 1)
    } else {
        (cuts + 1, version)
    }
}

/// Adds one to the count at a place.
fn add_one(counts: &mut Vec<u32>, place: usize)
    requires within { place < length counts.old.items }
    requires low { slice_index counts.old.items place + 1 < 2 ^ 32 }
    ensures { counts.new.items ≡ slice_set counts.old.items place (slice_index counts.old.items place + 1) }
{
    counts[place] += 1;
}

/// Counts logs by their classes' places.
fn add_places(counts: &mut Vec<u32>, places: &[usize])
    requires within { All (λ p. p < length counts.old.items) places.now }
    requires low { (k : ℕ) → slice_index counts.old.items k ≤ 80000000 }
    requires few { length places.now ≤ 80 }
    ensures { AreGrownAt (λ p. p) counts.old.items places.now counts.new.items }
{
    for place in places {
        add_one(counts, *place);
    }
}

/// Counts the logs of a stem's cutting, each allowed under the sheet, by class.
fn add_classes(counts: &mut Vec<u32>, sheet: &Sheet, stem: &Stem, logs: &[Log])
    requires allowed { All (IsAllowed sheet.now.instruction stem.now) logs.now }
    requires classes { length counts.old.items ≡ classes sheet.now.instruction }
    requires low { (k : ℕ) → slice_index counts.old.items k ≤ 80000000 }
    requires few { length logs.now ≤ 80 }
    ensures { AreGrownAt (class_place sheet.now.instruction stem.now) counts.old.items logs.now counts.new.items }
{
    for log in logs {
        let Some(class) = class_of(sheet, stem, log.start, log.assortment, log.length) else {
            unreachable!()
        };
        add_one(counts, sheet.instruction().index(class));
    }
}

/// Counts logs by assortment.
fn add_assortments(counts: &mut Vec<u32>, logs: &[Log])
    requires within { All (λ g. g.assortment < length counts.old.items) logs.now }
    requires low { (a : ℕ) → slice_index counts.old.items a ≤ 80000000 }
    requires few { length logs.now ≤ 80 }
    ensures { AreGrownBy counts.old.items logs.now counts.new.items }
{
    for log in logs {
        add_one(counts, log.assortment as usize);
    }
}

impl Running {
    /// The sum of no postings: the instruction's targets, and counts of 0. Refused as `Memory` alone.
    pub fn opening(alloc: Global, instruction: &Instruction) -> Result<Running, Memory>
        ensures { IfOk result (λ n. Tells instruction.now [] n) }
    {
        let mut targets = Vec::new(alloc);
        for assortment in instruction.assortments() {
            targets.extend_from_slice(assortment.targets())?;
        }
        let targets = Arc::new(alloc, targets)?;
        let by_class = vec![in alloc; 0; instruction.classes()]?;
        let by_assortment = vec![in alloc; 0; instruction.assortments().len()]?;
        Ok(Running {
            targets,
            cuts: 0,
            version: 0,
            by_class,
            by_assortment,
        })
    }

    /// A second one of the same value. Refused only if an allocation failed.
    pub fn clone(&self) -> Result<Running, AllocError>
        ensures { IfOk result (λ n. IsCopy self.now n) }
    {
        Ok(Running {
            targets: self.targets.clone()?,
            cuts: self.cuts,
            version: self.version,
            by_class: self.by_class.clone()?,
            by_assortment: self.by_assortment.clone()?,
        })
    }

    /// The sheet in force: its prices are the rule's answers to how the classes stand. Refused as `Memory` alone.
    #[tactic(auto, using(crate::proofs::Told::prices_can, crate::proofs::Standings::no_price_fault, crate::proofs::Standings::is_sheet))]
    pub fn sheet<F: Fn(&Standing) -> u64>(
        &self,
        alloc: Global,
        rule: &Rule<F>,
        instruction: &Arc<Instruction>,
    ) -> Result<Arc<Sheet>, Memory>
        requires answers { Answers F.Fn rule.now }
        requires told { (ps : List Posting) × Tells instruction.now.value ps self.now }
        ensures { IfOk result (λ s. (ps : List Posting) → Tells instruction.now.value ps self.now
            → IsSheetAfter F.Fn rule.now instruction.now.value ps s.value) }
    {
        let prices = prices_by(alloc, rule, instruction, self)?;
        let Ok(sheet) = Sheet::with_prices(instruction.clone()?, self.version, prices) else {
            unreachable!()
        };
        Ok(Arc::new(alloc, sheet)?)
    }

    /// Adds a cut: an admissible cutting of a stem. The sheet is any of the instruction.
    #[tactic(auto, using(crate::proofs::Cuts::each_allowed, crate::proofs::Cuts::few_logs, crate::proofs::Told::version_low, crate::proofs::Told::cuts_few, crate::proofs::Told::counts_fit))]
    pub fn after_cut(&mut self, sheet: &Sheet, stem: &Stem, logs: &[Log])
        requires before { GoesOn sheet.now.instruction self.old }
        requires cutting { IsCutFrom (IsAllowed sheet.now.instruction stem.now) (end_of sheet.now.instruction) 0
            logs.now }
        ensures { (e : EntryParts) → e.stem ≡ stem.now → e.logs ≡ logs.now
            → IsAfter sheet.now.instruction self.old (Posting.Cut e) self.new }
    {
        // No stem is longer, so its logs are few, and the counts stay small.
        prove!(stem.length() <= 40_000);
        let period = sheet.instruction().period();
        add_classes(&mut self.by_class, sheet, stem, logs);
        add_assortments(&mut self.by_assortment, logs);
        (self.cuts, self.version) = cut_more(self.cuts, self.version, period);
    }

    /// [`after_cut`](Running::after_cut), given the places of the logs' classes.
    #[tactic(auto, using(crate::proofs::Told::counts_fit))]
    fn after_placed(&mut self, sheet: &Sheet, stem: &Stem, logs: &[Log], places: &[usize])
        requires before { GoesOn sheet.now.instruction self.old }
        requires cutting { IsCutFrom (IsAllowed sheet.now.instruction stem.now) (end_of sheet.now.instruction) 0
            logs.now }
        requires places { ArePlaces sheet.now.instruction stem.now logs.now places.now }
        ensures { (e : EntryParts) → e.stem ≡ stem.now → e.logs ≡ logs.now
            → IsAfter sheet.now.instruction self.old (Posting.Cut e) self.new }
    {
        // No stem is longer, so its logs are few, and the counts stay small.
        prove!(stem.length() <= 40_000);
        let period = sheet.instruction().period();
        add_places(&mut self.by_class, places);
        add_assortments(&mut self.by_assortment, logs);
        (self.cuts, self.version) = cut_more(self.cuts, self.version, period);
    }

    /// Adds the cut of a plan, which has the places of its logs' classes.
    pub fn after_plan(&mut self, plan: &Plan)
        requires { GoesOn plan.now.sheet.instruction self.old }
        ensures { (e : EntryParts) → e.stem ≡ plan.now.stem → e.logs ≡ plan.now.logs
            → IsAfter plan.now.sheet.instruction self.old (Posting.Cut e) self.new }
    {
        let logs = plan.cutting().logs.as_slice();
        self.after_placed(plan.sheet(), plan.stem(), logs, plan.places());
    }

    /// Adds a demand of these targets.
    pub fn after_demand(&mut self, targets: Arc<Vec<u32>>)
        requires { self.old.version ≤ MOST_POSTINGS }
        ensures { (i : InstructionParts) (d : DemandParts) → d.targets ≡ targets.value.items → AreTargets i d.targets
            → IsAfter i self.old (Posting.Demand d) self.new }
    {
        self.targets = targets;
        self.cuts = 0;
        self.version += 1;
    }

    /// Adds a posting that can be counted. The sheet is any of the instruction. Refused as `Memory` alone.
    #[tactic(auto, using(crate::proofs::Told::version_low))]
    pub fn after(&mut self, sheet: &Sheet, posting: &Posting) -> Result<(), Memory>
        requires before { GoesOn sheet.now.instruction self.old }
        requires countable { IsCountable sheet.now.instruction posting.now }
        ensures { OnOk result (IsAfter sheet.now.instruction self.old posting.now self.new) }
    {
        match posting {
            Posting::Cut(entry) => {
                self.after_cut(sheet, &entry.stem, entry.cutting.logs.as_slice());
                Ok(())
            }
            Posting::Demand(demand) => {
                self.after_demand(demand.targets.clone()?);
                Ok(())
            }
        }
    }
}
