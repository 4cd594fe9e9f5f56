//! The book of one thread, kept between calls, with a rule that has a name.
ghost use Rattle.std.specs.Prelude.{◌≡◌, ◌<◌, ◌≤◌, IfOk, IfErr, length};
ghost use Rattle.buck_book_journal.specs.Written.{journal_text};
ghost use Rattle.buck_book_cutter.specs.Cut.{HasCut, HasRetargeted};
ghost use Rattle.buck_c_session.specs.Kept.{ArePricesBy, IsDemandRefused, SameTerms, opened};
ghost use Rattle.buck_c_session.specs.Looked.{IsPlannedNow};
ghost use Rattle.buck_book_postings.specs.declared.posting.TheConstants.{MOST_POSTINGS};
ghost use Rattle.buck_book_postings.specs.declared.ready.CutFault.TheVariants.{Full};

use buck_apt_instruction::Instruction;
use buck_book_cutter::Cutter;
use buck_book_postings::{Book, CutFault, Demand, DemandRefusal, Entry, Plan};
use buck_record::Memory;
use buck_rule::{NamedRule, Rule, Standing};
use buck_stem_shape::Stem;
use std::alloc::Global;
use std::marker::Model;
use std::sync::Arc;

/// A book that rests between its calls, without its rule, and the name of that.
#[derive(Drop)]
pub struct KeptBook {
    rule: NamedRule,
    // Without its rule, because the type of a closure can't be named here. Of a function pointer no struct could state
    // what it answers.
    cutter: Option<Cutter<()>>,
}

impl Model for KeptBook {
    ghost use Rattle.std.specs.Prelude.{IsSome};
    ghost use Rattle.buck_c_session.specs.Kept.{KeptParts};
    ghost use Rattle.buck_c_session.specs.inner.Resting.{kept_of};

    ghost Value = { KeptParts };

    ghost view = { λ k. kept_of k.rule k.cutter };

    ghost invariant = { λ k. IsSome k.cutter };
}

impl KeptBook {
    /// A book with no posting, which may have from 1 to 1,000,000. Refused as `Memory` alone.
    pub fn open(
        alloc: Global,
        instruction: Arc<Instruction>,
        rule: NamedRule,
        capacity: u32,
    ) -> Result<KeptBook, Memory>
        requires { (0 < capacity) × (capacity ≤ MOST_POSTINGS) }
        ensures { IfOk result (λ k. k ≡ opened rule instruction.value capacity) }
    {
        let by = Rule::new(move |s: &Standing| rule.price(s));
        let cutter = Cutter::open(alloc, instruction, by, capacity)?;
        Ok(KeptBook {
            rule,
            cutter: Some(cutter.with_rule(Rule::none())),
        })
    }

    /// The book as it stands.
    pub fn book(&self) -> &Book<()>
        ensures history { result.now.history ≡ self.now.history }
        ensures capacity { result.now.capacity ≡ self.now.capacity }
    {
        match &self.cutter {
            Some(cutter) => cutter.book(),
            None => unreachable!(),
        }
    }

    /// The text of its journal. Refused as `Memory` alone.
    pub fn journal(&self, alloc: Global) -> Result<Vec<u8>, Memory>
        ensures { IfOk result (λ text.
            text.items ≡ journal_text self.now.history.sheets self.now.history.postings) }
    {
        match &self.cutter {
            Some(cutter) => cutter.journal(alloc),
            None => unreachable!(),
        }
    }

    /// How a stem would be cut now: its plan under the sheet in force. The book stays as it was. Refused as `Memory`
    /// alone.
    pub fn preview(&mut self, alloc: Global, stem: Arc<Stem>) -> Result<Plan, Memory>
        ensures same { self.new ≡ self.old }
        ensures planned { IfOk result (IsPlannedNow self.old.history stem.value) }
    {
        let Some(mut cutter) = self.cutter.take() else {
            unreachable!()
        };
        let plan = cutter.preview(alloc, stem);
        self.cutter = Some(cutter);
        plan
    }

    /// Cuts a stem for a harvester from 1 to 64 under the sheet in force, commits the cutting, and answers its entry.
    /// Refused as `Full` at the capacity, and as `Memory` if an allocation failed; the history is then as before.
    pub fn cut(&mut self, alloc: Global, harvester: u32, stem: Arc<Stem>) -> Result<Entry, CutFault>
        requires harvester { (0 < harvester) × (harvester ≤ 64) }
        ensures terms { SameTerms self.old self.new }
        ensures cut { IfOk result
            (HasCut (ArePricesBy self.old.rule) harvester stem.value self.old.history self.new.history) }
        ensures left { IfErr result (λ _. self.new ≡ self.old) }
        ensures full { IfErr result (λ e. e ≡ Full → length self.old.history.postings ≡ self.old.capacity) }
    {
        let Some(cutter) = self.cutter.take() else {
            unreachable!()
        };
        let rule = self.rule;
        let mut ruled = cutter.with_rule(Rule::new(move |s: &Standing| rule.price(s)));
        let entry = ruled.cut(alloc, stem, harvester);
        self.cutter = Some(ruled.with_rule(Rule::none()));
        entry
    }

    /// Puts targets in force for a harvester from 1 to 64: one for each class, assortment by assortment and row by row.
    /// It answers the demand. Refused as `Full` at the capacity, as `Targets` if they aren't valid, and as `Memory` if
    /// an allocation failed; the history is then as before.
    pub fn retarget(
        &mut self,
        alloc: Global,
        harvester: u32,
        targets: &Arc<Vec<u32>>,
    ) -> Result<Demand, DemandRefusal>
        requires harvester { (0 < harvester) × (harvester ≤ 64) }
        ensures terms { SameTerms self.old self.new }
        ensures retargeted { IfOk result
            (HasRetargeted (ArePricesBy self.old.rule) harvester targets.now.value.items
            self.old.history self.new.history) }
        ensures left { IfErr result (λ _. self.new ≡ self.old) }
        ensures refused { IfErr result (IsDemandRefused self.old.history self.old.capacity targets.now.value.items) }
    {
        let Some(cutter) = self.cutter.take() else {
            unreachable!()
        };
        let rule = self.rule;
        let mut ruled = cutter.with_rule(Rule::new(move |s: &Standing| rule.price(s)));
        let demand = ruled.retarget(alloc, targets, harvester);
        self.cutter = Some(ruled.with_rule(Rule::none()));
        demand
    }
}
