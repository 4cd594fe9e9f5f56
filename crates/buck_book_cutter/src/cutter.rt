//! The book of one thread with its planner.
ghost use Rattle.std.specs.Prelude.{◌≡◌, ◌<◌, ◌≤◌, IfOk, IfErr};
ghost use Rattle.buck_rule.specs.Stored.{Answers};
ghost use Rattle.buck_book_postings.specs.Book.{entry_of};
ghost use Rattle.buck_book_postings.specs.History.{in_force};
ghost use Rattle.buck_book_postings.specs.Plan.{IsPlan};
ghost use Rattle.buck_book_postings.specs.Pricing.{AreAnswers};
ghost use Rattle.buck_book_postings.specs.Refused.{IsBelow, IsFull, IsDemandRefusal, IsRefusalInForce};
ghost use Rattle.buck_book_postings.specs.declared.posting.TheConstants.{MOST_POSTINGS};
ghost use Rattle.buck_book_postings.specs.declared.ready.CutFault.TheVariants.{Full};
ghost use Rattle.buck_book_journal.specs.Written.{journal_text};
ghost use Rattle.buck_book_cutter.specs.Cut.{HasCut, HasRetargeted, StaysByRule, opening};
ghost use Rattle.buck_book_cutter.specs.inner.Planned.{IsSheetOf};

use buck_apt_instruction::Instruction;
use buck_book_postings::{Book, CutFault, Demand, DemandRefusal, Entry, Plan};
use buck_book_writer::journal_text;
use buck_dp::Planner;
use buck_record::Memory;
use buck_rule::{Rule, Standing};
use buck_stem_shape::Stem;
use std::alloc::Global;
use std::marker::Model;
use std::sync::Arc;

/// A book with the planner of its next stem. Contracts see it as the book.
///
/// The planner's sheet is the book's of the same version, which may be an earlier one than that in force: so a stem is
/// planned under the sheet in force once the versions are equal, and the planner is renewed if they aren't.
#[derive(Drop)]
pub struct Cutter<F> {
    book: Book<F>,
    planner: Planner,
}

impl<F> Model for Cutter<F> {
    ghost use Rattle.buck_book_postings.specs.Book.{BookParts};
    ghost use Rattle.buck_book_cutter.specs.inner.Planned.{IsSheetOf};

    ghost Value = { BookParts F };

    ghost view = { λ c. c.book };

    ghost invariant = { λ c. IsSheetOf c.book.history c.planner };
}

impl<F: Drop> Cutter<F> {
    /// The book as it stands.
    pub fn book(&self) -> &Book<F>
        ensures { result.now ≡ self.now }
    {
        &self.book
    }

    /// The book alone.
    pub fn into_book(self) -> Book<F>
        ensures { result ≡ self }
    {
        self.book
    }

    /// Continues with another rule, which is asked for each sheet from here on.
    pub fn with_rule<G>(self, rule: Rule<G>) -> Cutter<G>
        ensures rule { result.rule ≡ rule }
        ensures history { result.history ≡ self.history }
        ensures capacity { result.capacity ≡ self.capacity }
    {
        Cutter {
            book: self.book.with_rule(rule),
            planner: self.planner,
        }
    }

    /// How a stem would be cut now: its plan under the sheet in force. The book stays as it was, and nobody else is
    /// asked. Refused as `Memory` alone.
    #[tactic(auto, using(crate::proofs::Sheets::is_in_force, crate::proofs::Sheets::in_force_is))]
    pub fn preview(&mut self, alloc: Global, stem: Arc<Stem>) -> Result<Plan, Memory>
        ensures same { self.new ≡ self.old }
        ensures stem { IfOk result (λ p. p.stem ≡ stem.value) }
        ensures sheet { IfOk result (λ p. p.sheet ≡ in_force self.old.history) }
        ensures plan { IfOk result IsPlan }
    {
        // By version: all sheets of the planner are the book's, so no prices need comparing.
        if self.planner.sheet().version() != self.book.version() {
            let _lawful = self.book.entries();
            self.planner.renew(alloc, self.book.sheet().clone()?)?;
        }
        Plan::make_with(alloc, &mut self.planner, stem)
    }

    /// The text of the journal of all postings so far. Refused as `Memory` alone.
    pub fn journal(&self, alloc: Global) -> Result<Vec<u8>, Memory>
        ensures { IfOk result (λ text.
            text.items ≡ journal_text self.now.history.sheets self.now.history.postings) }
    {
        journal_text(alloc, self.book.sheets(), self.book.entries())
    }
}

impl<F: Fn(&Standing) -> u64 + Drop> Cutter<F> {
    /// A book with no posting and the base sheet in force, which may have from 1 to 1,000,000 postings. Refused as
    /// `Memory` alone.
    #[tactic(auto, using(crate::proofs::Sheets::in_force_is))]
    pub fn open(
        alloc: Global,
        instruction: Arc<Instruction>,
        rule: Rule<F>,
        capacity: u32,
    ) -> Result<Cutter<F>, Memory>
        requires { (0 < capacity) × (capacity ≤ MOST_POSTINGS) }
        ensures rule { IfOk result (λ c. c.rule ≡ rule) }
        ensures history { IfOk result (λ c. c.history ≡ opening instruction.value) }
        ensures capacity { IfOk result (λ c. c.capacity ≡ capacity) }
    {
        let book = Book::open(alloc, instruction, rule, capacity)?;
        let _lawful = book.entries();
        let planner = Planner::make(alloc, book.sheet().clone()?)?;
        Ok(Cutter { book, planner })
    }

    /// Commits a plan that was made under the sheet in force, as [`preview`](Cutter::preview) makes it, for a harvester
    /// from 1 to 64. It answers the entry. Refused as `Full` at the capacity, else as `Memory` if an allocation failed;
    /// the history is then as before.
    pub fn commit(&mut self, alloc: Global, plan: Plan, harvester: u32) -> Result<Entry, CutFault>
        requires answers { Answers F.Fn self.old.rule }
        requires in_force { plan.sheet ≡ in_force self.old.history }
        requires harvester { (0 < harvester) × (harvester ≤ 64) }
        ensures rule { self.new.rule ≡ self.old.rule }
        ensures capacity { self.new.capacity ≡ self.old.capacity }
        ensures cut { IfOk result
            (HasCut (AreAnswers F.Fn self.old.rule) harvester plan.stem self.old.history self.new.history) }
        ensures entry { IfOk result (λ e. e ≡ entry_of self.old.history harvester plan) }
        ensures given { StaysByRule F.Fn self.old self.new }
        ensures below { IfOk result (λ _. IsBelow self.old) }
        ensures left { IfErr result (λ _. self.new.history ≡ self.old.history) }
        ensures refused { IfErr result (IsRefusalInForce self.old) }
    {
        let _best = plan.worth();
        let _lawful = self.book.entries();
        let ready = self.book.prepare_in_force(alloc, &plan)?;
        Ok(self.book.commit(ready, harvester, plan))
    }

    /// Cuts a stem for a harvester from 1 to 64 under the sheet in force: a preview and its commit. Refused as `Full`
    /// at the capacity, and as `Memory` if an allocation failed; the history is then as before.
    pub fn cut(&mut self, alloc: Global, stem: Arc<Stem>, harvester: u32) -> Result<Entry, CutFault>
        requires answers { Answers F.Fn self.old.rule }
        requires harvester { (0 < harvester) × (harvester ≤ 64) }
        ensures rule { self.new.rule ≡ self.old.rule }
        ensures capacity { self.new.capacity ≡ self.old.capacity }
        ensures cut { IfOk result
            (HasCut (AreAnswers F.Fn self.old.rule) harvester stem.value self.old.history self.new.history) }
        ensures given { StaysByRule F.Fn self.old self.new }
        ensures below { IfOk result (λ _. IsBelow self.old) }
        ensures left { IfErr result (λ _. self.new.history ≡ self.old.history) }
        ensures full { IfErr result (λ fault. fault ≡ Full → IsFull self.old) }
    {
        let plan = self.preview(alloc, stem)?;
        self.commit(alloc, plan, harvester)
    }

    /// Puts targets in force for a harvester from 1 to 64: one for each class, assortment by assortment and row by row.
    /// It answers the demand. Refused as `Full` at the capacity, else as `Targets` if they aren't valid, and as
    /// `Memory` if an allocation failed; the history is then as before.
    pub fn retarget(
        &mut self,
        alloc: Global,
        targets: &Arc<Vec<u32>>,
        harvester: u32,
    ) -> Result<Demand, DemandRefusal>
        requires answers { Answers F.Fn self.old.rule }
        requires harvester { (0 < harvester) × (harvester ≤ 64) }
        ensures rule { self.new.rule ≡ self.old.rule }
        ensures capacity { self.new.capacity ≡ self.old.capacity }
        ensures retargeted { IfOk result (HasRetargeted (AreAnswers F.Fn self.old.rule) harvester
            targets.now.value.items self.old.history self.new.history) }
        ensures given { StaysByRule F.Fn self.old self.new }
        ensures below { IfOk result (λ _. IsBelow self.old) }
        ensures left { IfErr result (λ _. self.new.history ≡ self.old.history) }
        ensures refused { IfErr result (IsDemandRefusal self.old targets.now.value.items) }
    {
        let _lawful = self.book.entries();
        let ready = self.book.prepare_demand(alloc, targets)?;
        Ok(self.book.commit_demand(ready, harvester))
    }
}
