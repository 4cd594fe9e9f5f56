//! The book of one thread.
ghost use Rattle.std.specs.Prelude.{◌≡◌, ℕ, ◌+◌, ◌-◌, ◌<◌, ◌≤◌, [], ◌∷◌, ◌++◌, false, All, IfOk, IfErr, IfSome, OnOk, IsTrue, ◌↔◌, length, map, vec_len, vec_capacity};
ghost use Rattle.std.specs.Option.{option_to_list, option_map};
ghost use Rattle.buck_apt_instruction.specs.Instruction.{IsClass};
ghost use Rattle.buck_rule.specs.Stored.{Answers};
ghost use Rattle.buck_value.specs.Sheet.{base_prices, sheet_of};
ghost use Rattle.buck_book_postings.specs.Posting.{harvester_of, number_of, targets_of, cuts_since_end};
ghost use Rattle.buck_book_postings.specs.Targets.{AreTargets};
ghost use Rattle.buck_book_postings.specs.Counts.{AreClassCounts, count_of, calls_of};
ghost use Rattle.buck_book_postings.specs.History.{IsLawful, IsEnd, IsNextSheet, version_of, in_force, sheets_with};
ghost use Rattle.buck_book_postings.specs.Pricing.{AreAnswers, AreAnswersWith, AreAnswersWithDemand};
ghost use Rattle.buck_book_postings.specs.Book.{sheets_from, IsBook, entry_of, demand_of, IsNext, IsReadyFor, IsReadyDemand, SameContent};
ghost use Rattle.buck_book_postings.specs.Refused.{IsFull, IsBelow, IsRefusal, IsRefusalInForce, IsDemandRefusal};
ghost use Rattle.buck_book_postings.specs.declared.posting.Posting.{Posting};
ghost use Rattle.buck_book_postings.specs.declared.posting.TheConstants.{MOST_POSTINGS};

use crate::demand::{DemandRefusal, ReadyDemand};
use crate::entry::Entry;
use crate::parts::Parts;
use crate::plan::Plan;
use crate::posting::{Demand, Posting};
use crate::ready::{CutFault, Ready, Refusal};
use crate::running::Running;
use crate::targets::check_targets;
use buck_apt_instruction::{Class, Instruction};
use buck_record::Memory;
use buck_rule::{Rule, Standing};
use buck_value::Sheet;
use std::alloc::{AllocError, Global};
use std::marker::Model;
use std::sync::Arc;

/// The history of what was cut and demanded, with the sheets that were in force, the rule that makes the next one, and
/// running counts. Its history is lawful at every moment: each cutting is best under the sheet of its place, and each
/// sheet's prices keep the price relation with the targets in force and with what was cut before it.
#[derive(Drop)]
pub struct Book<F> {
    rule: Rule<F>,
    instruction: Arc<Instruction>,
    sheets: Vec<Arc<Sheet>>,
    postings: Vec<Posting>,
    running: Running,
    calls: Vec<u32>,
    capacity: u32,
}

impl<F> Model for Book<F> {
    ghost use Rattle.std.specs.Prelude.{map, vec_capacity};
    ghost use Rattle.buck_book_postings.specs.Book.{BookParts, book_of};
    ghost use Rattle.buck_book_postings.specs.inner.Running.{Keeps};

    ghost Value = { BookParts F };

    ghost view = { λ b. book_of b.rule b.instruction.value (map (λ a. a.value.prices) b.sheets.items)
        b.postings.items b.capacity (vec_capacity b.postings) (vec_capacity b.sheets) };

    ghost invariant = { λ b. Keeps
        (book_of b.rule b.instruction.value (map (λ a. a.value.prices) b.sheets.items)
        b.postings.items b.capacity (vec_capacity b.postings) (vec_capacity b.sheets))
        (map (λ a. a.value) b.sheets.items) b.running b.calls.items };
}

/// Adds a posting to a book's lists, and the next sheet if there is one; there is memory for both.
fn add(
    postings: &mut Vec<Posting>,
    sheets: &mut Vec<Arc<Sheet>>,
    posting: Posting,
    next: Option<Arc<Sheet>>,
)
    requires room { vec_len postings.old < vec_capacity postings.old }
    requires sheet_room { IfSome next (λ _. vec_len sheets.old < vec_capacity sheets.old) }
    ensures postings { postings.new.items ≡ postings.old.items ++ posting ∷ [] }
    ensures sheets { map (λ a. a.value) sheets.new.items
        ≡ map (λ a. a.value) sheets.old.items ++ option_to_list (option_map (λ a. a.value) next) }
    ensures prices { map (λ a. a.value.prices) sheets.new.items
        ≡ sheets_with (map (λ a. a.value.prices) sheets.old.items) (option_map (λ a. a.value) next) }
{
    postings.push_reserved(posting);
    match next {
        Some(sheet) => sheets.push_reserved(sheet),
        None => {}
    }
}

impl<F: Drop> Book<F> {
    /// The instruction of the history.
    pub fn instruction(&self) -> &Arc<Instruction>
        ensures { result.now.value ≡ self.now.history.instruction }
    {
        &self.instruction
    }

    /// The sheet in force: the next stem is planned under it.
    pub fn sheet(&self) -> &Arc<Sheet>
        ensures { result.now.value ≡ in_force self.now.history }
    {
        &self.sheets[self.version() as usize]
    }

    /// The version in force: how many periods have ended, at most 1,000,000.
    #[tactic(auto, using(crate::proofs::Told::version_low))]
    pub fn version(&self) -> u32
        ensures version { result ≡ version_of self.now.history }
        ensures small { result ≤ MOST_POSTINGS }
    {
        self.running.version
    }

    /// The targets in force, in logs of each class: those of the last demand, else the instruction's.
    pub fn targets(&self) -> &[u32]
        ensures targets { result.now ≡ targets_of self.now.history.instruction self.now.history.postings }
        ensures valid { AreTargets self.now.history.instruction result.now }
    {
        self.running.targets.as_slice()
    }

    /// The number of postings.
    pub fn len(&self) -> usize
        ensures number { result ≡ length self.now.history.postings }
        ensures kept { IsBook self.now }
    {
        self.postings.len()
    }

    /// How many postings the history may have, 1 to 1,000,000.
    pub fn capacity(&self) -> u32
        ensures capacity { result ≡ self.now.capacity }
        ensures kept { IsBook self.now }
    {
        self.capacity
    }

    /// How many logs were cut in a class of the instruction.
    pub fn count(&self, class: Class) -> u32
        requires { IsClass self.now.history.instruction class }
        ensures { result ≡ count_of self.now.history.instruction class self.now.history.postings }
    {
        self.running.by_class[self.instruction.index(class)]
    }

    /// How many logs were cut in each class, assortment by assortment and row by row.
    pub fn counts(&self) -> &[u32]
        ensures { AreClassCounts self.now.history.instruction self.now.history.postings result.now }
    {
        self.running.by_class.as_slice()
    }

    /// How many postings are those of a harvester, who is from 1 to 64.
    pub fn calls(&self, harvester: u32) -> u32
        requires { (0 < harvester) × (harvester ≤ 64) }
        ensures { result ≡ calls_of harvester self.now.history.postings }
    {
        self.calls[(harvester - 1) as usize]
    }

    /// The postings, in the order of their commits.
    pub fn entries(&self) -> &[Posting]
        ensures postings { result.now ≡ self.now.history.postings }
        ensures lawful { IsLawful self.now.history }
    {
        self.postings.as_slice()
    }

    /// The sheets, by version from 0.
    pub fn sheets(&self) -> &[Arc<Sheet>]
        ensures sheets { map (λ a. a.value) result.now
            ≡ sheets_from 0 self.now.history.instruction self.now.history.sheets }
        ensures lawful { IsLawful self.now.history }
    {
        self.sheets.as_slice()
    }

    /// All that a caller may want of the day: the lawful history, the targets in force, and the class counts.
    pub fn into_parts(self) -> Parts
        ensures history { result ≡ self.history }
        ensures kept { IsBook self }
    {
        let running = self.running;
        Parts {
            instruction: self.instruction,
            sheets: self.sheets,
            entries: self.postings,
            targets: running.targets,
            counts: running.by_class,
        }
    }

    /// Continues the book with another rule, which is asked for each sheet from here on.
    pub fn with_rule<G>(self, rule: Rule<G>) -> Book<G>
        ensures rule { result.rule ≡ rule }
        ensures history { result.history ≡ self.history }
        ensures capacity { result.capacity ≡ self.capacity }
    {
        Book {
            rule,
            instruction: self.instruction,
            sheets: self.sheets,
            postings: self.postings,
            running: self.running,
            calls: self.calls,
            capacity: self.capacity,
        }
    }

    /// Whether the history is at its capacity.
    fn is_full(&self) -> bool
        ensures full { IsTrue result ↔ IsFull self.now }
        ensures below { result ≡ false → IsBelow self.now }
    {
        self.len() >= self.capacity() as usize
    }

    /// Makes room for one more posting and one more sheet.
    fn reserve(&mut self) -> Result<(), AllocError>
        ensures content { SameContent self.old self.new }
        ensures posting { OnOk result (length self.new.history.postings < self.new.room) }
        ensures sheet { OnOk result (length self.new.history.sheets < self.new.sheet_room) }
    {
        self.postings.reserve(1)?;
        self.sheets.reserve(1)
    }

    /// Adds a plan's entry at the end of the history, and the next sheet if the period ends; answers the entry. It
    /// takes no memory and can't fail. The commit was prepared for this plan by this book, with no commit since, and
    /// the harvester is from 1 to 64.
    pub fn commit(&mut self, ready: Ready, harvester: u32, plan: Plan) -> Entry
        requires ready { IsReadyFor self.old ready plan }
        requires harvester { (0 < harvester) × (harvester ≤ 64) }
        ensures entry { result ≡ entry_of self.old.history harvester plan }
        ensures postings { self.new.history.postings ≡ self.old.history.postings ++ Posting.Cut result ∷ [] }
        ensures sheets { self.new.history.sheets ≡ sheets_with self.old.history.sheets ready.next }
        ensures rule { self.new.rule ≡ self.old.rule }
        ensures instruction { self.new.history.instruction ≡ self.old.history.instruction }
        ensures capacity { self.new.capacity ≡ self.old.capacity }
    {
        let number = self.calls(harvester) + 1;
        let version = self.version();
        self.calls[(harvester - 1) as usize] = number;
        self.running.after_plan(&plan);
        let entry = Entry {
            harvester,
            number,
            stem: plan.stem,
            version,
            cutting: plan.cutting,
            worth: plan.worth,
        };
        let stored = Posting::Cut(entry.sharing(ready.stem, ready.cutting));
        add(&mut self.postings, &mut self.sheets, stored, ready.next);
        entry
    }

    /// Adds a demand at the end of the history, which ends the period, and the next sheet; answers the demand. It takes
    /// no memory and can't fail. It was prepared by this book, with no commit since, and the harvester is from 1 to 64.
    pub fn commit_demand(&mut self, ready: ReadyDemand, harvester: u32) -> Demand
        requires ready { IsReadyDemand self.old ready }
        requires harvester { (0 < harvester) × (harvester ≤ 64) }
        ensures demand { result ≡ demand_of self.old.history harvester ready.targets }
        ensures postings { self.new.history.postings ≡ self.old.history.postings ++ Posting.Demand result ∷ [] }
        ensures sheets { self.new.history.sheets ≡ self.old.history.sheets ++ ready.next.prices ∷ [] }
        ensures rule { self.new.rule ≡ self.old.rule }
        ensures instruction { self.new.history.instruction ≡ self.old.history.instruction }
        ensures capacity { self.new.capacity ≡ self.old.capacity }
    {
        let number = self.calls(harvester) + 1;
        let version = self.version();
        self.calls[(harvester - 1) as usize] = number;
        self.running.after_demand(ready.in_force);
        let demand = Demand {
            harvester,
            number,
            version,
            targets: ready.answered,
        };
        let stored = Posting::Demand(demand.sharing(ready.stored));
        let next = Some(ready.next);
        add(&mut self.postings, &mut self.sheets, stored, next);
        demand
    }
}

impl<F: Fn(&Standing) -> u64> Book<F> {
    /// A book with no posting and the base sheet in force. It may have from 1 to 1,000,000 postings. Refused as
    /// `Memory` alone.
    pub fn open(
        alloc: Global,
        instruction: Arc<Instruction>,
        rule: Rule<F>,
        capacity: u32,
    ) -> Result<Book<F>, Memory>
        requires { (0 < capacity) × (capacity ≤ MOST_POSTINGS) }
        ensures rule { IfOk result (λ b. b.rule ≡ rule) }
        ensures instruction { IfOk result (λ b. b.history.instruction ≡ instruction.value) }
        ensures sheets { IfOk result (λ b. b.history.sheets ≡ base_prices instruction.value ∷ []) }
        ensures postings { IfOk result (λ b. b.history.postings ≡ []) }
        ensures capacity { IfOk result (λ b. b.capacity ≡ capacity) }
    {
        let running = Running::opening(alloc, &instruction)?;
        let calls = vec![in alloc; 0; 64]?;
        let base = Arc::new(alloc, Sheet::base(alloc, instruction.clone()?)?)?;
        let mut sheets = Vec::with_capacity(alloc, 1)?;
        sheets.push_reserved(base);
        Ok(Book {
            rule,
            instruction,
            sheets,
            postings: Vec::new(alloc),
            running,
            calls,
            capacity,
        })
    }

    /// The next sheet after a plan's entry, if that ends a period.
    #[tactic(auto, using(crate::proofs::Told::cuts_few))]
    fn next_sheet(&self, alloc: Global, plan: &Plan) -> Result<Option<Arc<Sheet>>, Memory>
        requires answers { Answers F.Fn self.now.rule }
        requires below { length self.now.history.postings < self.now.capacity }
        requires in_force { plan.now.sheet ≡ in_force self.now.history }
        ensures next { IfOk result (λ next. (harvester : ℕ) → IsNext self.now.history
            (Posting.Cut (entry_of self.now.history harvester plan.now)) (option_map (λ a. a.value) next)) }
        ensures given { IfOk result (λ next. IfSome next (λ s.
            AreAnswersWith F.Fn self.now.rule self.now.history plan.now s.value.prices)) }
    {
        if self.running.cuts + 1 != self.instruction.period() {
            return Ok(None);
        }
        // In a second list of the counts: if the preparation is dropped, the book has nothing to undo.
        let mut after = self.running.clone()?;
        after.after_plan(plan);
        Ok(Some(after.sheet(alloc, &self.rule, &self.instruction)?))
    }

    /// Prepares the commit of a plan: makes all that the commit stores or hands out, with the next sheet if the
    /// plan's entry ends a period, and the room that it needs in the book's lists. The content stays as it was.
    /// Refused as `Full` at the capacity, else as `Stale` if the plan's sheet isn't the one in force, and as `Memory`
    /// if an allocation failed.
    pub fn prepare(&mut self, alloc: Global, plan: &Plan) -> Result<Ready, Refusal>
        requires answers { Answers F.Fn self.old.rule }
        ensures content { SameContent self.old self.new }
        ensures ready { IfOk result (λ r. IsReadyFor self.new r plan.now) }
        ensures given { IfOk result (λ r. IfSome r.next (λ s.
            AreAnswersWith F.Fn self.old.rule self.old.history plan.now s.prices)) }
        ensures refused { IfErr result (IsRefusal self.old plan.now) }
    {
        if self.is_full() {
            return Err(Refusal::Full);
        }
        // By value: the library has no test with a contract that two shared pointers are one.
        if !plan.sheet().same(self.sheet()) {
            let in_force = self.sheet().clone()?;
            return Err(Refusal::Stale { in_force });
        }
        Ok(self.make_ready(alloc, plan)?)
    }

    /// [`prepare`](Book::prepare) of a plan that is known to be under the sheet in force because nobody else commits:
    /// no sheets are compared, and it is refused as `Full` or `Memory` alone.
    pub fn prepare_in_force(&mut self, alloc: Global, plan: &Plan) -> Result<Ready, CutFault>
        requires answers { Answers F.Fn self.old.rule }
        requires in_force { plan.now.sheet ≡ in_force self.old.history }
        ensures content { SameContent self.old self.new }
        ensures ready { IfOk result (λ r. IsReadyFor self.new r plan.now) }
        ensures given { IfOk result (λ r. IfSome r.next (λ s.
            AreAnswersWith F.Fn self.old.rule self.old.history plan.now s.prices)) }
        ensures refused { IfErr result (IsRefusalInForce self.old) }
    {
        if self.is_full() {
            return Err(CutFault::Full);
        }
        Ok(self.make_ready(alloc, plan)?)
    }

    /// Makes all that the commit of a plan needs, below the capacity and under the sheet in force.
    fn make_ready(&mut self, alloc: Global, plan: &Plan) -> Result<Ready, Memory>
        requires answers { Answers F.Fn self.old.rule }
        requires below { IsBelow self.old }
        requires in_force { plan.now.sheet ≡ in_force self.old.history }
        ensures content { SameContent self.old self.new }
        ensures ready { IfOk result (λ r. IsReadyFor self.new r plan.now) }
        ensures given { IfOk result (λ r. IfSome r.next (λ s.
            AreAnswersWith F.Fn self.old.rule self.old.history plan.now s.prices)) }
    {
        let next = self.next_sheet(alloc, plan)?;
        let ready = Ready {
            stem: plan.stem().clone()?,
            cutting: plan.cutting().clone()?,
            next,
        };
        self.reserve()?;
        Ok(ready)
    }

    /// Prepares the commit of a demand: makes all that the commit stores or hands out, with the next sheet, and the
    /// room that it needs in the book's lists. The content stays as it was. The targets are one for each class,
    /// assortment by assortment and row by row. Refused as `Full` at the capacity, else as `Targets` if they aren't
    /// valid, and as `Memory` if an allocation failed.
    pub fn prepare_demand(
        &mut self,
        alloc: Global,
        targets: &Arc<Vec<u32>>,
    ) -> Result<ReadyDemand, DemandRefusal>
        requires answers { Answers F.Fn self.old.rule }
        ensures content { SameContent self.old self.new }
        ensures ready { IfOk result (λ r. IsReadyDemand self.new r) }
        ensures targets { IfOk result (λ r. r.targets ≡ targets.now.value.items) }
        ensures given { IfOk result (λ r.
            AreAnswersWithDemand F.Fn self.old.rule self.old.history targets.now.value.items r.next.prices) }
        ensures refused { IfErr result (IsDemandRefusal self.old targets.now.value.items) }
    {
        if self.is_full() {
            return Err(DemandRefusal::Full);
        }
        match check_targets(&self.instruction, targets.as_slice()) {
            Err(fault) => return Err(DemandRefusal::Targets(fault)),
            Ok(()) => {}
        }
        let mut after = self.running.clone()?;
        after.after_demand(targets.clone()?);
        // All three shares now: sharing can be refused, and the commit can't be.
        let ready = ReadyDemand {
            stored: targets.clone()?,
            in_force: targets.clone()?,
            answered: targets.clone()?,
            next: after.sheet(alloc, &self.rule, &self.instruction)?,
        };
        self.reserve()?;
        Ok(ready)
    }
}
