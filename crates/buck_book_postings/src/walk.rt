//! A way through the postings of a history.
ghost use Rattle.std.specs.Prelude.{◌≡◌, ◌+◌, ◌<◌, ◌≤◌, ◌==◌, ◌↔◌, IsTrue, IfOk, IfSome, IfNone, length, slice_get, Some};
ghost use Rattle.std.specs.Option.{option_map};
ghost use Rattle.buck_apt_instruction.specs.Instruction.{IsInstruction, classes};
ghost use Rattle.buck_rule.specs.Standing.{IsInRange};
ghost use Rattle.buck_rule.specs.Stored.{Answers};
ghost use Rattle.buck_book_postings.specs.Posting.{ends_of, cuts_since_end, targets_of};
ghost use Rattle.buck_book_postings.specs.Targets.{AreTargets};
ghost use Rattle.buck_book_postings.specs.Counts.{AreClassCounts, calls_of};
ghost use Rattle.buck_book_postings.specs.History.{PricesMeet};
ghost use Rattle.buck_book_postings.specs.Pricing.{AreAnswers};
ghost use Rattle.buck_book_postings.specs.Walk.{walk_of, passed, StandsAfter, IsWrongPrice, IsCountable};
ghost use Rattle.buck_book_postings.specs.inner.Running.{calls_in};
ghost use Rattle.buck_book_postings.specs.declared.posting.TheConstants.{MOST_POSTINGS};

use crate::posting::Posting;
use crate::pricing::{first_wrong, prices_by};
use crate::running::Running;
use buck_apt_instruction::Instruction;
use buck_record::Memory;
use buck_rule::{Rule, Standing};
use buck_value::Sheet;
use std::alloc::Global;
use std::collections::BTreeMap;
use std::marker::Model;

/// A place among the postings of a history, with all that the postings before it add up to. It goes from the opening
/// on, posting by posting. The postings may say anything: whether they may follow one another is the caller's question.
#[derive(Drop)]
pub struct Walk<'a> {
    instruction: &'a Instruction,
    postings: &'a [Posting],
    at: usize,
    running: Running,
    // A map, unlike a book's list of 64, because a journal's harvester may be any number.
    calls: BTreeMap<u32, u32>,
}

impl<'a> Model for Walk<'a> {
    ghost use Rattle.buck_book_postings.specs.Walk.{WalkParts, walk_of};
    ghost use Rattle.buck_book_postings.specs.inner.Running.{IsWalk, calls_in};

    ghost Value = { WalkParts };

    ghost view = { λ w. walk_of w.instruction.now w.postings.now w.at };

    ghost invariant = { λ w. IsWalk (walk_of w.instruction.now w.postings.now w.at) w.running (calls_in w.calls) };
}

impl<'a> Walk<'a> {
    /// The place before the first of at most 1,000,000 postings. Refused as `Memory` alone.
    pub fn opening(
        alloc: Global,
        instruction: &'a Instruction,
        postings: &'a [Posting],
    ) -> Result<Walk<'a>, Memory>
        requires { length postings.now ≤ MOST_POSTINGS }
        ensures { IfOk result (λ w. w ≡ walk_of instruction.now postings.now 0) }
    {
        Ok(Walk {
            instruction,
            postings,
            at: 0,
            running: Running::opening(alloc, instruction)?,
            calls: BTreeMap::new(alloc),
        })
    }

    /// The instruction of the history.
    pub fn instruction(&self) -> &'a Instruction
        ensures { result.now ≡ self.now.instruction }
    {
        self.instruction
    }

    /// How many postings were passed.
    pub fn at(&self) -> usize
        ensures at { result ≡ self.now.at }
        ensures within { self.now.at ≤ length self.now.postings }
        ensures few { length self.now.postings ≤ MOST_POSTINGS }
    {
        self.at
    }

    /// The posting that comes next, if there is one.
    pub fn next(&self) -> Option<&'a Posting>
        ensures next { option_map (λ x. x.now) result ≡ slice_get self.now.postings self.now.at }
        ensures within { self.now.at ≤ length self.now.postings }
        ensures valid { IsInstruction self.now.instruction }
    {
        self.postings.get(self.at)
    }

    /// The version in force: how many ends were passed.
    #[tactic(auto, using(crate::proofs::Told::version_low))]
    pub fn version(&self) -> u32
        ensures version { result ≡ ends_of self.now.instruction (passed self.now) }
        ensures small { result ≤ MOST_POSTINGS }
    {
        self.running.version
    }

    /// Whether a period begins here: there was no cut since the last end.
    pub fn begins_period(&self) -> bool
        ensures { IsTrue result ↔ (cuts_since_end self.now.instruction (passed self.now) ≡ 0) }
    {
        self.running.cuts == 0
    }

    /// The targets in force, in logs of each class: those of the last demand that was passed, else the instruction's.
    pub fn targets(&self) -> &[u32]
        ensures targets { result.now ≡ targets_of self.now.instruction (passed self.now) }
        ensures valid { AreTargets self.now.instruction result.now }
    {
        self.running.targets.as_slice()
    }

    /// How many logs of each class were passed, class by class.
    pub fn counts(&self) -> &[u32]
        ensures { AreClassCounts self.now.instruction (passed self.now) result.now }
    {
        self.running.by_class.as_slice()
    }

    /// The number that the next call of a harvester has.
    pub fn next_number(&self, harvester: u32) -> u32
        ensures { result ≡ calls_of harvester (passed self.now) + 1 }
    {
        self.calls.get(&harvester).copied().unwrap_or(0) + 1
    }

    /// How a class stands here, by its place among all classes: against the targets in force, and by what was cut up to
    /// here.
    #[tactic(auto, using(crate::proofs::Told::prices_can))]
    pub fn standing(&self, class: usize) -> Standing
        requires { class < classes self.now.instruction }
        ensures stands { StandsAfter self.now.instruction (passed self.now) class result }
        ensures range { IsInRange result }
    {
        self.running.standing_at(self.instruction, class)
    }

    /// The prices that a rule gives here, class by class. Refused as `Memory` alone.
    #[tactic(auto, using(crate::proofs::Told::prices_can))]
    pub fn prices<F: Fn(&Standing) -> u64>(
        &self,
        alloc: Global,
        rule: &Rule<F>,
    ) -> Result<Vec<u32>, Memory>
        requires { Answers F.Fn rule.now }
        ensures number { IfOk result (λ prices. length prices.items ≡ classes self.now.instruction) }
        ensures answers { IfOk result (λ prices.
            AreAnswers F.Fn rule.now self.now.instruction (passed self.now) prices.items) }
    {
        Ok(prices_by(alloc, rule, self.instruction, &self.running)?)
    }

    /// The first class whose price, of one for each class, doesn't keep the price relation with the targets in force
    /// and with what was cut up to here, by its place among all classes. It takes no memory.
    #[tactic(auto, using(crate::proofs::Told::prices_can))]
    pub fn wrong_price(&self, prices: &[u32]) -> Option<usize>
        requires { length prices.now ≡ classes self.now.instruction }
        ensures found { IfSome result (λ at.
            IsWrongPrice self.now.instruction (passed self.now) prices.now at) }
        ensures none { IfNone result
            (PricesMeet self.now.instruction (passed self.now) prices.now) }
    {
        first_wrong(self.instruction, &self.running, prices)
    }

    /// The place after the next posting, whose logs, if it is a cut, are an admissible cutting, and whose targets, if
    /// it is a demand, are valid. The sheet is any of the instruction. Refused as `Memory` alone.
    pub fn pass(self, sheet: &Sheet, posting: &Posting) -> Result<Walk<'a>, Memory>
        requires next { slice_get self.postings self.at ≡ Some posting.now }
        requires instruction { sheet.now.instruction ≡ self.instruction }
        requires countable { IsCountable self.instruction posting.now }
        ensures { IfOk result (λ w.
            w ≡ walk_of self.entry.instruction self.entry.postings (self.entry.at + 1)) }
    {
        let number = self.next_number(posting.harvester());
        let mut walk = self;
        walk.running.after(sheet, posting)?;
        walk.calls.insert(posting.harvester(), number)?;
        walk.at += 1;
        Ok(walk)
    }
}
