//! How classes stand: the prices that a rule answers to it, and whether prices keep the price relation with it.
ghost use Rattle.std.specs.Prelude.{◌≡◌, ◌+◌, ◌<◌, IfOk, IfSome, IfNone, length};
ghost use Rattle.buck_apt_instruction.specs.Instruction.{classes, classes_of, classes_before};
ghost use Rattle.buck_rule.specs.Stored.{Answers};
ghost use Rattle.buck_rule.specs.Relation.{Meets};
ghost use Rattle.buck_book_postings.specs.inner.Pricing.{CanPrice, IsSection, StandsAt, ArePriced, AreBelow, IsFirstWrong};
ghost use Rattle.buck_book_postings.specs.inner.Running.{standings_of};

use crate::running::Running;
use crate::targets::targets_sum;
use buck_apt_instruction::{Assortment, Instruction};
use buck_rule::{Rule, Standing, meets};
use std::alloc::{AllocError, Global};

/// The classes of an assortment: how many come before them, and what is wanted of all together.
#[derive(Clone, Copy)]
pub struct Section<'a> {
    assortment: &'a Assortment,
    at: usize,
    before: usize,
    targets: u64,
}

impl Running {
    /// The classes of the assortment at a place, given how many come before them.
    #[tactic(auto, using(crate::proofs::Wanted::part_within))]
    fn section<'a>(&self, instruction: &'a Instruction, at: usize, before: usize) -> Section<'a>
        requires can { CanPrice (standings_of instruction.now self.now) }
        requires exists { at < length instruction.now.assortments }
        requires before { before ≡ classes_before instruction.now at }
        ensures section { IsSection (standings_of instruction.now self.now) result }
        ensures at { result.at ≡ at }
    {
        let assortment = &instruction.assortments()[at];
        Section {
            assortment,
            at,
            before,
            targets: targets_sum(assortment, before, self.targets.as_slice()),
        }
    }

    /// How a class of an assortment stands.
    #[tactic(auto, using(crate::proofs::Standings::section_below, crate::proofs::Standings::section_price, std::proofs::lemmas::Option::slice_get_within, crate::proofs::Standings::section_stands))]
    fn standing(&self, instruction: &Instruction, section: &Section, inner: usize) -> Standing
        requires section { IsSection (standings_of instruction.now self.now) section.now }
        requires inner { inner < classes_of section.now.assortment.now }
        ensures { StandsAt (standings_of instruction.now self.now) (section.now.before + inner) result }
    {
        let place = section.before + inner;
        Standing {
            base: u64::from(section.assortment.prices()[inner]),
            limit: u64::from(instruction.limit()),
            target: u64::from(self.targets[place]),
            targets: section.targets,
            count: u64::from(self.by_class[place]),
            counts: u64::from(self.by_assortment[section.at]),
        }
    }

    /// How the class at a place among all classes stands.
    #[tactic(auto, using(crate::proofs::Standings::before_next))]
    pub fn standing_at(&self, instruction: &Instruction, place: usize) -> Standing
        requires can { CanPrice (standings_of instruction.now self.now) }
        requires within { place < classes instruction.now }
        ensures { StandsAt (standings_of instruction.now self.now) place result }
    {
        let mut before = 0;
        for at in 0..instruction.assortments().len() {
            let section = self.section(instruction, at, before);
            let inner = place - before;
            if inner < section.assortment.classes() {
                return self.standing(instruction, &section, inner);
            }
            before += section.assortment.classes();
        }
        unreachable!()
    }
}

/// The prices of all classes: the rule's answers to how the classes stand. Refused as `Memory` alone.
#[tactic(auto, using(crate::proofs::Standings::one_price_more))]
pub fn prices_by<F: Fn(&Standing) -> u64>(
    alloc: Global,
    rule: &Rule<F>,
    instruction: &Instruction,
    running: &Running,
) -> Result<Vec<u32>, AllocError>
    requires answers { Answers F.Fn rule.now }
    requires can { CanPrice (standings_of instruction.now running.now) }
    ensures { IfOk result (λ prices.
        ArePriced F.Fn rule.now (standings_of instruction.now running.now) prices.items (classes instruction.now)) }
{
    let mut prices = Vec::with_capacity(alloc, instruction.classes())?;
    for at in 0..instruction.assortments().len() {
        let section = running.section(instruction, at, prices.len());
        for inner in 0..section.assortment.classes() {
            let standing = running.standing(instruction, &section, inner);
            prices.push(rule.answer(&standing) as u32)?;
        }
    }
    Ok(prices)
}

/// The first class whose price doesn't keep the price relation with how it stands, by its place among all.
#[tactic(auto, using(crate::proofs::Standings::before_next, crate::proofs::Standings::section_below, crate::proofs::Standings::one_more_below))]
pub fn first_wrong(instruction: &Instruction, running: &Running, prices: &[u32]) -> Option<usize>
    requires can { CanPrice (standings_of instruction.now running.now) }
    requires one_each { length prices.now ≡ classes instruction.now }
    ensures found { IfSome result (λ place.
        IsFirstWrong (standings_of instruction.now running.now) prices.now place) }
    ensures none { IfNone result
        (AreBelow Meets (standings_of instruction.now running.now) prices.now (classes instruction.now)) }
{
    let mut before = 0;
    for at in 0..instruction.assortments().len() {
        let section = running.section(instruction, at, before);
        for inner in 0..section.assortment.classes() {
            let place = section.before + inner;
            let standing = running.standing(instruction, &section, inner);
            if !meets(&standing, u64::from(prices[place])) {
                return Some(place);
            }
        }
        before += section.assortment.classes();
    }
    None
}
