//! Whether the prices of a lawful journal are those of a rule.
ghost use Rattle.std.specs.Prelude.{◌≡◌, ◌+◌, ◌≤◌, IfOk, IfSome, IfNone, length, slice_get, Some};
ghost use Rattle.buck_apt_instruction.specs.Instruction.{classes};
ghost use Rattle.buck_rule.specs.Stored.{Answers};
ghost use Rattle.buck_rule.specs.GivenBy.{GivesBy};
ghost use Rattle.buck_book_postings.specs.History.{IsLawful};
ghost use Rattle.buck_book_journal.specs.Journal.{history_of, prices_then};
ghost use Rattle.buckfleet_engine_files.specs.Ruled.{ArePricesAt, FollowsRule};
ghost use Rattle.buckfleet_engine_cross_check.specs.Ties.{IsPriceFault, IsPriceFaultAt};
ghost use Rattle.buckfleet_engine_cross_check.specs.inner.Tie.{AreSameBelow, DifferFirstAt};
ghost use Rattle.buck_book_postings.specs.declared.posting.TheConstants.{MOST_POSTINGS};

use buck_apt_instruction::Instruction;
use buck_book_journal::Journal;
use buck_book_postings::Walk;
use buck_record::Memory;
use buck_rule::{NamedRule, Rule, Standing};
use buck_value::Sheet;
use buckfleet_engine_files::CheckFault;
use std::alloc::Global;
use std::sync::Arc;

/// The first place at which prices aren't those that are wanted.
fn first_off(prices: &[u32], wanted: &[u32]) -> Option<usize>
    requires { length prices.now ≡ length wanted.now }
    ensures found { IfSome result (DifferFirstAt prices.now wanted.now) }
    ensures none { IfNone result (AreSameBelow prices.now wanted.now (length prices.now)) }
{
    for class in 0..prices.len() {
        if prices[class] != wanted[class] {
            return Some(class);
        }
    }
    None
}

/// The prices that are in force at the place that a way has come to.
fn prices_at<'j>(journal: &'j Journal, walk: &Walk<'_>) -> &'j [u32]
    requires postings { walk.now.postings ≡ journal.now.entries }
    requires lawful { IsLawful (history_of walk.now.instruction journal.now) }
    ensures prices { result.now ≡ prices_then (history_of walk.now.instruction journal.now) walk.now.at }
    ensures number { length result.now ≡ classes walk.now.instruction }
{
    let _within = walk.at();
    let _valid = walk.next();
    journal.sheets[walk.version() as usize].as_slice()
}

/// How the prices differ from a rule's, if a period begins at the place that a way has come to.
#[tactic(auto, using(crate::proofs::PriceLemmas::none_at_walk, crate::proofs::PriceLemmas::fault_at_walk))]
fn fault_at<F: Fn(&Standing) -> u64>(
    alloc: Global,
    rule: &Rule<F>,
    journal: &Journal,
    walk: &Walk<'_>,
) -> Result<Option<CheckFault>, Memory>
    requires answers { Answers F.Fn rule.now }
    requires postings { walk.now.postings ≡ journal.now.entries }
    requires lawful { IsLawful (history_of walk.now.instruction journal.now) }
    ensures none { IfOk result (λ found. IfNone found ((named : NamedRule) → GivesBy F.Fn rule.now named
        → ArePricesAt named (history_of walk.now.instruction journal.now) walk.now.at)) }
    ensures found { IfOk result (λ found. IfSome found (λ fault. (named : NamedRule) → GivesBy F.Fn rule.now named
        → IsPriceFaultAt named (history_of walk.now.instruction journal.now) walk.now.at fault)) }
{
    if !walk.begins_period() {
        return Ok(None);
    }
    let version = walk.version();
    let prices = prices_at(journal, walk);
    let wanted = walk.prices(alloc, rule)?;
    match first_off(prices, wanted.as_slice()) {
        Some(class) => Ok(Some(CheckFault::Price {
            version,
            class,
            price: prices[class],
            wanted: u64::from(wanted[class]),
        })),
        None => Ok(None),
    }
}

/// How the prices of a lawful journal first differ from a rule's.
fn first_fault<F: Fn(&Standing) -> u64>(
    alloc: Global,
    rule: &Rule<F>,
    instruction: &Arc<Instruction>,
    journal: &Journal,
) -> Result<Option<CheckFault>, Memory>
    requires answers { Answers F.Fn rule.now }
    requires few { length journal.now.entries ≤ MOST_POSTINGS }
    requires lawful { IsLawful (history_of instruction.now.value journal.now) }
    ensures none { IfOk result (λ found. IfNone found ((named : NamedRule) → GivesBy F.Fn rule.now named
        → FollowsRule named (history_of instruction.now.value journal.now))) }
    ensures found { IfOk result (λ found. IfSome found (λ fault. (named : NamedRule) → GivesBy F.Fn rule.now named
        → IsPriceFault named (history_of instruction.now.value journal.now) fault)) }
{
    let base = Sheet::base(alloc, instruction.clone()?)?;
    let mut walk = Walk::opening(alloc, instruction, journal.entries.as_slice())?;
    loop {
        match fault_at(alloc, rule, journal, &walk)? {
            Some(fault) => return Ok(Some(fault)),
            None => {}
        }
        let Some(posting) = walk.next() else {
            return Ok(None);
        };
        // Any sheet of the instruction will do: the classes that a walk counts don't depend on the prices in force.
        walk = walk.pass(&base, posting)?;
    }
}

/// How the prices of a lawful journal first differ from those that a named rule gives. Refused as `Memory` alone.
///
/// It goes over the postings once, and keeps what they add up to.
pub(crate) fn compare_prices(
    alloc: Global,
    named: NamedRule,
    instruction: &Arc<Instruction>,
    journal: &Journal,
) -> Result<Option<CheckFault>, Memory>
    requires few { length journal.now.entries ≤ MOST_POSTINGS }
    requires lawful { IsLawful (history_of instruction.now.value journal.now) }
    ensures none { IfOk result (λ found.
        IfNone found (FollowsRule named (history_of instruction.now.value journal.now))) }
    ensures found { IfOk result (λ found.
        IfSome found (IsPriceFault named (history_of instruction.now.value journal.now))) }
{
    let rule = Rule::new(move |s: &Standing| named.price(s));
    first_fault(alloc, &rule, instruction, journal)
}
