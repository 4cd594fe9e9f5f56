//! The run of lists that are cut in turn, without a journal: what was cut, and what that is worth at base prices.
ghost use Rattle.std.specs.Prelude.{◌≡◌, ◌<◌, ◌≤◌, ◌*◌, ◌^◌, IfErr, IfOk, length, sum_by};
ghost use Rattle.buck_apt_instruction.specs.Instruction.{classes};
ghost use Rattle.buck_rule.specs.GivenBy.{GivesBy};
ghost use Rattle.buck_book_postings.specs.declared.posting.TheConstants.{MOST_POSTINGS};
ghost use Rattle.buck_page_figures.specs.Figures.{at_base_in, base_sheet};
ghost use Rattle.buck_fleet_round_robin.specs.Turn.{stems_in_all};
ghost use Rattle.buckfleet_trial_sweep.specs.Runs.{HasCut, IsStop};
ghost use Rattle.buckfleet_trial_sweep.specs.Table.{IsLeast};
ghost use Rattle.buckfleet_trial.specs.Light.{AreBest, AreBestOf, AreDegrees, HasCutOf, lesser};
ghost use Rattle.buckfleet_trial.specs.inner.Worth.{IsCutUnder, worth_under};

use buck_apt_instruction::Instruction;
use buck_book_postings::{CutFault, Parts, Posting, degree_at};
use buck_dp::{Planner, worth};
use buck_fleet_round_robin::cut_in_turn;
use buck_record::Memory;
use buck_rule::{NamedRule, Rule, Standing};
use buck_stem_shape::Stem;
use buck_value::Sheet;
use buckfleet_engine_files::EngineFault;
use buckfleet_trial_draws::order_from;
use std::alloc::Global;
use std::sync::Arc;

/// What was cut of lists of stems that were cut in turn by a closure, which answers what the rule of a name gives.
fn cut_by_rule<F: Fn(&Standing) -> u64 + Drop>(
    alloc: Global,
    instruction: &Arc<Instruction>,
    named: NamedRule,
    rule: Rule<F>,
    lists: &[Vec<Arc<Stem>>],
) -> Result<Parts, EngineFault>
    requires gives { GivesBy F.Fn rule named }
    requires few { length lists.now ≤ 64 }
    ensures instruction { IfOk result (λ parts. parts.instruction ≡ instruction.now.value) }
    ensures cut { IfOk result (HasCut named lists.now) }
    ensures stop { IfErr result (IsStop lists.now) }
{
    match cut_in_turn(alloc, instruction.clone()?, rule, lists) {
        Ok(book) => Ok(book.into_parts()),
        Err(CutFault::Full) => Err(EngineFault::Full),
        Err(CutFault::Memory) => Err(EngineFault::Memory),
    }
}

/// Cuts lists of stems in turn by a named rule, in the files' own order. `Full` if there are more stems than 1,000,000,
/// and `Memory` if an allocation failed.
pub fn cut_by_name(
    alloc: Global,
    instruction: &Arc<Instruction>,
    named: NamedRule,
    lists: &[Vec<Arc<Stem>>],
) -> Result<Parts, EngineFault>
    requires few { length lists.now ≤ 64 }
    ensures instruction { IfOk result (λ parts. parts.instruction ≡ instruction.now.value) }
    ensures cut { IfOk result (HasCut named lists.now) }
    ensures stop { IfErr result (IsStop lists.now) }
{
    let rule = Rule::new(move |s: &Standing| named.price(s));
    cut_by_rule(alloc, instruction, named, rule, lists)
}

/// What is cut by a rule, each list in its turn: in the files' own order, or in that of the draw that begins at a
/// state. `Full` if there are more stems than 1,000,000, and `Memory` if an allocation failed.
pub fn cut_in_order(
    alloc: Global,
    instruction: &Arc<Instruction>,
    named: NamedRule,
    lists: &[Vec<Arc<Stem>>],
    order: Option<u64>,
) -> Result<Parts, EngineFault>
    requires few { length lists.now ≤ 64 }
    ensures ok { IfOk result (HasCutOf named instruction.now.value lists.now order) }
    ensures stop { IfErr result (IsStop lists.now) }
{
    match order {
        None => cut_by_name(alloc, instruction, named, lists),
        Some(start) => {
            let order = order_from(alloc, start, lists)?;
            cut_by_name(alloc, instruction, named, order.as_slice())
        }
    }
}

/// What a posting is worth under the sheet of the base prices.
fn posting_worth(base: &Sheet, posting: &Posting) -> u64
    requires { IsCutUnder base.now posting.now }
    ensures { result ≡ worth_under base.now posting.now }
{
    match posting {
        Posting::Cut(entry) => worth(base, &entry.stem, &entry.cutting),
        Posting::Demand(_) => 0,
    }
}

/// What was cut is worth at base prices, in millionths of the price unit. Refused as `Memory` alone.
pub fn base_worth(alloc: Global, parts: &Parts) -> Result<u128, Memory>
    ensures worth { IfOk result (λ worth.
        worth ≡ sum_by (at_base_in parts.now.instruction) parts.now.postings) }
    ensures low { IfOk result (λ worth. worth < 2 ^ 84) }
{
    let base = Sheet::base(alloc, parts.instruction().clone()?)?;
    let mut all: u128 = 0;
    for posting in parts.entries() {
        all += u128::from(posting_worth(&base, posting));
    }
    Ok(all)
}

/// The degree of each assortment, one for each, in ten-thousandths, or None where there is none: given what is wanted
/// and what was cut of each class, class by class of all assortments. Refused as `Memory` alone.
pub fn degrees_of(
    alloc: Global,
    instruction: &Instruction,
    targets: &[u32],
    counts: &[u32],
) -> Result<Vec<Option<u32>>, Memory>
    requires targets { length targets.now ≡ classes instruction.now }
    requires counts { length counts.now ≡ classes instruction.now }
    ensures { IfOk result (λ degrees. AreDegrees instruction.now targets.now counts.now degrees.items) }
{
    let mut degrees = Vec::new(alloc);
    for at in 0..instruction.assortments().len() {
        degrees.push(degree_at(instruction, targets, counts, at))?;
    }
    Ok(degrees)
}

/// The lesser of two degrees, or the only one.
fn lesser(one: Option<u32>, other: Option<u32>) -> Option<u32>
    ensures { result ≡ lesser one other }
{
    match (one, other) {
        (None, other) => other,
        (one, None) => one,
        (Some(one), Some(other)) => if one <= other { Some(one) } else { Some(other) },
    }
}

/// The least of the degrees that are there; None if none is.
pub fn least_of(degrees: &[Option<u32>]) -> Option<u32>
    ensures { IsLeast degrees.now result }
{
    let mut least = None;
    for degree in degrees {
        least = lesser(least, *degree);
    }
    least
}

/// A planner at base prices.
fn base_planner(alloc: Global, instruction: &Arc<Instruction>) -> Result<Planner, Memory>
    ensures { IfOk result (λ planner. planner ≡ base_sheet instruction.now.value) }
{
    let base = Sheet::base(alloc, instruction.clone()?)?;
    Ok(Planner::make(alloc, Arc::new(alloc, base)?)?)
}

/// What the best cuttings of some stems under a planner's sheet are worth, in millionths of the price unit.
fn list_best(alloc: Global, planner: &mut Planner, stems: &[Arc<Stem>]) -> Result<u128, Memory>
    requires few { length stems.now ≤ MOST_POSTINGS }
    ensures same { planner.new ≡ planner.old }
    ensures best { IfOk result (AreBestOf planner.old stems.now) }
    ensures low { IfOk result (λ worth. worth ≤ length stems.now * 2800000000000000) }
{
    let mut all: u128 = 0;
    for stem in stems {
        let (_, worth) = planner.best(alloc, stem)?;
        all += u128::from(worth);
    }
    Ok(all)
}

/// What the best cuttings at base prices of all stems are worth, in millionths of the price unit: each is planned once.
pub(crate) fn best_worth(
    alloc: Global,
    instruction: &Arc<Instruction>,
    lists: &[Vec<Arc<Stem>>],
) -> Result<u128, Memory>
    requires few { stems_in_all lists.now ≤ MOST_POSTINGS }
    ensures best { IfOk result (AreBest (base_sheet instruction.now.value) lists.now) }
    ensures low { IfOk result (λ worth. worth < 2 ^ 100) }
{
    let mut planner = base_planner(alloc, instruction)?;
    let mut all: u128 = 0;
    for list in lists {
        all += list_best(alloc, &mut planner, list.as_slice())?;
    }
    Ok(all)
}
