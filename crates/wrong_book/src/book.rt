//! Wrong answers of books.
ghost use Rattle.std.specs.Prelude.{◌≡◌, ◌≢◌, ◌+◌, ◌<◌, ◌↔◌, IsTrue, [], None, Some, length, slice_get};
ghost use Rattle.buck_apt_instruction.specs.Instruction.{IsClass, classes};
ghost use Rattle.buck_rule.specs.Stored.{Answers};
ghost use Rattle.buck_value.specs.Allowed.{IsAllowed, worth_of};
ghost use Rattle.buck_book_postings.specs.Posting.{opening_targets, targets_of, cuts_since_end};
ghost use Rattle.buck_book_postings.specs.Targets.{AreTargets};
ghost use Rattle.buck_book_postings.specs.Counts.{count_of, calls_of};
ghost use Rattle.buck_book_postings.specs.History.{in_force, version_of};
ghost use Rattle.buck_book_postings.specs.Book.{IsReadyFor, IsReadyDemand};
ghost use Rattle.wrong_book.specs.Books.{IsNoAnswerWith, IsNoAnswerWithDemand};

use buck_apt_instruction::{Class, Instruction};
use buck_book_postings::{
    Book, CutFault, Demand, DemandRefusal, Entry, Memory, Plan, Posting, Ready, ReadyDemand,
    Refusal, TargetsFault, check_targets,
};
use buck_rule::{Rule, Standing};
use buck_stem_shape::Stem;
use buck_value::{Log, Sheet};
use std::alloc::Global;
use std::sync::Arc;

/// The sheets are counted in the place of the postings.
pub fn len_counts_sheets<F: Drop>(book: &Book<F>, wrong: usize)
    requires wrong { wrong ≡ length book.now.history.sheets }
    requires differ { length book.now.history.sheets ≢ length book.now.history.postings }
{
    let right = book.len();
    prove!(right != wrong);
}

/// The postings are counted in the place of the ends.
pub fn version_counts_entries<F: Drop>(book: &Book<F>)
    requires { version_of book.now.history ≢ length book.now.history.postings }
{
    let right = book.version() as usize;
    let wrong = book.len();
    prove!(right != wrong);
}

/// The sheet of half the version is said to be in force.
pub fn sheet_of_an_earlier_version<F: Drop>(book: &Book<F>)
    requires { version_of book.now.history ≡ 2 }
{
    let right = book.sheet().version();
    let wrong = 1;
    prove!(right != wrong);
}

/// The stems are counted in the place of the logs.
pub fn counts_stems<F: Drop>(book: &Book<F>, class: Class)
    requires class { IsClass book.now.history.instruction class }
    requires differ { count_of book.now.history.instruction class book.now.history.postings
        ≢ length book.now.history.postings }
{
    let right = book.count(class) as usize;
    let wrong = book.len();
    prove!(right != wrong);
}

/// A refused attempt is counted.
pub fn counts_stale_attempts<F: Fn(&Standing) -> u64 + Drop>(
    alloc: Global,
    book: &mut Book<F>,
    plan: &Plan,
    class: Class,
)
    requires answers { Answers F.Fn book.old.rule }
    requires class { IsClass book.old.history.instruction class }
    requires stale { plan.now.sheet ≢ in_force book.old.history }
{
    let before = u64::from(book.count(class));
    let _refused = book.prepare(alloc, plan).is_err();
    let right = u64::from(book.count(class));
    let wrong = before + 1;
    prove!(right != wrong);
}

/// Every harvester is given the calls of the first.
pub fn calls_of_the_first_harvester<F: Drop>(book: &Book<F>)
    requires { calls_of 1 book.now.history.postings ≢ calls_of 2 book.now.history.postings }
{
    let right = book.calls(2);
    let wrong = book.calls(1);
    prove!(right != wrong);
}

/// The capacity is one too low.
pub fn capacity_less_one<F: Drop>(book: &Book<F>)
    requires { book.now.capacity ≡ 10 }
{
    let right = book.capacity();
    let wrong = 9;
    prove!(right != wrong);
}

/// A book that is given another rule begins again.
pub fn other_rule_begins_anew<F: Drop>(book: Book<F>)
    requires { 0 < length book.history.postings }
{
    let changed = book.with_rule(Rule::none());
    let right = changed.len();
    let wrong = 0;
    prove!(right != wrong);
}

/// The targets in force are those of the instruction, whatever was demanded.
pub fn targets_of_the_opening<F: Drop>(book: &Book<F>, wrong: &[u32])
    requires wrong { wrong.now ≡ opening_targets book.now.history.instruction }
    requires demanded { targets_of book.now.history.instruction book.now.history.postings ≢ wrong.now }
{
    let right = book.targets();
    prove!(right != wrong);
}

/// No postings are returned.
pub fn entries_hidden<F: Drop>(book: &Book<F>)
    requires { 0 < length book.now.history.postings }
{
    let right = book.entries().is_empty();
    let wrong = true;
    prove!(right != wrong);
}

/// The parts of a book have no class counts.
pub fn parts_without_counts<F: Drop>(book: Book<F>)
    requires { 0 < classes book.history.instruction }
{
    let parts = book.into_parts();
    let right = parts.counts().is_empty();
    let wrong = true;
    prove!(right != wrong);
}

/// A full book prepares one plan more.
pub fn prepare_past_capacity<F: Fn(&Standing) -> u64 + Drop>(
    alloc: Global,
    book: &mut Book<F>,
    plan: &Plan,
)
    requires answers { Answers F.Fn book.old.rule }
    requires full { length book.old.history.postings ≡ book.old.capacity }
{
    let right = book.prepare(alloc, plan).is_ok();
    let wrong = true;
    prove!(right != wrong);
}

/// A full book prepares one plan more, which is under the sheet in force.
pub fn in_force_past_capacity<F: Fn(&Standing) -> u64 + Drop>(
    alloc: Global,
    book: &mut Book<F>,
    plan: &Plan,
)
    requires answers { Answers F.Fn book.old.rule }
    requires in_force { plan.now.sheet ≡ in_force book.old.history }
    requires full { length book.old.history.postings ≡ book.old.capacity }
{
    let right = book.prepare_in_force(alloc, plan).is_ok();
    let wrong = true;
    prove!(right != wrong);
}

/// A book below its capacity refuses a plan under the sheet in force as full.
pub fn in_force_full_below_the_capacity<F: Fn(&Standing) -> u64 + Drop>(
    alloc: Global,
    book: &mut Book<F>,
    plan: &Plan,
)
    requires answers { Answers F.Fn book.old.rule }
    requires in_force { plan.now.sheet ≡ in_force book.old.history }
    requires below { length book.old.history.postings < book.old.capacity }
{
    let refused = book.prepare_in_force(alloc, plan);
    let right = matches!(&refused, Err(CutFault::Full));
    let wrong = true;
    prove!(right != wrong);
}

/// A plan under another sheet is prepared.
pub fn prepare_unchecked<F: Fn(&Standing) -> u64 + Drop>(
    alloc: Global,
    book: &mut Book<F>,
    plan: &Plan,
)
    requires answers { Answers F.Fn book.old.rule }
    requires stale { plan.now.sheet ≢ in_force book.old.history }
{
    let right = book.prepare(alloc, plan).is_ok();
    let wrong = true;
    prove!(right != wrong);
}

/// A plan under another sheet of the same version is prepared.
pub fn prepare_by_version<F: Fn(&Standing) -> u64 + Drop>(
    alloc: Global,
    book: &mut Book<F>,
    plan: &Plan,
)
    requires answers { Answers F.Fn book.old.rule }
    requires version { plan.now.sheet.version ≡ version_of book.old.history }
    requires stale { plan.now.sheet ≢ in_force book.old.history }
{
    let right = book.prepare(alloc, plan).is_ok();
    let wrong = true;
    prove!(right != wrong);
}

/// A full book refuses a stale plan as stale.
pub fn prepare_stale_before_full<F: Fn(&Standing) -> u64 + Drop>(
    alloc: Global,
    book: &mut Book<F>,
    plan: &Plan,
)
    requires answers { Answers F.Fn book.old.rule }
    requires full { length book.old.history.postings ≡ book.old.capacity }
{
    let refused = book.prepare(alloc, plan);
    let right = matches!(&refused, Err(Refusal::Stale { in_force: _ }));
    let wrong = true;
    prove!(right != wrong);
}

/// A book below its capacity refuses a plan as full.
pub fn full_below_the_capacity<F: Fn(&Standing) -> u64 + Drop>(
    alloc: Global,
    book: &mut Book<F>,
    plan: &Plan,
)
    requires answers { Answers F.Fn book.old.rule }
    requires below { length book.old.history.postings < book.old.capacity }
{
    let refused = book.prepare(alloc, plan);
    let right = matches!(&refused, Err(Refusal::Full));
    let wrong = true;
    prove!(right != wrong);
}

/// A plan under the sheet in force is refused as stale.
pub fn fresh_plan_is_stale<F: Fn(&Standing) -> u64 + Drop>(
    alloc: Global,
    book: &mut Book<F>,
    plan: &Plan,
)
    requires answers { Answers F.Fn book.old.rule }
    requires fresh { plan.now.sheet ≡ in_force book.old.history }
{
    let refused = book.prepare(alloc, plan);
    let right = matches!(&refused, Err(Refusal::Stale { in_force: _ }));
    let wrong = true;
    prove!(right != wrong);
}

/// A stale plan's own sheet is given back as the one in force.
pub fn stale_carries_plans_sheet<F: Fn(&Standing) -> u64 + Drop>(
    alloc: Global,
    book: &mut Book<F>,
    plan: &Plan,
)
    requires answers { Answers F.Fn book.old.rule }
{
    let Err(Refusal::Stale { in_force }) = book.prepare(alloc, plan) else {
        return;
    };
    let right = in_force.same(plan.sheet());
    let wrong = true;
    prove!(right != wrong);
}

/// No next sheet, though the plan's entry ends the period.
pub fn next_sheet_hidden(ready: &Ready)
    requires { ready.now.next ≢ None }
{
    let right = ready.next_sheet().is_none();
    let wrong = true;
    prove!(right != wrong);
}

/// A price that the closure doesn't answer to how its class stands with the plan's entry, as the base price is or the
/// price by the counts without that entry.
pub fn next_sheet_without_new_entry<F: Fn(&Standing) -> u64 + Drop>(
    alloc: Global,
    book: &mut Book<F>,
    plan: &Plan,
    class: Class,
    wrong: u32,
) -> Result<(), Refusal>
    requires answers { Answers F.Fn book.old.rule }
    requires class { IsClass book.old.history.instruction class }
    requires wrong { IsNoAnswerWith F.Fn book.old plan.now class wrong }
{
    let place = book.instruction().index(class);
    let ready = book.prepare(alloc, plan)?;
    let Some(sheet) = ready.next_sheet() else {
        return Ok(());
    };
    let prices = sheet.prices();
    if place >= prices.len() {
        return Ok(());
    }
    let right = prices[place];
    prove!(right != wrong);
    Ok(())
}

/// A price that the closure doesn't answer to how its class stands by the new targets, as the price by the targets
/// before is.
pub fn sheet_of_demand_by_targets_before<F: Fn(&Standing) -> u64 + Drop>(
    alloc: Global,
    book: &mut Book<F>,
    targets: &Arc<Vec<u32>>,
    class: Class,
    wrong: u32,
) -> Result<(), DemandRefusal>
    requires answers { Answers F.Fn book.old.rule }
    requires class { IsClass book.old.history.instruction class }
    requires wrong { IsNoAnswerWithDemand F.Fn book.old targets.now.value.items class wrong }
{
    let place = book.instruction().index(class);
    let ready = book.prepare_demand(alloc, targets)?;
    let prices = ready.next_sheet().prices();
    if place >= prices.len() {
        return Ok(());
    }
    let right = prices[place];
    prove!(right != wrong);
    Ok(())
}

/// A full book prepares a demand.
pub fn demand_past_capacity<F: Fn(&Standing) -> u64 + Drop>(
    alloc: Global,
    book: &mut Book<F>,
    targets: &Arc<Vec<u32>>,
)
    requires answers { Answers F.Fn book.old.rule }
    requires full { length book.old.history.postings ≡ book.old.capacity }
{
    let right = book.prepare_demand(alloc, targets).is_ok();
    let wrong = true;
    prove!(right != wrong);
}

/// A demand of targets that aren't valid is prepared.
pub fn demand_unchecked<F: Fn(&Standing) -> u64 + Drop>(
    alloc: Global,
    book: &mut Book<F>,
    targets: &Arc<Vec<u32>>,
)
    requires answers { Answers F.Fn book.old.rule }
    requires not_valid { AreTargets book.old.history.instruction targets.now.value.items → ⊥ }
{
    let right = book.prepare_demand(alloc, targets).is_ok();
    let wrong = true;
    prove!(right != wrong);
}

/// A full book tells what is wrong with targets.
pub fn demand_targets_before_full<F: Fn(&Standing) -> u64 + Drop>(
    alloc: Global,
    book: &mut Book<F>,
    targets: &Arc<Vec<u32>>,
)
    requires answers { Answers F.Fn book.old.rule }
    requires full { length book.old.history.postings ≡ book.old.capacity }
{
    let refused = book.prepare_demand(alloc, targets);
    let right = matches!(&refused, Err(DemandRefusal::Targets(_)));
    let wrong = true;
    prove!(right != wrong);
}

/// A target above the largest is let in.
pub fn target_above_the_largest_let_in(instruction: &Instruction) {
    let right = check_targets(instruction, &[1_000_001]).is_ok();
    let wrong = true;
    prove!(right != wrong);
}

/// Fewer targets than classes are let in.
pub fn targets_counted_short(instruction: &Instruction, targets: &[u32])
    requires { length targets.now < classes instruction.now }
{
    let right = check_targets(instruction, targets).is_ok();
    let wrong = true;
    prove!(right != wrong);
}

/// A target too large is reported, though there isn't one for each class.
pub fn range_before_count(instruction: &Instruction, targets: &[u32])
    requires { length targets.now < classes instruction.now }
{
    let refused = check_targets(instruction, targets);
    let right = matches!(&refused, Err(TargetsFault::Range { at: _ }));
    let wrong = true;
    prove!(right != wrong);
}

/// The first entry is replaced by another one, be that lawful.
pub fn commit_replaces_entry<F: Drop>(
    book: &mut Book<F>,
    ready: Ready,
    plan: Plan,
    first: &Posting,
    other: &Posting,
)
    requires ready { IsReadyFor book.old ready plan }
    requires first { slice_get book.old.history.postings 0 ≡ Some first.now }
    requires differ { first.now ≢ other.now }
{
    let _entry = book.commit(ready, 1, plan);
    let Some(found) = book.entries().first() else {
        return;
    };
    let right = found.same(other);
    let wrong = true;
    prove!(right != wrong);
}

/// The targets before stay in force after a demand.
pub fn next_sheet_by_opening_targets<F: Drop>(book: &mut Book<F>, ready: ReadyDemand, wrong: &[u32])
    requires ready { IsReadyDemand book.old ready }
    requires before { wrong.now ≡ targets_of book.old.history.instruction book.old.history.postings }
    requires differ { ready.targets ≢ wrong.now }
{
    let demand = book.commit_demand(ready, 1);
    let right = demand.targets.as_slice();
    prove!(right != wrong);
}

/// The second entry is numbered as the first.
pub fn entry_clone_as_the_first(entry: &Entry) -> Result<(), Memory>
    requires { entry.now.number ≡ 2 }
{
    let again = entry.clone()?;
    let right = again.number;
    let wrong = 1;
    prove!(right != wrong);
    Ok(())
}

/// Two entries of different logs are said to be the same.
pub fn entry_same_without_logs(one: &Entry, two: &Entry)
    requires { one.now.logs ≢ two.now.logs }
{
    let right = one.same(two);
    let wrong = true;
    prove!(right != wrong);
}

/// The second demand has version 0.
pub fn demand_clone_of_version_0(demand: &Demand) -> Result<(), Memory>
    requires { demand.now.version ≡ 2 }
{
    let again = demand.clone()?;
    let right = again.version;
    let wrong = 0;
    prove!(right != wrong);
    Ok(())
}

/// Two demands of different targets are said to be the same.
pub fn demand_same_without_targets(one: &Demand, two: &Demand)
    requires { one.now.targets ≢ two.now.targets }
{
    let right = one.same(two);
    let wrong = true;
    prove!(right != wrong);
}

/// The second posting isn't the same.
pub fn posting_clone_as_the_first(posting: &Posting) -> Result<(), Memory> {
    let again = posting.clone()?;
    let right = again.same(posting);
    let wrong = false;
    prove!(right != wrong);
    Ok(())
}

/// Two postings of different demands are said to be the same.
pub fn posting_same_by_number(one: &Posting, two: &Posting)
    requires { one.now ≢ two.now }
{
    let right = one.same(two);
    let wrong = true;
    prove!(right != wrong);
}

/// Whether a list has no logs.
fn is_empty(logs: &[Log]) -> bool
    ensures { IsTrue result ↔ (logs.now ≡ []) }
{
    logs.is_empty()
}

/// A plan has no logs, though one that is worth something may be cut.
pub fn plan_without_logs(plan: &Plan, log: &Log)
    requires allowed { IsAllowed plan.now.sheet.instruction plan.now.stem log.now }
    requires dear { 0 < worth_of plan.now.sheet plan.now.stem log.now }
{
    let right = is_empty(plan.cutting().logs.as_slice());
    let wrong = true;
    prove!(right != wrong);
}

/// Half of a plan's worth is returned.
pub fn plan_worth_halved(plan: &Plan)
    requires { plan.now.worth ≡ 600 }
{
    let right = plan.worth();
    let wrong = 300;
    prove!(right != wrong);
}

/// Another stem than the one that was asked is planned.
pub fn plan_of_another_stem(
    alloc: Global,
    sheet: Arc<Sheet>,
    stem: Arc<Stem>,
    wrong: &Stem,
) -> Result<(), Memory>
    requires { stem.value ≢ wrong.now }
{
    let plan = Plan::make(alloc, sheet, stem)?;
    let right = plan.stem().same(wrong);
    let wrong = true;
    prove!(right != wrong);
    Ok(())
}

/// A demand ends no period: the version stays.
pub fn targets_without_end<F: Fn(&Standing) -> u64 + Drop>(
    alloc: Global,
    instruction: Arc<Instruction>,
    rule: Rule<F>,
    targets: &Arc<Vec<u32>>,
) -> Result<(), DemandRefusal>
    requires { Answers F.Fn rule }
{
    let mut book = Book::open(alloc, instruction, rule, 10)?;
    let ready = book.prepare_demand(alloc, targets)?;
    let _demand = book.commit_demand(ready, 1);
    let right = book.version();
    let wrong = 0;
    prove!(right != wrong);
    Ok(())
}

/// A next sheet at each stem, whatever the period.
pub fn next_sheet_at_each_stem<F: Fn(&Standing) -> u64 + Drop>(
    alloc: Global,
    book: &mut Book<F>,
    plan: &Plan,
) -> Result<(), Refusal>
    requires answers { Answers F.Fn book.old.rule }
    requires within { cuts_since_end book.old.history.instruction book.old.history.postings + 1
        < book.old.history.instruction.period }
{
    let ready = book.prepare(alloc, plan)?;
    let right = ready.next_sheet().is_some();
    let wrong = true;
    prove!(right != wrong);
    Ok(())
}

/// No next sheet at the end of a period.
pub fn no_next_sheet<F: Fn(&Standing) -> u64 + Drop>(
    alloc: Global,
    book: &mut Book<F>,
    plan: &Plan,
) -> Result<(), Refusal>
    requires answers { Answers F.Fn book.old.rule }
    requires last { cuts_since_end book.old.history.instruction book.old.history.postings + 1
        ≡ book.old.history.instruction.period }
{
    let ready = book.prepare(alloc, plan)?;
    let right = ready.next_sheet().is_none();
    let wrong = true;
    prove!(right != wrong);
    Ok(())
}

/// A demand counts as the first cut of the period that begins with it.
pub fn demand_counts_towards_period<F: Fn(&Standing) -> u64 + Drop>(
    alloc: Global,
    instruction: Arc<Instruction>,
    rule: Rule<F>,
    targets: &Arc<Vec<u32>>,
    stem: Arc<Stem>,
) -> Result<(), DemandRefusal>
    requires answers { Answers F.Fn rule }
    requires two { instruction.value.period ≡ 2 }
{
    let mut book = Book::open(alloc, instruction, rule, 10)?;
    let ready = book.prepare_demand(alloc, targets)?;
    let _demand = book.commit_demand(ready, 1);
    let plan = Plan::make(alloc, book.sheet().clone()?, stem)?;
    let Ok(ready) = book.prepare(alloc, &plan) else {
        return Ok(());
    };
    let right = ready.next_sheet().is_some();
    let wrong = true;
    prove!(right != wrong);
    Ok(())
}
