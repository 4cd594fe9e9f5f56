//! The book of one thread.
ghost use Rattle.std.specs.Prelude.{◌<◌, ◌≤◌};
ghost use Rattle.buck_apt.specs.Instruction.{IsClass};
ghost use Rattle.buck_book.specs.Book.{IsReadyDemand, IsReadyFor};
ghost use Rattle.buck_rule.specs.Stored.{Answers};

use buck_apt::{Class, Instruction};
use buck_book::{
    Book, Demand, DemandRefusal, Entry, Memory, Plan, Posting, Ready, ReadyDemand, Refusal,
    TargetsFault, laws,
};
use buck_dp::Cutting;
use buck_rule::{Rule, Standing};
use buck_stem::Stem;
use buck_value::Sheet;
use std::alloc::Global;
use std::sync::Arc;

/// `buck_book::Plan`: `make`, `stem`, `sheet`, `cutting` and `worth`.
pub fn plan(alloc: Global, sheet: Arc<Sheet>, stem: Arc<Stem>) -> Result<Plan, Memory> {
    let made: Result<Plan, Memory> = Plan::make(alloc, sheet, stem);
    if let Ok(plan) = &made {
        let _stem: &Arc<Stem> = plan.stem();
        let _sheet: &Arc<Sheet> = plan.sheet();
        let _cutting: &Arc<Cutting> = plan.cutting();
        let _worth: u64 = plan.worth();
    }
    made
}

/// `buck_book::Book::open`.
pub fn book_open<F: Fn(&Standing) -> u64>(
    alloc: Global,
    instruction: Arc<Instruction>,
    rule: Rule<F>,
    capacity: u32,
) -> Result<Book<F>, Memory>
    requires { (0 < capacity) × (capacity ≤ 1000000) }
{
    Book::open(alloc, instruction, rule, capacity)
}

/// `buck_book::Book`: `instruction`, `sheet`, `version`, `len`, `capacity`, `count`, `calls`, `entries`, `sheets` and
/// `targets`.
pub fn book<F: Drop>(book: &Book<F>, class: Class, harvester: u32)
    requires class { IsClass book.now.history.instruction class }
    requires harvester { (0 < harvester) × (harvester ≤ 64) }
{
    let _instruction: &Arc<Instruction> = book.instruction();
    let _sheet: &Arc<Sheet> = book.sheet();
    let _version: u32 = book.version();
    let _number: usize = book.len();
    let _capacity: u32 = book.capacity();
    let _count: u32 = book.count(class);
    let _calls: u32 = book.calls(harvester);
    let _entries: &[Posting] = book.entries();
    let _sheets: &[Arc<Sheet>] = book.sheets();
    let _targets: &[u32] = book.targets();
}

/// `buck_book::check_targets`; `buck_book::Book`: `prepare` and `prepare_demand`.
pub fn book_prepares<F: Fn(&Standing) -> u64>(
    book: &mut Book<F>,
    alloc: Global,
    plan: &Plan,
    targets: &Arc<Vec<u32>>,
    instruction: &Instruction,
) -> (Result<Ready, Refusal>, Result<ReadyDemand, DemandRefusal>)
    requires answers { Answers F.Fn book.old.rule }
{
    let wanted = targets.as_slice();
    let _checked: Result<(), TargetsFault> = buck_book::check_targets(instruction, wanted);
    let ready = book.prepare(alloc, plan);
    let ready_demand = book.prepare_demand(alloc, targets);
    (ready, ready_demand)
}

/// `next_sheet` of `buck_book::Ready` and of `buck_book::ReadyDemand`.
pub fn next_sheets(ready: &Ready, ready_demand: &ReadyDemand) {
    let _of_a_cut: Option<&Arc<Sheet>> = ready.next_sheet();
    let _of_a_demand: &Arc<Sheet> = ready_demand.next_sheet();
}

/// `buck_book::Book::commit`.
pub fn book_commit<F: Drop>(book: &mut Book<F>, ready: Ready, harvester: u32, plan: Plan) -> Entry
    requires ready { IsReadyFor book.old ready plan }
    requires harvester { (0 < harvester) × (harvester ≤ 64) }
{
    book.commit(ready, harvester, plan)
}

/// `buck_book::Book::commit_demand`.
pub fn book_commit_demand<F: Drop>(book: &mut Book<F>, ready: ReadyDemand, harvester: u32) -> Demand
    requires ready { IsReadyDemand book.old ready }
    requires harvester { (0 < harvester) × (harvester ≤ 64) }
{
    book.commit_demand(ready, harvester)
}

/// `buck_book::laws`: `prefix_is_lawful` and `one_more_is_lawful`.
pub fn laws_of_books() {
    laws::prefix_is_lawful();
    laws::one_more_is_lawful();
}
