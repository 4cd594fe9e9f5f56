//! What a caller of one thread writes. The proofs of these functions show that the contracts of `Book` give a caller
//! what the next call asks for.
ghost use Rattle.std.specs.Prelude.{◌≡◌, ◌<◌, ◌≤◌, IfOk, ◌∷◌, [], ◌++◌};
ghost use Rattle.buck_rule.specs.Stored.{Answers};
ghost use Rattle.buck_book_postings.specs.History.{in_force};

use buck_book_postings::{Book, Demand, DemandRefusal, Entry, Plan, Posting, Refusal};
use buck_rule::Standing;
use buck_stem_shape::Stem;
use std::alloc::Global;
use std::sync::Arc;

/// A plan for a stem under the sheet in force.
pub fn plan_for<F: Drop>(alloc: Global, book: &Book<F>, stem: &Arc<Stem>) -> Result<Plan, Refusal>
    ensures { IfOk result (λ plan. (plan.sheet ≡ in_force book.now.history) × (plan.stem ≡ stem.now.value)) }
{
    let sheet = book.sheet().clone()?;
    Ok(Plan::make(alloc, sheet, stem.clone()?)?)
}

/// Plans a stem under the sheet in force, and commits the plan for a harvester from 1 to 64.
pub fn cut<F: Fn(&Standing) -> u64 + Drop>(
    alloc: Global,
    book: &mut Book<F>,
    stem: &Arc<Stem>,
    harvester: u32,
) -> Result<Entry, Refusal>
    requires answers { Answers F.Fn book.old.rule }
    requires harvester { (0 < harvester) × (harvester ≤ 64) }
    ensures rule { book.new.rule ≡ book.old.rule }
{
    let plan = plan_for(alloc, book, stem)?;
    let ready = book.prepare(alloc, &plan)?;
    Ok(book.commit(ready, harvester, plan))
}

/// Puts new targets in force for a harvester from 1 to 64.
pub fn demand<F: Fn(&Standing) -> u64 + Drop>(
    alloc: Global,
    book: &mut Book<F>,
    targets: &Arc<Vec<u32>>,
    harvester: u32,
) -> Result<Demand, DemandRefusal>
    requires answers { Answers F.Fn book.old.rule }
    requires harvester { (0 < harvester) × (harvester ≤ 64) }
    ensures rule { book.new.rule ≡ book.old.rule }
    ensures postings { IfOk result (λ demand. book.new.history.postings ≡ book.old.history.postings ++ Posting.Demand demand ∷ []) }
{
    let ready = book.prepare_demand(alloc, targets)?;
    Ok(book.commit_demand(ready, harvester))
}
