//! Cuts stems some times over into a book of one thread, by the linear rule: each by the planner that is kept,
//! `prepare` and `commit`.

ghost use Rattle.std.specs.Prelude.{◌≡◌};
ghost use Rattle.buck_rule.specs.Stored.{Answers};

use crate::input::{dealt, instruction_of};
use buck_book::{Book, Plan};
use buck_dp::Planner;
use buck_rule::{Rule, Standing, linear};
use buck_stem::Stem;
use std::alloc::Global;
use std::sync::Arc;

/// Cuts a stem under the sheet in force, and gives what the cutting is worth.
fn cut_one<F: Fn(&Standing) -> u64 + Drop>(
    alloc: Global,
    book: &mut Book<F>,
    planner: &mut Planner,
    stem: &Arc<Stem>,
) -> Option<u64>
    requires { Answers F.Fn book.old.rule }
    ensures { book.new.rule ≡ book.old.rule }
{
    if planner.sheet().version() != book.version() {
        planner.renew(alloc, book.sheet().clone().ok()?).ok()?;
    }
    let Ok(plan) = Plan::make_with(alloc, planner, stem.clone().ok()?) else {
        return None;
    };
    let Ok(ready) = book.prepare(alloc, &plan) else {
        return None;
    };
    let entry = book.commit(ready, 1, plan);
    Some(entry.worth)
}

/// Cuts all stems so often, and gives what the cuttings are worth together.
fn cut_often<F: Fn(&Standing) -> u64 + Drop>(
    alloc: Global,
    book: &mut Book<F>,
    stems: &[Arc<Stem>],
    times: u32,
) -> Option<u64>
    requires { Answers F.Fn book.old.rule }
{
    let mut planner = Planner::make(alloc, book.sheet().clone().ok()?).ok()?;
    let mut worth = 0u64;
    for _ in 0..times {
        for stem in stems {
            worth = worth.wrapping_add(cut_one(alloc, book, &mut planner, stem)?);
        }
    }
    Some(worth)
}

/// Cuts the stems of a file. The words: an instruction file, a stem file, and how often the stems are cut. It prints
/// how many entries and sheets the book has, and what all cuttings are worth.
pub fn run(rt: &HostRuntime, words: &[String]) -> Option<()> {
    let instruction = instruction_of(rt, words.first()?.as_str())?;
    let lists = dealt(rt, words.get(1..2)?, 1)?;
    let times = words.get(2)?.as_str().parse::<u32>().ok()?;
    let rule = Rule::new(|s: &Standing| linear(s));
    let mut book = Book::open(rt.alloc(), instruction, rule, 1_000_000).ok()?;
    let worth = cut_often(rt.alloc(), &mut book, lists.first()?.as_slice(), times)?;
    let (entries, sheets) = (book.len(), book.sheets().len());
    let _ = println!(rt; "{entries} entries, {sheets} sheets, {worth}");
    Some(())
}
