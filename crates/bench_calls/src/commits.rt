//! Times commits of short entries to a book of one thread, in periods of 100: the plans of a period are made before its
//! first commit, so that `prepare` and `commit` are timed by themselves.

ghost use Rattle.std.specs.Prelude.{◌≡◌};
ghost use Rattle.buck_rule.specs.Stored.{Answers};

use crate::input::one_saw_log;
use buck_book::{Book, Plan};
use buck_rule::{Rule, Standing, step};
use buck_stem::Stem;
use buck_value::Sheet;
use std::alloc::Global;
use std::sync::Arc;
use std::time::{Clock, Instant};

/// How many entries make a period of the instruction.
const PERIOD: u32 = 100;

/// The nanoseconds that each call took, by what was called.
#[derive(Drop)]
struct Times {
    /// The clock, read twice with nothing between.
    clock: Vec<u64>,
    /// A plan: the part of each that all plans of a period took.
    plan: Vec<u64>,
    /// `prepare` and `commit` of an entry after which the period goes on.
    within: Vec<u64>,
    /// The same of an entry that ends its period, for which the next sheet is made.
    ending: Vec<u64>,
}

/// The nanoseconds since the clock was read.
fn nanos_since<R: Clock>(rt: &R, start: Instant) -> Option<u64> {
    let took = start.elapsed(rt).ok()?;
    u64::try_from(took.as_nanos()).ok()
}

/// Plans a stem for each entry of a period.
fn plans_of(alloc: Global, sheet: &Arc<Sheet>, stem: &Arc<Stem>) -> Option<Vec<Plan>> {
    let mut plans = Vec::new(alloc);
    for _ in 0..PERIOD {
        let plan = Plan::make(alloc, sheet.clone().ok()?, stem.clone().ok()?).ok()?;
        plans.push(plan).ok()?;
    }
    Some(plans)
}

/// Prepares and commits a plan, and gives the nanoseconds that both took. The entry is let go after that.
fn commit_one<R: Clock, F: Fn(&Standing) -> u64 + Drop>(
    rt: &R,
    alloc: Global,
    book: &mut Book<F>,
    plan: Plan,
) -> Option<u64>
    requires { Answers F.Fn book.old.rule }
    ensures { book.new.rule ≡ book.old.rule }
{
    let Ok(start) = Instant::now(rt) else {
        return None;
    };
    let Ok(ready) = book.prepare(alloc, &plan) else {
        return None;
    };
    let _entry = book.commit(ready, 1, plan);
    nanos_since(rt, start)
}

/// Plans and commits a period.
fn commit_period<R: Clock, F: Fn(&Standing) -> u64 + Drop>(
    rt: &R,
    alloc: Global,
    book: &mut Book<F>,
    stem: &Arc<Stem>,
    times: &mut Times,
) -> Option<()>
    requires { Answers F.Fn book.old.rule }
    ensures { book.new.rule ≡ book.old.rule }
{
    let Ok(start) = Instant::now(rt) else {
        return None;
    };
    times.clock.push(nanos_since(rt, start)?).ok()?;
    let Ok(start) = Instant::now(rt) else {
        return None;
    };
    let plans = plans_of(alloc, book.sheet(), stem)?;
    let nanos = nanos_since(rt, start)? / u64::from(PERIOD);
    times.plan.push(nanos).ok()?;
    for plan in plans {
        let version = book.version();
        let nanos = commit_one(rt, alloc, book, plan)?;
        let kind = if book.version() != version {
            &mut times.ending
        } else {
            &mut times.within
        };
        kind.push(nanos).ok()?;
    }
    Some(())
}

/// Plans and commits so many periods.
fn commit_all<R: Clock, F: Fn(&Standing) -> u64 + Drop>(
    rt: &R,
    alloc: Global,
    book: &mut Book<F>,
    stem: &Arc<Stem>,
    periods: u32,
) -> Option<Times>
    requires { Answers F.Fn book.old.rule }
{
    let mut times = Times {
        clock: Vec::new(alloc),
        plan: Vec::new(alloc),
        within: Vec::new(alloc),
        ending: Vec::new(alloc),
    };
    for _ in 0..periods {
        commit_period(rt, alloc, book, stem, &mut times)?;
    }
    Some(times)
}

/// Prints the least, the median and the 90th percentile of the times of a kind of call, after its name.
fn show(rt: &HostRuntime, name: &str, mut times: Vec<u64>) {
    times.sort_unstable();
    let least = times.first().copied().unwrap_or(0);
    let median = times.get(times.len() / 2).copied().unwrap_or(0);
    let most = times.get(times.len() / 10 * 9).copied().unwrap_or(0);
    let _ = eprintln!(rt; "{name} {least} {median} {most}");
}

/// A stem of 3 m, of which one log is cut.
fn short_stem(alloc: Global) -> Option<Arc<Stem>> {
    let samples = vec![in alloc; 250; 31].ok()?;
    let stem = Stem::make(alloc, 1, 1, samples, Vec::new(alloc)).ok()?;
    Arc::new(alloc, stem).ok()
}

/// Commits so many periods to a new book. It prints how many entries and sheets the book has, and beside it, as errors
/// are, what was measured.
pub fn run(rt: &HostRuntime, periods: u32) -> Option<()> {
    let alloc = rt.alloc();
    let instruction = one_saw_log(alloc)?;
    let stem = short_stem(alloc)?;
    let rule = Rule::new(|s: &Standing| step(s));
    let mut book = Book::open(alloc, instruction, rule, 1_000_000).ok()?;
    let times = commit_all(rt, alloc, &mut book, &stem, periods)?;
    let (entries, sheets) = (book.len(), book.sheets().len());
    let _ = println!(rt; "{entries} entries, {sheets} sheets");
    show(rt, "clock", times.clock);
    show(rt, "plan", times.plan);
    show(rt, "within", times.within);
    show(rt, "ending", times.ending);
    Some(())
}
