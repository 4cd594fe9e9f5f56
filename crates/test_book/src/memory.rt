//! Refused memory: a book is then as before, and goes on; what is written, read or judged of a journal is refused as
//! `Memory`, and else as with ample memory. Run with each allocation failing in turn. That a preparation which may be
//! made is refused for nothing else is its contract.
ghost use Rattle.std.specs.Prelude.{◌≡◌};
ghost use Rattle.buck_rule.specs.Stored.{Answers};

use crate::callers::{cut, demand, plan_for};
use crate::fixtures::*;
use buck_book_journal::ReplayFault;
use buck_book_postings::{Book, Plan, Posting};
use buck_book_reader::read_journal;
use buck_book_replay::replay;
use buck_rule::{Rule, Standing, step};
use buck_stem_shape::Stem;
use fixture_samples::{SHORT_JOURNAL, edited, saw_instruction, two_stem_journal};
use std::sync::Arc;
use std::test::Fail;

/// Prepares a plan for a stem, and then cuts it all the same: whether the preparation was refused.
fn cut_again<F: Fn(&Standing) -> u64 + Drop>(
    rt: &HostRuntime,
    book: &mut Book<F>,
    stem: &Arc<Stem>,
) -> Result<bool, Fail>
    requires { Answers F.Fn book.old.rule }
    ensures { book.new.rule ≡ book.old.rule }
{
    let plan = plan_for(rt.alloc(), book, stem)?;
    let is_refused = book.prepare(rt.alloc(), &plan).is_err();
    let _ = cut(rt.alloc(), book, stem, 1)?;
    Ok(is_refused)
}

/// The same with a demand.
fn demand_again<F: Fn(&Standing) -> u64 + Drop>(
    rt: &HostRuntime,
    book: &mut Book<F>,
) -> Result<bool, Fail>
    requires { Answers F.Fn book.old.rule }
    ensures { book.new.rule ≡ book.old.rule }
{
    let targets = targets_of(rt.alloc(), &[0, 0, 0, 4])?;
    let is_refused = book.prepare_demand(rt.alloc(), &targets).is_err();
    let _ = demand(rt.alloc(), book, &targets, 1)?;
    Ok(is_refused)
}

/// Whether a plan is refused as stale, under a sheet that isn't the one of version 3.
fn is_stale<F: Fn(&Standing) -> u64 + Drop>(
    rt: &HostRuntime,
    book: &mut Book<F>,
    plan: &Plan,
) -> Result<bool, Fail>
    requires { Answers F.Fn book.old.rule }
{
    match book.prepare(rt.alloc(), plan) {
        Ok(_) => Ok(false),
        Err(refusal) => reads(rt.alloc(), &refusal, STALE),
    }
}

/// What a plan from before a demand is refused with.
const STALE: &str =
    "the plan was made under another sheet than the one in force, Stale { version: 3 }";

/// What the journal says after two cuts and a demand.
const AFTER: [Part; 7] = [
    BASE,
    LESS_LONG,
    LESS_OF_BOTH,
    Part::Sheet([400, 500, 300, 1200]),
    Part::Cut(1, 0, 800, LONG),
    Part::Cut(2, 1, 600, SHORT),
    Part::Demand(3, 2, [0, 0, 0, 4]),
];

/// Whether a preparation was refused, and whether the journal of a book says this after all, and a plan from before the
/// demand is stale.
fn goes_on<F: Fn(&Standing) -> u64 + Drop>(
    rt: &HostRuntime,
    book: &mut Book<F>,
    stem: &Arc<Stem>,
) -> Result<(bool, bool), Fail>
    requires { Answers F.Fn book.old.rule }
{
    let _ = cut(rt.alloc(), book, stem, 1)?;
    let is_refused = cut_again(rt, book, stem)?;
    let plan = plan_for(rt.alloc(), book, stem)?;
    let is_refused = is_refused | demand_again(rt, book)?;
    let is_right = is_stale(rt, book, &plan)? && has_journal(rt.alloc(), book, &AFTER)?;
    Ok((is_refused, is_right))
}

/// The same of a new book.
fn new_book_goes_on(rt: &HostRuntime) -> Result<(bool, bool), Fail> {
    let stem = short_stem(rt.alloc())?;
    let rule = Rule::new(|s: &Standing| step(s));
    let mut book = Book::open(rt.alloc(), short_saw(rt.alloc(), 1)?, rule, 10)?;
    goes_on(rt, &mut book, &stem)
}

#[test]
fn refused_memory_of_postings(rt: HostRuntime) -> Result<(), Fail> {
    let (is_refused, is_right) = new_book_goes_on(&rt)?;
    assert!(rt; is_right);
    if is_refused {
        return Err(Fail::from("out of memory"));
    }
    Ok(())
}

/// How many postings there are, each of which a second one is made.
fn cloned(postings: &[Posting]) -> Result<usize, Fail> {
    for posting in postings {
        let _ = posting.clone()?;
    }
    Ok(postings.len())
}

/// The numbers of sheets and of postings of the short journal.
fn numbers_read(rt: &HostRuntime) -> Result<(usize, usize), Fail> {
    let journal = read_journal(rt.alloc(), SHORT_JOURNAL.as_bytes())?;
    Ok((journal.sheets.len(), cloned(journal.entries.as_slice())?))
}

#[test]
fn refused_memory_of_a_journal(rt: HostRuntime) -> Result<(), Fail> {
    assert!(rt; numbers_read(&rt)? == (1, 2));
    Ok(())
}

/// Replays the journal of two stems, in which the second cutting is said to be worth this.
fn replayed(rt: &HostRuntime, worth: &str) -> Result<Result<(), ReplayFault>, Fail> {
    let instruction = saw_instruction(rt.alloc(), 1, 500, "1 1 1 1")?;
    let lawful = two_stem_journal(rt.alloc())?;
    let text = edited(rt.alloc(), lawful.as_str(), "132535800", worth)?;
    let journal = read_journal(rt.alloc(), text.as_bytes())?;
    if journal.entries.len() > 2 {
        return Err(Fail::from("more than two postings"));
    }
    Ok(replay(rt.alloc(), &instruction, &journal))
}

#[test]
fn refused_memory_of_a_replay(rt: HostRuntime) -> Result<(), Fail> {
    match replayed(&rt, "132535799")? {
        Err(ReplayFault::Worth { at: 1 }) => Ok(replayed(&rt, "132535800")??),
        Err(fault) => Err(Fail::from(fault)),
        Ok(()) => Err(Fail::from("the journal was found lawful")),
    }
}
