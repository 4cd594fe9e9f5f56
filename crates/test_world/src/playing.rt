//! Runs that are played in a world and in the plain one: each answer and each world after it are held against each
//! other, and at last the history against what a book of one thread does.
ghost use Rattle.std.specs.Prelude.{◌≡◌};
ghost use Rattle.buck_rule.specs.Stored.{Answers};

use crate::fixtures::*;
use crate::plain::{Plain, does};
use buck_apt_instruction::Instruction;
use buck_book_postings::{Book, Demand, Entry, Plan, Posting};
use buck_fleet_world::{Memory, StepFault, World};
use buck_rule::{Rule, Standing, step};
use std::sync::Arc;
use std::test::Fail;

/// What a harvester does, and the answer.
pub type Event = (Do, Option<StepFault>);

/// Whether a harvester, counted from 0, is at what the plain world says, or isn't there.
fn is_alike_at<F: Drop>(world: &World<F>, plain: &Plain, h: usize) -> bool {
    if h >= plain.harvesters as usize || h >= 3 {
        return true;
    }
    let seat = plain.seats[h];
    is_at(world, h as u32 + 1, seat.place, seat.seen, seat.stale)
}

/// Whether a world is as the plain one.
fn is_alike<F: Drop>(world: &World<F>, plain: &Plain) -> bool {
    world.entries().len() == plain.postings
        && world.version() == plain.version
        && world.front() == plain.front
        && is_alike_at(world, plain, 0)
        && is_alike_at(world, plain, 1)
        && is_alike_at(world, plain, 2)
}

/// Whether the events of a run are answered so in both, and the worlds are alike after each; it is noted if memory was
/// refused.
fn agrees_along<F: Fn(&Standing) -> u64 + Drop>(
    rt: &HostRuntime,
    world: &mut World<F>,
    kit: &Kit,
    plain: &mut Plain,
    run: &[Event],
    is_short: &mut bool,
) -> Result<bool, Memory>
    requires { Answers F.Fn world.old.rule }
    ensures { world.new.rule ≡ world.old.rule }
{
    for (what, want) in run {
        let told = go(rt, world, kit, *what, is_short)?;
        if does(plain, *what) != *want || told != *want || !is_alike(world, plain) {
            return Ok(false);
        }
    }
    Ok(true)
}

/// A plan for an entry's stem under the sheet in force.
fn plan_again<F: Drop>(rt: &HostRuntime, book: &Book<F>, entry: &Entry) -> Result<Plan, Fail> {
    let sheet = book.sheet().clone()?;
    Ok(Plan::make(rt.alloc(), sheet, entry.stem.clone()?)?)
}

/// Whether a book of one thread gives this entry next.
fn gives_entry<F: Fn(&Standing) -> u64 + Drop>(
    rt: &HostRuntime,
    book: &mut Book<F>,
    entry: &Entry,
) -> Result<bool, Fail>
    requires { Answers F.Fn book.old.rule }
    ensures { book.new.rule ≡ book.old.rule }
{
    if entry.harvester == 0 || entry.harvester > 64 {
        return Ok(false);
    }
    let plan = plan_again(rt, book, entry)?;
    let ready = book.prepare(rt.alloc(), &plan)?;
    let given = book.commit(ready, entry.harvester, plan);
    Ok(given.same(entry))
}

/// Whether a book of one thread gives this demand next.
fn gives_demand<F: Fn(&Standing) -> u64 + Drop>(
    rt: &HostRuntime,
    book: &mut Book<F>,
    demand: &Demand,
) -> Result<bool, Fail>
    requires { Answers F.Fn book.old.rule }
    ensures { book.new.rule ≡ book.old.rule }
{
    if demand.harvester == 0 || demand.harvester > 64 {
        return Ok(false);
    }
    let ready = book.prepare_demand(rt.alloc(), &demand.targets)?;
    let given = book.commit_demand(ready, demand.harvester);
    Ok(given.same(demand))
}

/// Whether a book of one thread gives these postings.
fn is_of_one_thread(
    rt: &HostRuntime,
    instruction: &Arc<Instruction>,
    postings: &[Posting],
) -> Result<bool, Fail> {
    let rule = Rule::new(|s: &Standing| step(s));
    let mut book = Book::open(rt.alloc(), instruction.clone()?, rule, 10)?;
    for posting in postings {
        let given = match posting {
            Posting::Cut(entry) => gives_entry(rt, &mut book, entry)?,
            Posting::Demand(demand) => gives_demand(rt, &mut book, demand)?,
        };
        if !given {
            return Ok(false);
        }
    }
    Ok(true)
}

/// Whether a run is right from the opening on, under the kit's instruction, which has the plain world's period; it is
/// noted if memory was refused.
pub fn plays(
    rt: &HostRuntime,
    kit: &Kit,
    opening: Plain,
    run: &[Event],
    is_short: &mut bool,
) -> Result<bool, Fail> {
    let (harvesters, capacity) = (opening.harvesters, opening.capacity);
    if harvesters == 0 || harvesters > 64 || capacity == 0 || capacity > 1_000_000 {
        return Err(Fail::from("there is no such world"));
    }
    let rule = Rule::new(|s: &Standing| step(s));
    let instruction = kit.instruction.clone()?;
    let mut world = World::open(rt.alloc(), instruction, rule, harvesters, capacity)?;
    let mut plain = opening;
    Ok(
        agrees_along(rt, &mut world, kit, &mut plain, run, is_short)?
            && is_of_one_thread(rt, &kit.instruction, world.entries())?,
    )
}
