//! The text of a table of trials: the lines of a sweep, and behind each what the draws came to.
ghost use Rattle.std.specs.Prelude.{◌≡◌, ◌<◌, ◌≤◌, ◌^◌, ◌++◌, Bool, IfOk, List, OnOk, codes, length, ℕ};
ghost use Rattle.std.specs.List.{AllZip};
ghost use Rattle.buckfleet_trial_sweep.specs.Table.{head_line, rate_of};
ghost use Rattle.buckfleet_trial.specs.Trial.{AreSpreads, IsFromNothing, costs_in, degrees_in};
ghost use Rattle.buckfleet_trial.specs.Lines.{IsPut, columns_of};

use crate::trial::Drawn;
use buck_apt_instruction::Instruction;
use buck_page_cells::{Change, put_spread, spread_of};
use buck_page_text::half_up;
use buck_record::Memory;
use buckfleet_trial_sweep::put_head;
use std::alloc::Global;

/// The names of the columns of draws.
const DRAWN: &[u8] =
    b",least_degree_min,least_degree_mean,least_degree_max,cost_min,cost_mean,cost_max";

/// A line without its line feed.
pub fn open_line(line: &[u8]) -> &[u8]
    ensures { (own : List ℕ) → line.now ≡ own ++ codes "\n" → result.now ≡ own }
{
    match line.split_last() {
        Some((_, rest)) => rest,
        None => line,
    }
}

/// Puts the first line, which names the columns.
pub fn put_first(
    alloc: Global,
    out: &mut Vec<u8>,
    instruction: &Instruction,
    has_draws: bool,
) -> Result<(), Memory>
    ensures { OnOk result ((own : List ℕ) → head_line instruction.now ≡ own ++ codes "\n"
        → out.new.items ≡ out.old.items ++ (own ++ (columns_of has_draws ++ codes "\n"))) }
{
    let mut head = Vec::new(alloc);
    put_head(alloc, &mut head, instruction)?;
    out.extend_from_slice(open_line(head.as_slice()))?;
    if has_draws {
        out.extend_from_slice(DRAWN)?;
    }
    out.extend_from_slice(b"\n")?;
    Ok(())
}

/// What steering cost of what the best cuttings are worth, in ten-thousandths, to the nearest; 0 if they are worth
/// nothing.
pub fn cost_of(best: u128, at_base: u128) -> u128
    requires { best < 2 ^ 100 }
    ensures cost { result ≡ rate_of best at_base }
    ensures low { result ≤ 10000 }
{
    if best == 0 {
        return 0;
    }
    half_up(10_000 * best.saturating_sub(at_base), best)
}

/// A number that is there, as a change from 0.
fn from_nothing(number: Option<u32>) -> Option<Change>
    ensures { IsFromNothing number result }
{
    match number {
        Some(number) => Some(Change::to(u128::from(number))),
        None => None,
    }
}

/// The least degrees of some draws.
fn degrees_in(alloc: Global, drawn: &[Drawn]) -> Result<Vec<Option<Change>>, Memory>
    ensures { IfOk result (λ changes. AllZip IsFromNothing (degrees_in drawn.now) changes.items) }
{
    let mut degrees = Vec::new(alloc);
    for one in drawn {
        degrees.push(from_nothing(one.least))?;
    }
    Ok(degrees)
}

/// What steering cost in some draws.
fn costs_in(alloc: Global, drawn: &[Drawn], best: u128) -> Result<Vec<Option<Change>>, Memory>
    requires { best < 2 ^ 100 }
    ensures { IfOk result (λ changes. AllZip IsFromNothing (costs_in best drawn.now) changes.items) }
{
    let mut costs = Vec::new(alloc);
    for one in drawn {
        costs.push(Some(Change::to(cost_of(best, one.at_base))))?;
    }
    Ok(costs)
}

/// Puts what the draws of a combination came to, if there are some.
fn put_drawn(alloc: Global, out: &mut Vec<u8>, drawn: &[Drawn], best: u128) -> Result<(), Memory>
    requires few { length drawn.now ≤ 65535 }
    requires low { best < 2 ^ 100 }
    ensures { OnOk result ((spreads : List ℕ) × AreSpreads best drawn.now spreads
        × (out.new.items ≡ out.old.items ++ spreads)) }
{
    if drawn.is_empty() {
        return Ok(());
    }
    let degrees = degrees_in(alloc, drawn)?;
    put_spread(out, spread_of(degrees.as_slice()))?;
    let costs = costs_in(alloc, drawn, best)?;
    put_spread(out, spread_of(costs.as_slice()))
}

/// Puts the line of a combination, and behind it what its draws came to, if there are some.
pub fn put_line(
    alloc: Global,
    out: &mut Vec<u8>,
    line: &[u8],
    drawn: &[Drawn],
    best: u128,
) -> Result<(), Memory>
    requires few { length drawn.now ≤ 65535 }
    requires low { best < 2 ^ 100 }
    ensures { OnOk result (IsPut best line.now drawn.now out.old.items out.new.items) }
{
    out.extend_from_slice(open_line(line))?;
    put_drawn(alloc, out, drawn, best)?;
    out.extend_from_slice(b"\n")?;
    Ok(())
}
