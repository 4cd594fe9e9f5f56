//! Plays under the saw instruction: what harvesters do in turn.
ghost use Rattle.std.specs.Prelude.{◌≡◌, ◌<◌, ◌≤◌, length, IfOk};
ghost use Rattle.buck_rule.specs.Stored.{AllAnswer};

use crate::play::{Do, PlayFault, played};
use crate::stage::Stage;
use buck_fleet::Closed;
use buck_rule::{Rule, Standing, steady, step};
use fixture_samples::saw_instruction;
use std::alloc::Global;
use std::sync::Wait;
use std::test::Fail;
use std::thread::Threads;

/// A play under the saw instruction with this period in stems, limit per mille and capacity.
pub fn saw_play<F: Fn(&Standing) -> u64 + Drop + Send, R: Threads + Wait + Sync>(
    rt: &R,
    alloc: Global,
    rule: Rule<F>,
    saw: (u32, u32, u32),
    lists: &[Vec<Do<'_>>],
    stage: &Stage,
) -> Result<Closed, Fail>
    requires answers { AllAnswer F.Fn }
    requires lists { (0 < length lists.now) × (length lists.now ≤ 64) }
{
    let instruction = saw_instruction(alloc, saw.0, saw.1, "1 1 1 1")?;
    let closed = played(rt, alloc, instruction, rule, saw.2, lists, stage)?;
    if stage.is_short() {
        return Err(Fail::from(PlayFault::Memory));
    }
    Ok(closed)
}

/// A play of several harvesters, with this period and prices that stay.
pub fn steady_lists<R: Threads + Wait + Sync>(
    rt: &R,
    alloc: Global,
    period: u32,
    lists: &[Vec<Do<'_>>],
    stage: &Stage,
) -> Result<Closed, Fail>
    requires { (0 < length lists.now) × (length lists.now ≤ 64) }
{
    let rule = Rule::new(|s: &Standing| steady(s));
    saw_play(rt, alloc, rule, (period, 0, 100), lists, stage)
}

/// A play of one harvester by a rule, under the saw instruction with this period in stems, limit per mille and capacity.
pub fn lone_play<F: Fn(&Standing) -> u64 + Drop + Send, R: Threads + Wait + Sync>(
    rt: &R,
    alloc: Global,
    rule: Rule<F>,
    saw: (u32, u32, u32),
    whats: &[Do<'_>],
    stage: &Stage,
) -> Result<Closed, Fail>
    requires { AllAnswer F.Fn }
{
    let lists = [Vec::from_slice(alloc, whats)?];
    saw_play(rt, alloc, rule, saw, lists.as_slice(), stage)
}

/// Such a play by the step rule.
pub fn step_play<R: Threads + Wait + Sync>(
    rt: &R,
    alloc: Global,
    saw: (u32, u32, u32),
    whats: &[Do<'_>],
    stage: &Stage,
) -> Result<Closed, Fail> {
    let rule = Rule::new(|s: &Standing| step(s));
    lone_play(rt, alloc, rule, saw, whats, stage)
}
