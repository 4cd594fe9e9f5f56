//! Cuts a harvest by a fleet, with a thread for each harvester, by the linear rule.

ghost use Rattle.std.specs.Prelude.{◌≡◌, ◌<◌, ◌≤◌, length};

use crate::input::{dealt, instruction_of};
use buck_apt::Instruction;
use buck_book::Plan;
use buck_fleet::{Closed, Fleet, Gate, NoGate, run_fleet};
use buck_rule::{Rule, Standing, linear};
use buck_stem::Stem;
use std::alloc::Global;
use std::marker::Brand;
use std::sync::atomic::{AtomicU64, Ordering};
use std::sync::ledger::{Blank, Ledger};
use std::sync::{Arc, Wait};
use std::thread::Threads;
use std::time::{Clock, Instant};

/// Counts plans.
#[derive(Drop)]
struct Count {
    plans: AtomicU64,
    again: AtomicU64,
}

impl Gate for Count {
    fn planned<R: Wait>(&self, _rt: &R, _harvester: u32, attempt: u8, _plan: &Plan) {
        self.plans.fetch_add(1, Ordering::SeqCst);
        if 1 < attempt {
            self.again.fetch_add(1, Ordering::SeqCst);
        }
    }
}

/// Cuts the lists by a fleet, and gives the closed fleet with the nanoseconds that the run took.
fn run_of<L: Ledger + Send + Sync, R: Threads + Wait + Clock + Sync, G: Gate + Sync>(
    rt: &R,
    alloc: Global,
    blank: Blank,
    instruction: Arc<Instruction>,
    lists: &[Vec<Arc<Stem>>],
    gate: &G,
) -> Option<(Closed, u128)>
    requires blank { (blank.name ≡ L.name) × (blank.parts ≡ L.parts) × (blank.parts ≡ 64) }
    requires lists { (0 < length lists.now) × (length lists.now ≤ 64) }
{
    let rule = Rule::new(|s: &Standing| linear(s));
    let number = lists.len() as u32;
    let Ok((fleet, seats)) = Fleet::<_, L>::open(
        rt,
        alloc,
        blank,
        instruction,
        rule,
        number,
        1_000_000,
    ) else {
        return None;
    };
    let Ok(start) = Instant::now(rt) else {
        return None;
    };
    let Ok(seats) = run_fleet(rt, alloc, &fleet, seats, lists, gate) else {
        return None;
    };
    let Ok(took) = start.elapsed(rt) else {
        return None;
    };
    match fleet.close(seats) {
        Ok(closed) => Some((closed, took.as_nanos())),
        Err(_) => None,
    }
}

/// Cuts the lists by a fleet.
fn cut<R: Threads + Wait + Clock + Sync, G: Gate + Sync>(
    rt: &R,
    alloc: Global,
    instruction: Arc<Instruction>,
    lists: &[Vec<Arc<Stem>>],
    gate: &G,
) -> Option<(Closed, u128)>
    requires { (0 < length lists.now) × (length lists.now ≤ 64) }
{
    let blank = Blank::new(64);
    run_of::<Brand, R, G>(rt, alloc, blank, instruction, lists, gate)
}

/// Cuts the lists by a fleet. Beside it are the nanoseconds that the run took and 0, or how many plans were made without
/// the lock and how many of these weren't made at the first attempt.
fn measured<R: Threads + Wait + Clock + Sync>(
    rt: &R,
    alloc: Global,
    is_time: bool,
    instruction: Arc<Instruction>,
    lists: &[Vec<Arc<Stem>>],
) -> Option<(Closed, u128, u64)>
    requires { (0 < length lists.now) × (length lists.now ≤ 64) }
{
    if is_time {
        let (closed, took) = cut(rt, alloc, instruction, lists, &NoGate)?;
        return Some((closed, took, 0));
    }
    let gate = Count {
        plans: AtomicU64::new(0),
        again: AtomicU64::new(0),
    };
    let (closed, _) = cut(rt, alloc, instruction, lists, &gate)?;
    let plans = gate.plans.load(Ordering::SeqCst);
    Some((closed, u128::from(plans), gate.again.load(Ordering::SeqCst)))
}

/// Times a run of a harvest, or counts its plans. The words: how many harvesters, an instruction file and stem files,
/// whose stems are dealt out to the harvesters in turn. It prints how many entries and sheets the history has, and
/// beside it, as errors are, how many nanoseconds the run took, or how many plans were made without the lock and how
/// many of these not at the first attempt.
pub fn run<R: Threads + Wait + Clock + Sync>(
    rt: &R,
    host: &HostRuntime,
    is_time: bool,
    words: &[String],
) -> Option<()> {
    let harvesters = words.first()?.as_str().parse::<u32>().ok()?;
    let instruction = instruction_of(host, words.get(1)?.as_str())?;
    let lists = dealt(host, words.get(2..)?, harvesters as usize)?;
    if lists.len() == 0 {
        return None;
    }
    if lists.len() > 64 {
        return None;
    }
    let (closed, first, second) = measured(
        rt,
        host.alloc(),
        is_time,
        instruction,
        lists.as_slice(),
    )?;
    let (entries, sheets) = (closed.entries().len(), closed.sheets().len());
    let _ = println!(host; "{entries} entries, {sheets} sheets");
    let _ = eprintln!(host; "{first} {second}");
    Some(())
}
