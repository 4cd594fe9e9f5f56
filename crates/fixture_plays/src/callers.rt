//! What callers of a fleet write: that they meet its conditions by what it hands out is proved.
ghost use Rattle.std.specs.Prelude.{◌≡◌, ◌<◌, ◌≤◌, length, IfOk};
ghost use Rattle.buck_rule.specs.Stored.{AllAnswer};
ghost use Rattle.buck_book_postings.specs.History.{IsLawful};
ghost use Rattle.buck_fleet.specs.Crew.{IsCrew, parts_of};

use buck_apt_instruction::Instruction;
use buck_fleet::{CloseFault, Closed, Fleet, Gate, OpenFault, RunFault, Seat, run_fleet};
use buck_rule::{Rule, Standing};
use buck_stem_shape::Stem;
use std::alloc::Global;
use std::marker::Brand;
use std::sync::ledger::{Blank, Ledger};
use std::sync::{Arc, Wait};
use std::thread::Threads;

/// Why there is no closed fleet at the end of a day, or not all stems were cut.
#[derive(Debug, Drop)]
pub enum DayFault {
    Open(OpenFault),
    Run(RunFault),
    Close(CloseFault),
}

/// A fleet closed at the end of a day, and why a harvester stopped before.
#[derive(Drop)]
pub struct Evening {
    pub closed: Closed,
    pub stopped: Option<RunFault>,
}

/// Closes a fleet.
fn close_day<F: Drop, L: Ledger>(
    fleet: Fleet<F, L>,
    seats: Vec<Seat<L>>,
    stopped: Option<RunFault>,
) -> Result<Evening, DayFault>
    requires crew { IsCrew fleet.seats seats.items }
    requires parts { parts_of seats.items ≡ L.parts }
    ensures { IfOk result (λ e. (e.closed.history.instruction ≡ fleet.instruction) × IsLawful e.closed.history) }
{
    match fleet.close(seats) {
        Ok(closed) => Ok(Evening { closed, stopped }),
        Err((fault, _)) => Err(DayFault::Close(fault)),
    }
}

/// Opens a fleet with a seat for each list, cuts the lists, and closes it, also if harvesters stopped.
fn day_of<
    L: Ledger + Send + Sync,
    F: Fn(&Standing) -> u64 + Drop + Send,
    R: Threads + Wait + Sync,
    G: Gate + Sync,
>(
    rt: &R,
    alloc: Global,
    blank: Blank,
    instruction: Arc<Instruction>,
    rule: Rule<F>,
    capacity: u32,
    lists: &[Vec<Arc<Stem>>],
    gate: &G,
) -> Result<Evening, DayFault>
    requires blank { (blank.name ≡ L.name) × (blank.parts ≡ L.parts) × (blank.parts ≡ 64) }
    requires answers { AllAnswer F.Fn }
    requires lists { (0 < length lists.now) × (length lists.now ≤ 64) }
    ensures { IfOk result (λ e. (e.closed.history.instruction ≡ instruction.value) × IsLawful e.closed.history) }
{
    let number = lists.len() as u32;
    let (fleet, seats) = match Fleet::<F, L>::open(
        rt,
        alloc,
        blank,
        instruction,
        rule,
        number,
        capacity,
    ) {
        Ok(opened) => opened,
        Err(fault) => return Err(DayFault::Open(fault)),
    };
    match run_fleet(rt, alloc, &fleet, seats, lists, gate) {
        Ok(seats) => close_day(fleet, seats, None),
        Err((fault, seats)) => close_day(fleet, seats, Some(fault)),
    }
}

/// A day of a fleet with a seat for each list, 1 to 64, and room for so many postings.
pub fn till_evening<
    F: Fn(&Standing) -> u64 + Drop + Send,
    R: Threads + Wait + Sync,
    G: Gate + Sync,
>(
    rt: &R,
    alloc: Global,
    instruction: Arc<Instruction>,
    rule: Rule<F>,
    capacity: u32,
    lists: &[Vec<Arc<Stem>>],
    gate: &G,
) -> Result<Evening, DayFault>
    requires answers { AllAnswer F.Fn }
    requires lists { (0 < length lists.now) × (length lists.now ≤ 64) }
    ensures { IfOk result (λ e. (e.closed.history.instruction ≡ instruction.value) × IsLawful e.closed.history) }
{
    let blank = Blank::new(64);
    day_of::<Brand, F, R, G>(rt, alloc, blank, instruction, rule, capacity, lists, gate)
}

/// Opens a fleet, and says how many seats it has.
fn seats_of<L: Ledger, F: Fn(&Standing) -> u64 + Drop, R: Wait>(
    rt: &R,
    alloc: Global,
    blank: Blank,
    instruction: Arc<Instruction>,
    rule: Rule<F>,
    seats: u32,
    capacity: u32,
) -> Result<u32, OpenFault>
    requires blank { (blank.name ≡ L.name) × (blank.parts ≡ L.parts) × (blank.parts ≡ 64) }
    ensures { IfOk result (λ n. n ≡ seats) }
{
    let (_fleet, seats) = Fleet::<F, L>::open(
        rt,
        alloc,
        blank,
        instruction,
        rule,
        seats,
        capacity,
    )?;
    Ok(seats.len() as u32)
}

/// How many seats a fleet has that is opened with so many seats and this capacity.
pub fn opened<F: Fn(&Standing) -> u64 + Drop, R: Wait>(
    rt: &R,
    alloc: Global,
    instruction: Arc<Instruction>,
    rule: Rule<F>,
    seats: u32,
    capacity: u32,
) -> Result<u32, OpenFault>
    ensures { IfOk result (λ n. n ≡ seats) }
{
    let blank = Blank::new(64);
    seats_of::<Brand, F, R>(rt, alloc, blank, instruction, rule, seats, capacity)
}
