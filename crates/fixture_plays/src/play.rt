//! Harvesters that play turns on a stage, each in a thread of its own. That they meet the conditions of the fleet's calls
//! by what it hands out is proved.
ghost use Rattle.std.specs.Prelude.{◌≡◌, ℕ, ◌<◌, ◌≤◌, length, All, IfOk, slice_index_or};
ghost use Rattle.buck_rule.specs.Stored.{AllAnswer};
ghost use Rattle.buck_book_postings.specs.History.{IsLawful};
ghost use Rattle.buck_fleet.specs.Seat.{SeatParts};
ghost use Rattle.buck_fleet.specs.Fleet.{IsSeatIn};
ghost use Rattle.buck_fleet.specs.Crew.{IsCrew, parts_of};

use crate::stage::{Stage, Told};
use buck_apt_instruction::Instruction;
use buck_book_postings::Plan;
use buck_fleet::{CloseFault, Closed, CutFault, Fleet, OpenFault, RetargetFault, Seat, TryFault};
use buck_rule::{Rule, Standing};
use buck_stem_shape::Stem;
use buck_value::Sheet;
use std::alloc::Global;
use std::marker::Brand;
use std::sync::ledger::{Blank, Ledger};
use std::sync::{Arc, Wait};
use std::thread::{Threads, for_each_mut};

/// What a harvester does. Stems have so many samples of 250 mm.
#[derive(Clone, Copy)]
pub enum Do<'a> {
    /// Waits until harvester 1 has made so many plans.
    Await(u64),
    Cut(usize),
    /// Commits a plan of its own, made under the sheet that is shown.
    Commit(usize),
    /// Commits a plan made under the first sheet that the stage keeps.
    CommitKept(usize),
    /// Puts new targets in force.
    Retarget(&'a [u32]),
    /// Looks at the newest sheet, and keeps it on the stage.
    Look,
}

/// Why a play didn't come to its end.
#[derive(Debug, Drop)]
pub enum PlayFault {
    Open(OpenFault),
    /// An allocation failed in a call.
    Memory,
    Close(CloseFault),
}

/// A stem with so many samples of 250 mm. None if an allocation failed.
fn stem_of(alloc: Global, samples: usize) -> Option<Arc<Stem>> {
    let samples = vec![in alloc; 250; samples].ok()?;
    let stem = Stem::make(alloc, 1, 1, samples, Vec::new(alloc)).ok()?;
    Arc::new(alloc, stem).ok()
}

/// Cuts a stem.
fn cut<F: Fn(&Standing) -> u64 + Drop, L: Ledger, R: Wait>(
    rt: &R,
    alloc: Global,
    fleet: &Fleet<F, L>,
    seat: &mut Seat<L>,
    samples: usize,
    stage: &Stage,
) -> Told
    requires answers { AllAnswer F.Fn }
    requires seat { IsSeatIn fleet.now seat.old }
    ensures seat { IsSeatIn fleet.now seat.new }
    ensures same { (seat.new.harvester ≡ seat.old.harvester) × (seat.new.parts ≡ seat.old.parts) }
{
    let Some(stem) = stem_of(alloc, samples) else {
        return Told::Memory;
    };
    match fleet.cut(rt, alloc, seat, stem, stage) {
        Ok(reply) => Told::Cut(reply.position, reply.attempts, reply.path),
        Err(CutFault::Full) => Told::Full,
        Err(CutFault::Memory) => Told::Memory,
    }
}

/// Commits a plan.
fn commit<F: Fn(&Standing) -> u64 + Drop, L: Ledger, R: Wait>(
    rt: &R,
    alloc: Global,
    fleet: &Fleet<F, L>,
    seat: &mut Seat<L>,
    plan: Option<Plan>,
    stage: &Stage,
) -> Told
    requires answers { AllAnswer F.Fn }
    requires seat { IsSeatIn fleet.now seat.old }
    ensures seat { IsSeatIn fleet.now seat.new }
    ensures same { (seat.new.harvester ≡ seat.old.harvester) × (seat.new.parts ≡ seat.old.parts) }
{
    let Some(plan) = plan else {
        return Told::Memory;
    };
    match fleet.try_commit(rt, alloc, seat, plan) {
        Ok(reply) => Told::Cut(reply.position, reply.attempts, reply.path),
        Err(TryFault::Full { plan }) => Told::FullForPlan(plan.worth()),
        Err(TryFault::Stale { in_force, plan }) => {
            stage.show(rt, in_force);
            Told::Stale(plan.worth())
        }
        Err(TryFault::Memory { plan: _ }) => Told::Memory,
    }
}

/// A plan under a sheet. None if an allocation failed.
fn plan_for(alloc: Global, sheet: &Arc<Sheet>, samples: usize) -> Option<Plan> {
    Plan::make(alloc, sheet.clone().ok()?, stem_of(alloc, samples)?).ok()
}

/// A plan under the newest sheet that is shown. None if none is shown or an allocation failed.
fn plan_shown<F, L: Ledger>(
    alloc: Global,
    fleet: &Fleet<F, L>,
    seat: &mut Seat<L>,
    samples: usize,
) -> Option<Plan>
    requires seat { IsSeatIn fleet.now seat.old }
    ensures seat { IsSeatIn fleet.now seat.new }
    ensures same { (seat.new.harvester ≡ seat.old.harvester) × (seat.new.parts ≡ seat.old.parts) }
{
    match fleet.snapshot(seat) {
        Some(shown) => plan_for(alloc, shown.sheet(), samples),
        None => None,
    }
}

/// Puts new targets in force.
fn retarget<F: Fn(&Standing) -> u64 + Drop, L: Ledger, R: Wait>(
    rt: &R,
    alloc: Global,
    fleet: &Fleet<F, L>,
    seat: &mut Seat<L>,
    targets: &[u32],
) -> Told
    requires answers { AllAnswer F.Fn }
    requires seat { IsSeatIn fleet.now seat.old }
    ensures seat { IsSeatIn fleet.now seat.new }
    ensures same { (seat.new.harvester ≡ seat.old.harvester) × (seat.new.parts ≡ seat.old.parts) }
{
    let Ok(targets) = Vec::from_slice(alloc, targets) else {
        return Told::Memory;
    };
    let Ok(targets) = Arc::new(alloc, targets) else {
        return Told::Memory;
    };
    match fleet.retarget(rt, alloc, seat, targets) {
        Ok(reply) => Told::Demand(reply.position),
        Err(RetargetFault::Full) => Told::Full,
        Err(RetargetFault::Targets(fault)) => Told::Targets(fault),
        Err(RetargetFault::Memory) => Told::Memory,
    }
}

/// Looks at the newest sheet, and keeps it on the stage.
fn look<F, L: Ledger, R: Wait>(
    rt: &R,
    fleet: &Fleet<F, L>,
    seat: &mut Seat<L>,
    stage: &Stage,
) -> Told
    requires seat { IsSeatIn fleet.now seat.old }
    ensures seat { IsSeatIn fleet.now seat.new }
    ensures same { (seat.new.harvester ≡ seat.old.harvester) × (seat.new.parts ≡ seat.old.parts) }
{
    let Some(shown) = fleet.snapshot(seat) else {
        return Told::NothingShown;
    };
    match shown.sheet().clone() {
        Ok(sheet) => {
            stage.show(rt, sheet);
            Told::Shown(shown.version())
        }
        Err(_) => Told::Memory,
    }
}

/// Does what is said. Returns the answer to the call, if it is one.
fn carry_out<F: Fn(&Standing) -> u64 + Drop, L: Ledger, R: Wait>(
    rt: &R,
    alloc: Global,
    fleet: &Fleet<F, L>,
    seat: &mut Seat<L>,
    what: Do<'_>,
    stage: &Stage,
) -> Option<Told>
    requires answers { AllAnswer F.Fn }
    requires seat { IsSeatIn fleet.now seat.old }
    ensures seat { IsSeatIn fleet.now seat.new }
    ensures same { (seat.new.harvester ≡ seat.old.harvester) × (seat.new.parts ≡ seat.old.parts) }
{
    match what {
        Do::Await(plans) => {
            stage.wait_for_plans(plans);
            None
        }
        Do::Cut(samples) => Some(cut(rt, alloc, fleet, seat, samples, stage)),
        Do::Commit(samples) => {
            let plan = plan_shown(alloc, fleet, &mut *seat, samples);
            Some(commit(rt, alloc, fleet, seat, plan, stage))
        }
        Do::CommitKept(samples) => {
            let plan = match stage.shown_at(rt, 0) {
                Some(sheet) => plan_for(alloc, &sheet, samples),
                None => None,
            };
            Some(commit(rt, alloc, fleet, seat, plan, stage))
        }
        Do::Retarget(targets) => Some(retarget(rt, alloc, fleet, seat, targets)),
        Do::Look => Some(look(rt, fleet, seat, stage)),
    }
}

/// Does what is said, and once more if an allocation failed and the stage asks for it; passes the answer to the stage.
fn play_turn<F: Fn(&Standing) -> u64 + Drop, L: Ledger, R: Wait>(
    rt: &R,
    alloc: Global,
    fleet: &Fleet<F, L>,
    seat: &mut Seat<L>,
    what: Do<'_>,
    stage: &Stage,
)
    requires answers { AllAnswer F.Fn }
    requires seat { IsSeatIn fleet.now seat.old }
    ensures seat { IsSeatIn fleet.now seat.new }
    ensures same { (seat.new.harvester ≡ seat.old.harvester) × (seat.new.parts ≡ seat.old.parts) }
{
    let Some(told) = carry_out(rt, alloc, fleet, &mut *seat, what, stage) else {
        return;
    };
    if !stage.asks_again(&told) {
        stage.tell(rt, seat.harvester(), told);
        return;
    }
    if let Some(told) = carry_out(rt, alloc, fleet, &mut *seat, what, stage) {
        stage.tell(rt, seat.harvester(), told);
    }
}

/// Plays the turns of one seat.
fn play_one<F: Fn(&Standing) -> u64 + Drop, L: Ledger, R: Wait>(
    rt: &R,
    alloc: Global,
    fleet: &Fleet<F, L>,
    seat: &mut Seat<L>,
    turns: &[Do<'_>],
    stage: &Stage,
)
    requires answers { AllAnswer F.Fn }
    requires seat { IsSeatIn fleet.now seat.old }
    ensures seat { IsSeatIn fleet.now seat.new }
    ensures same { (seat.new.harvester ≡ seat.old.harvester) × (seat.new.parts ≡ seat.old.parts) }
{
    for what in turns {
        play_turn(rt, alloc, fleet, &mut *seat, *what, stage);
    }
}

/// Plays the turns of all seats, each in a thread of its own.
fn play_each<
    F: Fn(&Standing) -> u64 + Drop + Send,
    L: Ledger + Send + Sync,
    R: Threads + Wait + Sync,
>(
    rt: &R,
    alloc: Global,
    fleet: &Fleet<F, L>,
    seats: &mut [Seat<L>],
    lists: &[Vec<Do<'_>>],
    stage: &Stage,
)
    requires answers { AllAnswer F.Fn }
    requires lists { length seats.old ≡ length lists.now }
    requires seats { All (IsSeatIn fleet.now) seats.old }
    ensures number { length seats.new ≡ length seats.old }
    ensures each { (i : ℕ) (d : SeatParts) → i < length seats.old →
        ((slice_index_or seats.new i d).harvester ≡ (slice_index_or seats.old i d).harvester)
        × ((slice_index_or seats.new i d).parts ≡ (slice_index_or seats.old i d).parts) }
{
    if seats.len() == 0 {
        return;
    }
    let threads = seats.len();
    for_each_mut(
        rt,
        seats,
        threads,
        &|i: usize, seat: &mut Seat<L>|
            requires { AllAnswer F.Fn × (i < length lists.now) × IsSeatIn fleet.now seat.old }
            ensures { (seat.new.harvester ≡ seat.old.harvester) × (seat.new.parts ≡ seat.old.parts) }
        { play_one(rt, alloc, fleet, seat, lists[i].as_slice(), stage) },
    );
}

/// Plays the turns of all seats, which are a crew afterwards as they were one before.
fn play_all<
    F: Fn(&Standing) -> u64 + Drop + Send,
    L: Ledger + Send + Sync,
    R: Threads + Wait + Sync,
>(
    rt: &R,
    alloc: Global,
    fleet: &Fleet<F, L>,
    seats: &mut [Seat<L>],
    lists: &[Vec<Do<'_>>],
    stage: &Stage,
)
    requires answers { AllAnswer F.Fn }
    requires lists { length seats.old ≡ length lists.now }
    requires seats { All (IsSeatIn fleet.now) seats.old }
    ensures number { length seats.new ≡ length seats.old }
    ensures same_crew { (n : ℕ) → IsCrew n seats.old → IsCrew n seats.new }
    ensures same_parts { parts_of seats.new ≡ parts_of seats.old }
{
    play_each(rt, alloc, fleet, &mut *seats, lists, stage);
}

/// Plays the turns of all seats, and gives the seats back in the order given.
fn seats_played<
    F: Fn(&Standing) -> u64 + Drop + Send,
    L: Ledger + Send + Sync,
    R: Threads + Wait + Sync,
>(
    rt: &R,
    alloc: Global,
    fleet: &Fleet<F, L>,
    seats: Vec<Seat<L>>,
    lists: &[Vec<Do<'_>>],
    stage: &Stage,
) -> Vec<Seat<L>>
    requires answers { AllAnswer F.Fn }
    requires lists { length seats.items ≡ length lists.now }
    requires seats { All (IsSeatIn fleet.now) seats.items }
    ensures same_crew { (n : ℕ) → IsCrew n seats.items → IsCrew n result.items }
    ensures same_parts { parts_of result.items ≡ parts_of seats.items }
{
    let mut seats = seats;
    play_all(rt, alloc, fleet, seats.as_mut_slice(), lists, stage);
    seats
}

/// Opens a fleet with a seat for each list of turns, plays them, and closes it.
fn played_of<
    L: Ledger + Send + Sync,
    F: Fn(&Standing) -> u64 + Drop + Send,
    R: Threads + Wait + Sync,
>(
    rt: &R,
    alloc: Global,
    blank: Blank,
    instruction: Arc<Instruction>,
    rule: Rule<F>,
    capacity: u32,
    lists: &[Vec<Do<'_>>],
    stage: &Stage,
) -> Result<Closed, PlayFault>
    requires blank { (blank.name ≡ L.name) × (blank.parts ≡ L.parts) × (blank.parts ≡ 64) }
    requires answers { AllAnswer F.Fn }
    requires lists { (0 < length lists.now) × (length lists.now ≤ 64) }
    ensures { IfOk result (λ c. (c.history.instruction ≡ instruction.value) × IsLawful c.history) }
{
    let number = lists.len() as u32;
    let (fleet, seats) = match Fleet::<F, L>::open(
        rt,
        alloc,
        blank,
        instruction,
        rule,
        number,
        capacity,
    ) {
        Ok(opened) => opened,
        Err(fault) => return Err(PlayFault::Open(fault)),
    };
    let seats = seats_played(rt, alloc, &fleet, seats, lists, stage);
    match fleet.close(seats) {
        Ok(closed) => Ok(closed),
        Err((fault, _)) => Err(PlayFault::Close(fault)),
    }
}

/// A closed fleet of as many seats as there are lists of turns, 1 to 64, after all turns were played.
pub fn played<F: Fn(&Standing) -> u64 + Drop + Send, R: Threads + Wait + Sync>(
    rt: &R,
    alloc: Global,
    instruction: Arc<Instruction>,
    rule: Rule<F>,
    capacity: u32,
    lists: &[Vec<Do<'_>>],
    stage: &Stage,
) -> Result<Closed, PlayFault>
    requires answers { AllAnswer F.Fn }
    requires lists { (0 < length lists.now) × (length lists.now ≤ 64) }
    ensures { IfOk result (λ c. (c.history.instruction ≡ instruction.value) × IsLawful c.history) }
{
    let blank = Blank::new(64);
    played_of::<Brand, F, R>(rt, alloc, blank, instruction, rule, capacity, lists, stage)
}
