//! From lists of stems to the closed fleet that cut them.
ghost use Rattle.std.specs.Prelude.{◌≡◌, ◌<◌, ◌≤◌, length, IfOk, IfErr};
ghost use Rattle.buck_rule.specs.Stored.{AllAnswer};
ghost use Rattle.buck_fleet.specs.Crew.{IsCrew, parts_of};
ghost use Rattle.buck_fleet.specs.Closed.{IsOneHistory};
ghost use Rattle.buckfleet_engine_input.specs.Harvest.{IsCuttingFault};
ghost use Rattle.buckfleet_engine.specs.inner.Fleet.{HasCutLists};

use buck_apt_instruction::Instruction;
use buck_book_postings::{MOST_POSTINGS, Plan};
use buck_fleet::{Closed, Fleet, Gate, OpenFault, RunFault, Seat, run_fleet};
use buck_rule::{Rule, Standing};
use buck_stem_shape::Stem;
use buckfleet_engine_files::{EngineFault, Onlooker};
use std::alloc::Global;
use std::marker::Brand;
use std::sync::ledger::{Blank, Ledger};
use std::sync::{Arc, Wait};
use std::thread::Threads;

/// A gate that tells an onlooker of the first plan for each stem; a stem that must be planned again is reported once.
#[derive(Drop)]
struct Seen<'a, O> {
    by: &'a O,
}

impl<'a, O: Onlooker> Gate for Seen<'a, O> {
    fn planned<R: Wait>(&self, _rt: &R, _harvester: u32, attempt: u8, _plan: &Plan) {
        if attempt == 1 {
            self.by.planned();
        }
    }
}

/// Closes a fleet.
fn close<F: Drop, L: Ledger>(fleet: Fleet<F, L>, seats: Vec<Seat<L>>) -> Result<Closed, EngineFault>
    requires crew { IsCrew fleet.seats seats.items }
    requires parts { parts_of seats.items ≡ L.parts }
    ensures ok { IfOk result (λ closed. IsOneHistory fleet.instruction fleet.seats seats.items closed
        × (length closed.history.postings ≤ MOST_POSTINGS)) }
    ensures fault { IfErr result IsCuttingFault }
{
    match fleet.close(seats) {
        Ok(closed) => {
            let _few = closed.entries();
            Ok(closed)
        }
        Err((fault, _)) => Err(EngineFault::Close(fault)),
    }
}

/// Why a fleet stopped, as a fault of the run.
fn fault_of(fault: RunFault) -> EngineFault
    ensures { IsCuttingFault result }
{
    match fault {
        RunFault::Full => EngineFault::Full,
        RunFault::Memory => EngineFault::Memory,
    }
}

/// Cuts one list of stems by each harvester of a fleet whose ledger this blank names, and closes it.
fn cut_with<
    L: Ledger + Send + Sync,
    F: Fn(&Standing) -> u64 + Drop + Send,
    T: Threads + Wait + Sync,
    O: Onlooker + Sync,
>(
    rt: &T,
    alloc: Global,
    blank: Blank,
    instruction: Arc<Instruction>,
    rule: Rule<F>,
    lists: &[Vec<Arc<Stem>>],
    onlooker: &O,
) -> Result<Closed, EngineFault>
    requires blank { (blank.name ≡ L.name) × (blank.parts ≡ L.parts) × (blank.parts ≡ 64) }
    requires answers { AllAnswer F.Fn }
    requires lists { (0 < length lists.now) × (length lists.now ≤ 64) }
    ensures ok { IfOk result (λ closed. HasCutLists instruction.value lists.now closed.history) }
    ensures fault { IfErr result IsCuttingFault }
{
    let number = lists.len() as u32;
    let (fleet, seats) = match Fleet::<F, L>::open(
        rt,
        alloc,
        blank,
        instruction,
        rule,
        number,
        MOST_POSTINGS,
    ) {
        Ok(opened) => opened,
        Err(OpenFault::Memory) => return Err(EngineFault::Memory),
        Err(_) => unreachable!(),
    };
    let gate = Seen { by: onlooker };
    match run_fleet(rt, alloc, &fleet, seats, lists, &gate) {
        Ok(seats) => close(fleet, seats),
        Err((fault, _)) => Err(fault_of(fault)),
    }
}

/// Cuts one list of stems by each harvester of a fleet, each in a thread of its own, and closes it.
pub(crate) fn cut_lists<
    F: Fn(&Standing) -> u64 + Drop + Send,
    T: Threads + Wait + Sync,
    O: Onlooker + Sync,
>(
    rt: &T,
    alloc: Global,
    instruction: Instruction,
    rule: Rule<F>,
    lists: &[Vec<Arc<Stem>>],
    onlooker: &O,
) -> Result<Closed, EngineFault>
    requires answers { AllAnswer F.Fn }
    requires lists { (0 < length lists.now) × (length lists.now ≤ 64) }
    ensures ok { IfOk result (λ closed. HasCutLists instruction lists.now closed.history) }
    ensures fault { IfErr result IsCuttingFault }
{
    let instruction = Arc::new(alloc, instruction)?;
    let blank = Blank::new(64);
    cut_with::<Brand, F, T, O>(rt, alloc, blank, instruction, rule, lists, onlooker)
}
