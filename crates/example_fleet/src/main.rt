//! A day of two harvesters on two threads, as a user of the libraries writes it: a fleet is opened, each harvester cuts its
//! list of stems towards one book, one of them puts new targets in force, both cut on, and the fleet is closed.
#![tactic(auto)]

mod texts;

ghost use Rattle.std.specs.Prelude.{◌≡◌, ◌<◌, All, OnOk, length};
ghost use Rattle.buck_rule.specs.Stored.{AllAnswer};
ghost use Rattle.buck_fleet.specs.Fleet.{IsSeatIn};
ghost use Rattle.buck_fleet.specs.Crew.{IsCrew, parts_of};

use buck_apt::{AptFault, Instruction, read_apt};
use buck_book::Posting;
use buck_fleet::{
    CloseFault, Closed, Fleet, NoGate, OpenFault, RetargetFault, RunFault, Seat, run_fleet,
};
use buck_rule::{Rule, Standing, step};
use buck_stem::{Stem, StmFault, read_stm};
use std::alloc::{AllocError, Global};
use std::io;
use std::marker::Brand;
use std::process::ExitCode;
use std::sync::ledger::{Blank, Ledger};
use std::sync::{Arc, Wait};
use std::thread::Threads;
use texts::{INSTRUCTION, STEM, TARGETS};
use thiserror::Error;

/// How many postings the history may have.
const CAPACITY: u32 = 1_000;

/// How many stems each harvester cuts before the new targets, and after them.
const STEMS: usize = 6;

/// Why the day ends early.
#[derive(Debug, Drop, Error)]
enum DayFault {
    #[error("the instruction is refused: {0}")]
    Instruction(#[from] AptFault),
    #[error("the stem is refused: {0}")]
    Stem(#[from] StmFault),
    #[error("there is no stem")]
    NoStem,
    #[error("the fleet isn't opened: {0}")]
    Open(#[from] OpenFault),
    #[error("a harvester stopped: {0}")]
    Run(RunFault),
    #[error("new targets are refused: {0}")]
    Demand(#[from] RetargetFault),
    #[error("the fleet doesn't close well: {0}")]
    Close(CloseFault),
    #[error(transparent)]
    Growth(#[from(alloc)] AllocError),
    #[error(transparent)]
    Output(#[from] io::Error),
}

/// Puts new targets in force by the first seat. It is the same harvester's as before, with its part of the ledger: so the
/// seats are a crew still.
fn demand<L: Ledger, F: Fn(&Standing) -> u64 + Drop, T: Wait>(
    rt: &T,
    alloc: Global,
    fleet: &Fleet<F, L>,
    seats: &mut Vec<Seat<L>>,
    targets: &[u32],
) -> Result<(), DayFault>
    requires answers { AllAnswer F.Fn }
    requires some { 0 < length seats.old.items }
    requires seats { All (IsSeatIn fleet.now) seats.old.items }
    ensures number { OnOk result (length seats.new.items ≡ length seats.old.items) }
    ensures of_fleet { OnOk result (All (IsSeatIn fleet.now) seats.new.items) }
    ensures same_crew { OnOk result (IsCrew fleet.now.seats seats.old.items → IsCrew fleet.now.seats seats.new.items) }
    ensures same_parts { OnOk result (parts_of seats.new.items ≡ parts_of seats.old.items) }
{
    let targets = Arc::new(alloc, Vec::from_slice(alloc, targets)?)?;
    fleet.retarget(rt, alloc, &mut seats[0], targets)?;
    Ok(())
}

/// A day of a fleet whose ledger is named by this blank, of 64 parts. Whoever uses a fleet is generic over the name.
fn day_of<L: Ledger + Send + Sync, F: Fn(&Standing) -> u64 + Drop + Send, T: Threads + Wait + Sync>(
    rt: &T,
    alloc: Global,
    blank: Blank,
    instruction: Arc<Instruction>,
    rule: Rule<F>,
    lists: &[Vec<Arc<Stem>>],
) -> Result<Closed, DayFault>
    requires blank { (blank.name ≡ L.name) × (blank.parts ≡ L.parts) × (blank.parts ≡ 64) }
    requires answers { AllAnswer F.Fn }
    requires lists { length lists.now ≡ 2 }
{
    let (fleet, seats) = Fleet::<F, L>::open(rt, alloc, blank, instruction, rule, 2, CAPACITY)?;
    let mut seats = match run_fleet(rt, alloc, &fleet, seats, lists, &NoGate) {
        Ok(seats) => seats,
        Err((fault, _)) => return Err(DayFault::Run(fault)),
    };
    demand(rt, alloc, &fleet, &mut seats, &TARGETS)?;
    let seats = match run_fleet(rt, alloc, &fleet, seats, lists, &NoGate) {
        Ok(seats) => seats,
        Err((fault, _)) => return Err(DayFault::Run(fault)),
    };
    match fleet.close(seats) {
        Ok(closed) => Ok(closed),
        Err((fault, _)) => Err(DayFault::Close(fault)),
    }
}

/// The same with a new name.
fn day<F: Fn(&Standing) -> u64 + Drop + Send, T: Threads + Wait + Sync>(
    rt: &T,
    alloc: Global,
    instruction: Arc<Instruction>,
    rule: Rule<F>,
    lists: &[Vec<Arc<Stem>>],
) -> Result<Closed, DayFault>
    requires answers { AllAnswer F.Fn }
    requires lists { length lists.now ≡ 2 }
{
    let blank = Blank::new(64);
    day_of::<Brand, F, T>(rt, alloc, blank, instruction, rule, lists)
}

/// A list of like stems.
fn list_of(alloc: Global, stem: &Arc<Stem>) -> Result<Vec<Arc<Stem>>, AllocError> {
    let mut list = Vec::new(alloc);
    for _ in 0..STEMS {
        list.push(stem.clone()?)?;
    }
    Ok(list)
}

/// The day of the two files, by the rule that raises a price by what is wanted and wasn't cut.
fn closed<T: Threads + Wait + Sync>(rt: &T, alloc: Global) -> Result<Closed, DayFault> {
    let instruction = Arc::new(alloc, read_apt(alloc, INSTRUCTION.as_bytes())?)?;
    let mut stems = read_stm(alloc, STEM.as_bytes())?;
    let Some(stem) = stems.pop() else {
        return Err(DayFault::NoStem);
    };
    let stem = Arc::new(alloc, stem)?;
    let lists = [list_of(alloc, &stem)?, list_of(alloc, &stem)?];
    day(
        rt,
        alloc,
        instruction,
        Rule::new(|s: &Standing| step(s)),
        &lists,
    )
}

/// Prints a line for a posting.
fn print_posting(rt: &HostRuntime, posting: &Posting) -> Result<(), DayFault> {
    match posting {
        Posting::Cut(entry) => println!(rt;
            "cut under sheet {}: {} logs, worth {}",
            entry.version,
            entry.cutting.logs.len(),
            entry.worth
        )?,
        Posting::Demand(demand) => println!(rt; "new targets end sheet {}", demand.version)?,
    }
    Ok(())
}

/// Prints the history, and how many replies each harvester kept.
fn print_all(rt: &HostRuntime, closed: &Closed) -> Result<(), DayFault> {
    for posting in closed.entries() {
        print_posting(rt, posting)?;
    }
    for sheet in closed.sheets() {
        print!(rt; "sheet {}:", sheet.version())?;
        for price in sheet.prices() {
            print!(rt; " {price}")?;
        }
        println!(rt;)?;
    }
    for (k, kept) in closed.kept().iter().enumerate() {
        println!(rt; "harvester {}: {} replies", k + 1, kept.len())?;
    }
    Ok(())
}

/// The whole day.
fn run<T: Threads + Wait + Sync>(threads: &T, rt: &HostRuntime) -> Result<(), DayFault> {
    print_all(rt, &closed(threads, rt.alloc())?)
}

fn main(rt: HostRuntime) -> ExitCode {
    match run(&rt, &rt) {
        Ok(()) => ExitCode::SUCCESS,
        Err(fault) => {
            let _ = eprintln!(&rt; "{fault}");
            ExitCode::FAILURE
        }
    }
}
