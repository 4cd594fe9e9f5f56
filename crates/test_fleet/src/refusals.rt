//! What a fleet refuses at its opening, of a plan that isn't its own, and of a run that comes to the capacity.
use buck_fleet::{Closed, NoGate, OpenFault, Path, RunFault};
use buck_rule::{Rule, Standing, steady};
use buck_value::Sheet;
use fixture_plays::callers::{Evening, opened};
use fixture_plays::fixtures::*;
use fixture_plays::play::Do;
use fixture_plays::stage::{Stage, Told};
use fixture_plays::turns::*;
use fixture_samples::saw_instruction;
use std::alloc::Global;
use std::sync::{Arc, Wait};
use std::test::Fail;
use std::thread::Threads;

/// Numbers of seats with capacities, and what opening a fleet with them answers: how many seats it has.
const OPENINGS: [(u32, u32, Result<u32, OpenFault>); 8] = [
    (0, 100, Err(OpenFault::Seats)),
    (65, 100, Err(OpenFault::Seats)),
    (0, 0, Err(OpenFault::Seats)),
    (65, 0, Err(OpenFault::Seats)),
    (1, 0, Err(OpenFault::Capacity)),
    (1, 1_000_001, Err(OpenFault::Capacity)),
    (64, 1_000_000, Ok(64)),
    (1, 1, Ok(1)),
];

/// Whether an opening is answered so.
fn is_opened<R: Wait>(
    rt: &R,
    alloc: Global,
    seats: u32,
    capacity: u32,
    want: Result<u32, OpenFault>,
) -> Result<bool, Fail> {
    let instruction = saw_instruction(alloc, 1, 0, "1 1 1 1")?;
    let rule = Rule::new(|s: &Standing| steady(s));
    let told = opened(rt, alloc, instruction, rule, seats, capacity);
    if told == Err(OpenFault::Memory) {
        return Err(Fail::from(OpenFault::Memory));
    }
    Ok(told == want)
}

#[test]
fn seats_and_capacity(rt: HostRuntime) -> Result<(), Fail> {
    for (seats, capacity, want) in OPENINGS {
        assert!(rt; is_opened(&rt, rt.alloc(), seats, capacity, want)?);
    }
    Ok(())
}

/// A play of a fleet that has cut a stem of 4,000 mm, and shows the sheet of version 1.
fn show_another<R: Threads + Wait + Sync>(
    rt: &R,
    alloc: Global,
    stage: &Stage,
) -> Result<(), Fail> {
    let whats = [Do::Cut(41), Do::Look];
    let _ = step_play(rt, alloc, (1, 500, 100), &whats, stage)?;
    Ok(())
}

/// That sheet.
fn sheet_of_another<R: Threads + Wait + Sync>(rt: &R, alloc: Global) -> Result<Arc<Sheet>, Fail> {
    let stage = Stage::open(alloc)?;
    show_another(rt, alloc, &stage)?;
    Ok(
        stage
            .shown_at(rt, 0)
            .ok_or("nothing shown, or out of memory")?,
    )
}

/// Whether the plan of the other fleet was refused with the sheet in force, and the seat's own was committed.
fn has_refused_plan<R: Wait>(rt: &R, closed: &Closed, stage: &Stage) -> bool {
    let told = [
        (1, Told::Cut(0, 1, Path::Optimistic)),
        (1, Told::Stale(132_535_800)),
        (1, Told::Cut(1, 1, Path::Optimistic)),
    ];
    let postings = [
        Want::Cut(OneLog(0, 3000, 88_357_200)),
        Want::Cut(OneLog(1, 4000, 235_620_000)),
    ];
    stage.has_told(rt, &told)
        && is_shown(&stage.shown_at(rt, 0), 1, [600, 750, 900, 400])
        && is_shown(&stage.shown_at(rt, 1), 1, [600, 750, 300, 1200])
        && has_postings(closed, &postings)
}

/// Whether a plan under the sheet that the stage keeps is refused, as it is another fleet's.
fn refuses_plan<R: Threads + Wait + Sync>(
    rt: &R,
    alloc: Global,
    stage: &Stage,
) -> Result<bool, Fail> {
    let whats = [Do::Cut(31), Do::CommitKept(41), Do::Commit(41)];
    let closed = step_play(rt, alloc, (1, 500, 100), &whats, stage)?;
    Ok(has_refused_plan(rt, &closed, stage))
}

/// A plan of the same version is stale if another fleet's sheet of that version is in force.
#[test]
fn plan_of_another_fleet(rt: HostRuntime) -> Result<(), Fail> {
    let stage = Stage::open(rt.alloc())?;
    stage.show(&rt, sheet_of_another(&rt, rt.alloc())?);
    assert!(rt; refuses_plan(&rt, rt.alloc(), &stage)?);
    Ok(())
}

/// A run of two lists of ten stems with a capacity of five.
fn short_run<R: Threads + Wait + Sync>(rt: &R, alloc: Global) -> Result<Evening, Fail> {
    let lists = lists_of(alloc, 2, 10, 41)?;
    let evening = steady_evening(rt, alloc, 5, lists.as_slice(), &NoGate)?;
    match evening.stopped {
        Some(RunFault::Memory) => Err(Fail::from(RunFault::Memory)),
        _ => Ok(evening),
    }
}

/// Whether it is stopped as `Full`, and the fleet closes well with what was cut.
fn is_full_of_five(evening: &Evening) -> bool {
    evening.stopped == Some(RunFault::Full)
        && evening.closed.entries().len() == 5
        && has_all_kept(&evening.closed)
}

#[test]
fn run_to_the_capacity(rt: HostRuntime) -> Result<(), Fail> {
    let evening = short_run(&rt, rt.alloc())?;
    assert!(rt; is_full_of_five(&evening));
    Ok(())
}
