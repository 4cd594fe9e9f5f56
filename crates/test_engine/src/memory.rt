//! Refused memory: an engine then ends as `Memory` with nothing written, and the next run as with ample memory. Run with
//! each allocation failing in turn.
use crate::work::Engine;
use buckfleet_engine_files::EngineFault;
use std::alloc::Global;
use std::sync::Wait;
use std::test::Fail;
use std::thread::Threads;

/// Whether a run was refused for want of memory, with nothing written; nothing, if it ended otherwise than it may.
fn is_refused<T: Threads + Wait + Sync>(rt: &T, alloc: Global, engine: Engine) -> Option<bool> {
    let run = engine.run_by(rt, alloc, usize::MAX);
    if run.wrote(engine.texts()) {
        return Some(false);
    }
    if run.is_unwritten(EngineFault::Memory) {
        return Some(true);
    }
    None
}

/// Runs an engine, and once more if it was refused memory. Ends with an error if a run ended otherwise than it may,
/// or the second was refused too, and with one that says so if the first was refused.
fn goes_on<T: Threads + Wait + Sync>(rt: &T, alloc: Global, engine: Engine) -> Result<(), Fail> {
    match is_refused(rt, alloc, engine) {
        Some(false) => Ok(()),
        Some(true) if is_refused(rt, alloc, engine) == Some(false) => {
            Err(Fail::from(EngineFault::Memory))
        }
        _ => Err(Fail::from("another answer")),
    }
}

#[test]
fn refused_memory_of_one_input(rt: HostRuntime) -> Result<(), Fail> {
    goes_on(&rt, rt.alloc(), Engine::Bare)
}

#[test]
fn refused_memory_of_two_files(rt: HostRuntime) -> Result<(), Fail> {
    goes_on(&rt, rt.alloc(), Engine::Buck)
}

#[test]
fn refused_memory_of_a_bucking_in_parts(rt: HostRuntime) -> Result<(), Fail> {
    goes_on(&rt, rt.alloc(), Engine::Parts)
}

#[test]
fn refused_memory_of_a_check(rt: HostRuntime) -> Result<(), Fail> {
    goes_on(&rt, rt.alloc(), Engine::Check)
}

#[test]
fn refused_memory_of_a_check_of_files(rt: HostRuntime) -> Result<(), Fail> {
    goes_on(&rt, rt.alloc(), Engine::Tied)
}

#[test]
fn refused_memory_of_a_fleet(rt: HostRuntime) -> Result<(), Fail> {
    goes_on(&rt, rt.alloc(), Engine::Fleet)
}

#[test]
fn refused_memory_of_turns(rt: HostRuntime) -> Result<(), Fail> {
    goes_on(&rt, rt.alloc(), Engine::Turns)
}
