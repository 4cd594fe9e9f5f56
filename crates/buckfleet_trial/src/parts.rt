//! Work that is done in parts, each in a thread of its own.
ghost use Rattle.std.specs.Prelude.{◌≡◌, ◌⊎◌, ◌<◌, IfErr, IfOk, Err};
ghost use Rattle.std.specs.List.{Contains};
ghost use Rattle.buckfleet_engine_files.specs.declared.fault.EngineFault.TheVariants.{Memory};
ghost use Rattle.buckfleet_trial.specs.Parts.{AreJoined};

use buckfleet_engine_files::EngineFault;
use std::alloc::Global;

/// How many neighbours of so many a thread works at, of which there are at most so many.
pub fn size_of(number: usize, threads: usize) -> usize
    requires { 0 < threads }
    ensures { 0 < result }
{
    number.div_ceil(threads).max(1)
}

/// What came of the parts of some work, one after the other, or the first fault.
pub fn joined<X: Drop>(
    alloc: Global,
    parts: Vec<Result<Vec<X>, EngineFault>>,
) -> Result<Vec<X>, EngineFault>
    ensures all { IfOk result (λ all. AreJoined parts.items all.items) }
    ensures fault { IfErr result (λ e. (e ≡ Memory) ⊎ Contains parts.items (Err e)) }
{
    let mut all = Vec::new(alloc);
    for part in parts {
        let mut part = part?;
        all.append(&mut part)?;
    }
    Ok(all)
}
