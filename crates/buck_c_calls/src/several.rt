//! Calls over several files, whose bytes stand one after the other: how these are taken apart, and how a run
//! over them ends.
ghost use Rattle.std.specs.Prelude.{◌≡◌, ◌⊎◌, ◌<◌, ◌≤◌, ◌↔◌, Some, IfOk, IfErr, IsTrue, map, length, sum};
ghost use Rattle.buck_record.specs.Reading.{listed};
ghost use Rattle.buckfleet_engine_files.specs.Faults.{memory_line};
ghost use Rattle.buck_c_calls.specs.Room.{IsPutAs};
ghost use Rattle.buck_c_calls.specs.Turns.{AreFiles};
ghost use Rattle.buck_c_calls.specs.Several.{AreHanded};
ghost use Rattle.buck_c_calls.specs.inner.Stopped.{AreUnhanded, ended, in_terms, out_of_memory, status_in, text_in};

use crate::book::{DONE, MISUSED};
use crate::room::put;
use crate::telling::put_terms_fault;
use buckfleet_engine_files::EngineFault;
use buckfleet_terms_files::TermsFault;
use std::alloc::{AllocError, AllocFailed, Global};

/// Why a call gives no text.
#[derive(Drop)]
pub(crate) enum Stop {
    /// What is handed over isn't as the header says.
    Misused,
    /// The run fails.
    Fault(TermsFault),
}

impl From<AllocError> for Stop {
    ghost from_gives = { λ _ stop. stop ≡ out_of_memory };

    fn from(_e: AllocError) -> Stop {
        Stop::Fault(TermsFault::Run(EngineFault::Memory))
    }
}

impl<T: Drop> From<AllocFailed<T>> for Stop {
    ghost from_gives = { λ _ stop. stop ≡ out_of_memory };

    fn from(_e: AllocFailed<T>) -> Stop {
        Stop::Fault(TermsFault::Run(EngineFault::Memory))
    }
}

/// Files that a call is handed: an instruction file, the file behind it, and those behind that.
#[derive(Drop)]
pub(crate) struct Handed<'x> {
    pub apt: &'x [u8],
    pub other: &'x [u8],
    pub more: Vec<&'x [u8]>,
}

/// Whether files of these lengths are so long together.
#[tactic(auto, using(crate::proofs::Splits::sum_drop, crate::proofs::Splits::sum_behind))]
pub(crate) fn are_lengths(lengths: &[usize], size: usize) -> bool
    ensures { IsTrue result ↔ (sum lengths.now ≡ size) }
{
    // By what is left, because the sum of any lengths may not fit.
    let mut left = size;
    for length in lengths {
        if *length > left {
            return false;
        }
        left -= *length;
    }
    left == 0
}

/// The files of these lengths, which stand one after the other.
pub(crate) fn files_of<'x>(
    alloc: Global,
    bytes: &'x [u8],
    lengths: &[usize],
) -> Result<Vec<&'x [u8]>, AllocError>
    requires { sum lengths.now ≡ length bytes.now }
    ensures { IfOk result (λ files. AreFiles lengths.now bytes.now (map (λ file. file.now) files.items)) }
{
    let mut files = Vec::new(alloc);
    let mut left = bytes;
    for length in lengths {
        let (file, behind) = left.split_at(*length);
        files.push(file)?;
        left = behind;
    }
    Ok(files)
}

/// The files of these lengths, which stand one after the other: at least two.
#[tactic(auto, using(crate::proofs::Handing::handing))]
pub(crate) fn hand_over<'x>(
    alloc: Global,
    bytes: &'x [u8],
    lengths: &[usize],
) -> Result<Handed<'x>, Stop>
    ensures files { IfOk result (λ files. AreHanded lengths.now bytes.now files.apt.now files.other.now
        (map (λ file. Some file.now) files.more.items)) }
    ensures refused { IfErr result (AreUnhanded lengths.now bytes.now) }
{
    if lengths.len() < 2 {
        return Err(Stop::Misused);
    }
    if !are_lengths(lengths, bytes.len()) {
        return Err(Stop::Misused);
    }
    let (apt, behind) = bytes.split_at(lengths[0]);
    let (other, behind) = behind.split_at(lengths[1]);
    let more = files_of(alloc, behind, &lengths[2..])?;
    Ok(Handed { apt, other, more })
}

/// What comes of a run that wrote its text into a list, which takes each text unless an allocation fails.
#[tactic(auto, using(crate::proofs::Ran::ended_so))]
pub(crate) fn ended(outcome: Result<(), TermsFault>, text: Vec<u8>) -> Result<Vec<u8>, Stop>
    ensures { listed result ≡ ended outcome text.items }
{
    match outcome {
        Ok(()) => Ok(text),
        Err(TermsFault::Run(EngineFault::Write)) => {
            Err(Stop::Fault(TermsFault::Run(EngineFault::Memory)))
        }
        Err(fault) => Err(Stop::Fault(fault)),
    }
}

/// The outcome of a run, as one of a run that may also have files beside an instruction.
pub(crate) fn in_terms(outcome: Result<(), EngineFault>) -> Result<(), TermsFault>
    ensures { result ≡ in_terms outcome }
{
    match outcome {
        Ok(()) => Ok(()),
        Err(fault) => Err(TermsFault::Run(fault)),
    }
}

/// Puts what a call answers in the caller's room: the text, the line of a fault, or nothing if it is misused; the
/// line of memory that ran out, if there is none for the fault's own.
pub(crate) fn put_answer(
    alloc: Global,
    answer: Result<Vec<u8>, Stop>,
    out: &mut [u8],
    written: &mut usize,
) -> u8
    ensures { IsPutAs (text_in (listed answer)) (status_in (listed answer)) out.old out.new written.new result
        ⊎ IsPutAs memory_line 3 out.old out.new written.new result }
{
    match answer {
        Ok(text) => put(text.as_slice(), DONE, out, written),
        Err(Stop::Misused) => put(&[], MISUSED, out, written),
        Err(Stop::Fault(fault)) => put_terms_fault(alloc, &fault, out, written),
    }
}
