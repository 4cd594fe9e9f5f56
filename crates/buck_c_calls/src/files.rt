//! The calls over the bytes of two files, which keep nothing.
ghost use Rattle.std.specs.Prelude.{◌≡◌, Some, Ok, Err, IfOk, IfErr};
ghost use Rattle.buckfleet_engine.specs.run.Bucking.{AnswersBuck};
ghost use Rattle.buckfleet_engine.specs.run.Checking.{AnswersCheck, AnswersReport};
ghost use Rattle.buck_c_calls.specs.Room.{IsPut};
ghost use Rattle.buck_c_calls.specs.Files.{IsBucked, IsChecked, IsReported};

use crate::book::DONE;
use crate::room::put;
use crate::telling::put_fault;
use buckfleet_engine::{run_buck, run_check, run_report};
use buckfleet_engine_files::EngineFault;
use std::alloc::Global;

/// The version of the calls: it grows by one whenever one of them changes.
const VERSION: u32 = 8;

/// The text of the stems of one file, bucked by the instruction of the other.
fn bucked<'x>(alloc: Global, apt: &'x [u8], stm: &'x [u8]) -> Result<Vec<u8>, EngineFault>
    ensures ok { IfOk result (λ text. AnswersBuck (Some apt.now) (Some stm.now) (Ok text.items)) }
    ensures refused { IfErr result (λ fault. AnswersBuck (Some apt.now) (Some stm.now) (Err fault)) }
{
    let mut apt = apt;
    let mut stm = stm;
    let mut text = Vec::new(alloc);
    match run_buck(alloc, &mut apt, &mut stm, &mut text) {
        Ok(()) => Ok(text),
        // A list takes each text, unless an allocation fails.
        Err(EngineFault::Write) => Err(EngineFault::Memory),
        Err(fault) => Err(fault),
    }
}

/// The line of a journal that is lawful for an instruction.
fn checked<'x>(alloc: Global, apt: &'x [u8], journal: &'x [u8]) -> Result<Vec<u8>, EngineFault>
    ensures ok { IfOk result (λ text. AnswersCheck (Some apt.now) (Some journal.now) (Ok text.items)) }
    ensures refused { IfErr result (λ fault. AnswersCheck (Some apt.now) (Some journal.now) (Err fault)) }
{
    let mut apt = apt;
    let mut journal = journal;
    let mut text = Vec::new(alloc);
    match run_check(alloc, &mut apt, &mut journal, &mut text) {
        Ok(()) => Ok(text),
        // A list takes each text, unless an allocation fails.
        Err(EngineFault::Write) => Err(EngineFault::Memory),
        Err(fault) => Err(fault),
    }
}

/// The report of a journal that is lawful for an instruction.
fn reported<'x>(alloc: Global, apt: &'x [u8], journal: &'x [u8]) -> Result<Vec<u8>, EngineFault>
    ensures ok { IfOk result (λ text. AnswersReport (Some apt.now) (Some journal.now) (Ok text.items)) }
    ensures refused { IfErr result (λ fault. AnswersReport (Some apt.now) (Some journal.now) (Err fault)) }
{
    let mut apt = apt;
    let mut journal = journal;
    let mut text = Vec::new(alloc);
    match run_report(alloc, &mut apt, &mut journal, &mut text) {
        Ok(()) => Ok(text),
        // A list takes each text, unless an allocation fails.
        Err(EngineFault::Write) => Err(EngineFault::Memory),
        Err(fault) => Err(fault),
    }
}

/// The version of the calls.
pub fn buckfleet_version() -> u32
    ensures { result ≡ 8 }
{
    VERSION
}

/// Cuts the stems of a stem file by an instruction file, as the program's `buck` does: the text, or the line of a
/// fault, goes to the start of `out`, and its length to `written`. The answer is the program's exit status, or 6 if
/// `out` is too small: then nothing else is written.
pub fn buckfleet_buck(
    alloc: Global,
    apt: &[u8],
    stm: &[u8],
    out: &mut [u8],
    written: &mut usize,
) -> u8
    ensures { IsPut (IsBucked apt.now stm.now) out.old out.new written.new result }
{
    match bucked(alloc, apt, stm) {
        Ok(text) => put(text.as_slice(), DONE, out, written),
        Err(fault) => put_fault(alloc, &fault, out, written),
    }
}

/// Checks a journal by its instruction, as the program's `check` does: the line of a lawful journal, or of a fault,
/// goes to the start of `out`, and its length to `written`. The answer is the program's exit status, or 6 if `out`
/// is too small: then nothing else is written.
pub fn buckfleet_check(
    alloc: Global,
    apt: &[u8],
    journal: &[u8],
    out: &mut [u8],
    written: &mut usize,
) -> u8
    ensures { IsPut (IsChecked apt.now journal.now) out.old out.new written.new result }
{
    match checked(alloc, apt, journal) {
        Ok(text) => put(text.as_slice(), DONE, out, written),
        Err(fault) => put_fault(alloc, &fault, out, written),
    }
}

/// Reports a journal by its instruction, as the program's `report` does: the report of a lawful journal, or the line
/// of a fault, goes to the start of `out`, and its length to `written`. The answer is the program's exit status, or 6
/// if `out` is too small: then nothing else is written.
pub fn buckfleet_report(
    alloc: Global,
    apt: &[u8],
    journal: &[u8],
    out: &mut [u8],
    written: &mut usize,
) -> u8
    ensures { IsPut (IsReported apt.now journal.now) out.old out.new written.new result }
{
    match reported(alloc, apt, journal) {
        Ok(text) => put(text.as_slice(), DONE, out, written),
        Err(fault) => put_fault(alloc, &fault, out, written),
    }
}
