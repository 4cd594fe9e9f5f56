//! Wrong bodies of the engines over files of one thread.
ghost use Rattle.std.specs.Prelude.{◌≡◌, ◌≢◌, ◌-◌, ◌<◌, length, take, IsOk, Ok, Err};
ghost use Rattle.std.specs.List.{before_first, before_last};
ghost use Rattle.buck_apt_instruction.specs.Instruction.{InstructionParts};
ghost use Rattle.buck_apt.specs.Apt.{apt_of};
ghost use Rattle.buck_book_postings.specs.History.{IsLawful};
ghost use Rattle.buck_book_journal.specs.Journal.{JournalParts, history_of};
ghost use Rattle.buck_book_journal.specs.Reading.{journal_of};
ghost use Rattle.buckfleet_engine_files.specs.Checking.{lawful_line};
ghost use Rattle.buckfleet_engine.specs.run.Bucking.{is_bar};

use buck_apt::AptFault;
use buckfleet_engine::{run_bare, run_buck, run_check};
use buckfleet_engine_files::EngineFault;
use std::alloc::Global;

/// Refuses an instruction that isn't to be refused.
pub fn always_refuses<'x>(alloc: Global, apt: &'x [u8], stm: &'x [u8], out: &mut Vec<u8>)
    requires accepted { IsOk (apt_of apt.now) }
{
    let mut instruction = apt;
    let mut stems = stm;
    let right = run_buck(alloc, &mut instruction, &mut stems, out);
    let wrong: Result<(), EngineFault> = Err(EngineFault::Apt(AptFault::NotApt));
    prove!(right != wrong);
}

/// The instruction goes to the last bar of the input, and is refused for what stands behind its own end.
pub fn bar_last_for_first(alloc: Global, input: &[u8], fault: AptFault, out: &mut Vec<u8>)
    requires wrong { apt_of (before_last is_bar input.now) ≡ Err fault }
    requires differ { apt_of (before_first is_bar input.now) ≢ Err fault }
{
    let mut reader = input;
    let right = run_bare(alloc, &mut reader, out);
    let wrong: Result<(), EngineFault> = Err(EngineFault::Apt(fault));
    prove!(right != wrong);
}

/// The last byte of the instruction file isn't read, and the instruction is refused for want of it.
pub fn last_byte_dropped<'x>(
    alloc: Global,
    apt: &'x [u8],
    stm: &'x [u8],
    fault: AptFault,
    out: &mut Vec<u8>,
)
    requires wrong { apt_of (take (length apt.now - 1) apt.now) ≡ Err fault }
    requires differ { apt_of apt.now ≢ Err fault }
{
    let mut instruction = apt;
    let mut stems = stm;
    let right = run_buck(alloc, &mut instruction, &mut stems, out);
    let wrong: Result<(), EngineFault> = Err(EngineFault::Apt(fault));
    prove!(right != wrong);
}

/// A stem file that can't be read is reported as file 0, the instruction file.
pub fn stem_file_named_as_file_0<'x>(
    alloc: Global,
    apt: &'x [u8],
    stm: &'x [u8],
    out: &mut Vec<u8>,
) {
    let mut instruction = apt;
    let mut stems = stm;
    let outcome = run_buck(alloc, &mut instruction, &mut stems, out);
    let is_read = stems.len() != stm.len();
    let is_wrong = is_read && matches!(outcome, Err(EngineFault::Read { file: 0 }));
    prove!(!is_wrong);
}

/// The stem file is read although the instruction is refused.
pub fn stems_read_before_the_instruction_is_refused<'x>(
    alloc: Global,
    apt: &'x [u8],
    stm: &'x [u8],
    out: &mut Vec<u8>,
) {
    let mut instruction = apt;
    let mut stems = stm;
    let outcome = run_buck(alloc, &mut instruction, &mut stems, out);
    let is_read = stems.len() != stm.len();
    let is_wrong = is_read && matches!(outcome, Err(EngineFault::Apt(_)));
    prove!(!is_wrong);
}

/// Something is written although the stems are refused.
pub fn written_before_all_is_read<'x>(alloc: Global, apt: &'x [u8], stm: &'x [u8]) {
    let mut instruction = apt;
    let mut stems = stm;
    let mut out = Vec::new(alloc);
    let outcome = run_buck(alloc, &mut instruction, &mut stems, &mut out);
    let is_wrong = !out.is_empty() && matches!(outcome, Err(EngineFault::Stm { .. }));
    prove!(!is_wrong);
}

/// A journal is taken for lawful that isn't.
pub fn check_taken_for_lawful<'x>(
    alloc: Global,
    apt: &'x [u8],
    journal: &'x [u8],
    out: &mut Vec<u8>,
)
    requires unlawful { (i : InstructionParts) (j : JournalParts) → apt_of apt.now ≡ Ok i → journal_of journal.now ≡ Ok j
        → ¬ IsLawful (history_of i j) }
{
    let mut instruction = apt;
    let mut postings = journal;
    let right = run_check(alloc, &mut instruction, &mut postings, out);
    let is_refused = right.is_err();
    prove!(is_refused);
}

/// The journal is read although the instruction is refused.
pub fn journal_read_before_the_instruction_is_refused<'x>(
    alloc: Global,
    apt: &'x [u8],
    journal: &'x [u8],
    out: &mut Vec<u8>,
) {
    let mut instruction = apt;
    let mut postings = journal;
    let outcome = run_check(alloc, &mut instruction, &mut postings, out);
    let is_read = postings.len() != journal.len();
    let is_wrong = is_read && matches!(outcome, Err(EngineFault::Apt(_)));
    prove!(!is_wrong);
}

/// An instruction file that is longer than a file may be is read as one.
pub fn longer_file_accepted<'x>(alloc: Global, apt: &'x [u8], stm: &'x [u8], out: &mut Vec<u8>)
    requires long { 67108864 < length apt.now }
{
    let mut instruction = apt;
    let mut stems = stm;
    let right = run_buck(alloc, &mut instruction, &mut stems, out);
    let is_refused = right.is_err();
    prove!(is_refused);
}

/// Another number stands after `LAWFUL` than that of the postings.
pub fn lawful_with_another_number<'x>(alloc: Global, apt: &'x [u8], journal: &'x [u8], wrong: &[u8])
    requires differ { (j : JournalParts) → journal_of journal.now ≡ Ok j → wrong.now ≢ lawful_line (length j.entries) }
{
    let mut instruction = apt;
    let mut postings = journal;
    let mut right = Vec::new(alloc);
    if run_check(alloc, &mut instruction, &mut postings, &mut right).is_ok() {
        prove!(right.as_slice() != wrong);
    }
}
