//! Why a run failed, and what is said of it.
ghost use Rattle.std.specs.Prelude.{◌≡◌};
ghost use Rattle.buckfleet_engine_files.specs.declared.fault.EngineFault.TheVariants.{Memory};
ghost use Rattle.buckfleet_engine_files.specs.Faults.{status_of, status_or};

use crate::check_fault::CheckFault;
use buck_apt::AptFault;
use buck_book_journal::{JournalFault, ReplayFault};
use buck_fleet_close_fault::CloseFault;
use buck_record::{Memory, Numbered};
use buck_stem::StmFault;
use buckfleet_engine_text::TextFault;
use std::alloc::{AllocError, AllocFailed};
use thiserror::Error;

/// Why a run gave no answer. File 0 is the instruction file, file k the k-th after it.
#[derive(Clone, Copy, Debug, PartialEq, Eq, Error)]
pub enum EngineFault {
    /// A file, by its number from 0, can't be opened or read, or is longer than 67,108,864 bytes.
    #[error("file {file} can't be read")]
    Read { file: u32 },
    /// The output can't be written; a prefix of the text may have been.
    #[error("the output can't be written")]
    Write,
    /// The bytes of the instruction file are refused.
    #[error("the instruction is refused: {0}")]
    Apt(AptFault),
    /// The bytes of a stem file, by its number from 1, are refused.
    #[error("the stems of file {file} are refused: {fault}")]
    Stm { file: u32, fault: StmFault },
    /// The bytes of the journal are refused.
    #[error("the journal is refused: {0}")]
    Journal(JournalFault),
    /// The bytes of one of several journals, by its number from 1, are refused.
    #[error("journal {journal} is refused: {fault}")]
    JournalOf { journal: u32, fault: JournalFault },
    /// The journal isn't lawful for the instruction.
    #[error("the journal is not lawful: {0}")]
    Replay(ReplayFault),
    /// One of several journals, by its number from 1, isn't lawful for the instruction.
    #[error("journal {journal} is not lawful: {fault}")]
    ReplayOf { journal: u32, fault: ReplayFault },
    /// The journal is lawful, but not that of the stem files or of the rule.
    #[error("the journal is lawful, but not as asked: {0}")]
    Check(CheckFault),
    /// There are not 1 to 64 stem files.
    #[error("not 1 to 64 stem files")]
    Seats,
    /// There are more stems than a history has room for, or more postings in several journals together: 1,000,000.
    #[error("the history is full")]
    Full,
    /// The fleet's history and what its harvesters were answered differ.
    #[error("the fleet did not close well: {0}")]
    Close(CloseFault),
    /// An allocation failed. It may come in place of any answer.
    #[error("out of memory")]
    Memory,
}

impl From<AllocError> for EngineFault {
    ghost from_gives = { λ _ e. e ≡ Memory };

    fn from(_e: AllocError) -> EngineFault {
        EngineFault::Memory
    }
}

impl<T: Drop> From<AllocFailed<T>> for EngineFault {
    ghost from_gives = { λ _ e. e ≡ Memory };

    fn from(_e: AllocFailed<T>) -> EngineFault {
        EngineFault::Memory
    }
}

impl From<Memory> for EngineFault {
    ghost from_gives = { λ _ e. e ≡ Memory };

    fn from(_e: Memory) -> EngineFault {
        EngineFault::Memory
    }
}

impl From<TextFault> for EngineFault {
    ghost from_gives = { λ _ e. e ≡ Memory };

    fn from(_e: TextFault) -> EngineFault {
        EngineFault::Memory
    }
}

/// The status of a fault that has a number, and 3 if memory ran out in its place.
fn status_or<F: Numbered>(refused: u8, fault: &F) -> u8
    ensures { result ≡ status_or refused (F.numbers fault.now) }
{
    match fault.numbers().as_slice() {
        [] => 3,
        [_, ..] => refused,
    }
}

/// The exit status of the program after a fault: 1 if a file was refused, 2 if there are not 1 to 64 stem files,
/// 3 if memory or the history's room ran out, also while a file was read, 4 if a journal isn't lawful or isn't
/// that of the stem files or the rule, or a fleet didn't close well, and 5 if a file couldn't be read or the output
/// couldn't be written.
pub fn status(fault: &EngineFault) -> u8
    ensures { result ≡ status_of fault.now }
{
    match fault {
        EngineFault::Read { .. } | EngineFault::Write => 5,
        EngineFault::Apt(fault) => status_or(1, fault),
        EngineFault::Stm { fault, .. } => status_or(1, fault),
        EngineFault::Journal(fault) => status_or(1, fault),
        EngineFault::JournalOf { fault, .. } => status_or(1, fault),
        EngineFault::Replay(fault) => status_or(4, fault),
        EngineFault::ReplayOf { fault, .. } => status_or(4, fault),
        EngineFault::Check(_) => 4,
        EngineFault::Close(fault) => status_or(4, fault),
        EngineFault::Seats => 2,
        EngineFault::Full | EngineFault::Memory => 3,
    }
}
