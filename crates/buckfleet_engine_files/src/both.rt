//! An instruction file and a journal that were both read, and the replay of the one by the other.
ghost use Rattle.std.specs.Prelude.{◌≡◌, ◌≢◌, ◌≤◌, length, Ok, OnOk, IfOk, IfErr};
ghost use Rattle.buck_apt.specs.Apt.{apt_of};
ghost use Rattle.buck_book_postings.specs.History.{HistoryParts, IsLawful};
ghost use Rattle.buck_book_journal.specs.Reading.{journal_of};
ghost use Rattle.buck_book_journal.specs.Journal.{history_of};
ghost use Rattle.buck_book_replay.specs.Replay.{IsFirstFault};
ghost use Rattle.buckfleet_engine_files.specs.Checking.{IsJournalFault, IsUnlawful, lawful_line};
ghost use Rattle.buckfleet_engine_files.specs.Reading.{IfStopped, Says};
ghost use Rattle.buckfleet_engine_files.specs.Checking.{IsReadFault};
ghost use Rattle.buckfleet_engine_files.specs.Reading.{AreRefused};
ghost use Rattle.buck_book_postings.specs.declared.posting.TheConstants.{MOST_POSTINGS};

use crate::fault::EngineFault;
use crate::reading::{read_file, read_instruction};
use crate::workers::{OneThread, Workers};
use buck_apt_instruction::Instruction;
use buck_book_journal::{Journal, JournalFault, ReplayFault};
use buck_book_replay::replay;
use buck_record::{Memory, put_line};
use std::alloc::Global;
use std::io;
use std::sync::Arc;

/// The journal of the bytes of file 1.
fn journal_in<T: Workers>(workers: &T, alloc: Global, bytes: &[u8]) -> Result<Journal, EngineFault>
    requires share { T.can_share }
    ensures ok { IfOk result (λ journal. journal_of bytes.now ≡ Ok journal) }
    ensures few { IfOk result (λ journal. length journal.entries ≤ MOST_POSTINGS) }
    ensures refused { IfErr result (AreRefused EngineFault.Journal journal_of bytes.now) }
{
    match workers.read_journal(alloc, bytes) {
        Ok(journal) => Ok(journal),
        Err(JournalFault::Memory) => Err(EngineFault::Memory),
        Err(fault) => Err(EngineFault::Journal(fault)),
    }
}

/// The journal that the journal's file has.
pub fn read_postings<T: Workers, R: io::Read>(
    workers: &T,
    alloc: Global,
    reader: &mut R,
) -> Result<Journal, EngineFault>
    requires share { T.can_share }
    ensures ok { IfOk result (λ journal. Says journal_of (R.remaining reader.old) (Ok journal)) }
    ensures few { IfOk result (λ journal. length journal.entries ≤ MOST_POSTINGS) }
    ensures refused { IfErr result (IsJournalFault (R.remaining reader.old)) }
{
    let bytes = read_file(alloc, reader, 1)?;
    journal_in(workers, alloc, bytes.as_slice())
}

/// An instruction and a journal, as both were read.
#[derive(Drop)]
pub struct Both {
    pub instruction: Arc<Instruction>,
    pub journal: Journal,
}

/// The instruction and the journal that two files have. The instruction file is refused, if it must be, before the
/// journal is read.
pub fn read_own<R: io::Read>(
    alloc: Global,
    apt: &mut R,
    journal: &mut R,
) -> Result<Both, EngineFault>
    ensures instruction { IfOk result (λ both. Says apt_of (R.remaining apt.old) (Ok both.instruction.value)) }
    ensures journal { IfOk result (λ both. Says journal_of (R.remaining journal.old) (Ok both.journal)) }
    ensures few { IfOk result (λ both. length both.journal.entries ≤ MOST_POSTINGS) }
    ensures refused { IfErr result (IsReadFault (R.remaining apt.old) (R.remaining journal.old)) }
    ensures order { IfErr result (IfStopped (λ last. last ≡ 0 → journal.new ≡ journal.old)) }
{
    let instruction = Arc::new(alloc, read_instruction(alloc, apt)?)?;
    let journal = read_postings(&OneThread, alloc, journal)?;
    Ok(Both {
        instruction,
        journal,
    })
}

/// Whether the journal is lawful for the instruction.
pub fn replay_both(alloc: Global, both: &Both) -> Result<(), ReplayFault>
    requires few { length both.now.journal.entries ≤ MOST_POSTINGS }
    ensures lawful { OnOk result (IsLawful (history_of both.now.instruction.value both.now.journal)) }
    ensures refused { IfErr result (λ why.
        why ≢ ReplayFault.Memory → IsFirstFault (history_of both.now.instruction.value both.now.journal) why) }
{
    replay(alloc, &both.instruction, &both.journal)
}

/// The fault of an engine whose journal a replay refused.
pub fn unlawful(why: ReplayFault) -> EngineFault
    ensures { (h : HistoryParts) → (why ≢ ReplayFault.Memory → IsFirstFault h why) → IsUnlawful h result }
{
    match why {
        ReplayFault::Memory => EngineFault::Memory,
        _ => EngineFault::Replay(why),
    }
}

/// The line of a lawful journal of so many postings.
pub fn lawful_text(alloc: Global, postings: usize) -> Result<Vec<u8>, Memory>
    ensures { IfOk result (λ text. text.items ≡ lawful_line postings) }
{
    let mut out = Vec::new(alloc);
    put_line(&mut out, b"LAWFUL", &[postings as u128])?;
    Ok(out)
}
