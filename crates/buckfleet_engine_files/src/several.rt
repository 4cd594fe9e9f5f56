//! An instruction file and several journals that were all read, and the replay of each by the one.
ghost use Rattle.std.specs.Prelude.{◌≡◌, ◌≢◌, ◌+◌, ◌<◌, ◌≤◌, ◌↔◌, IsTrue, length, map, Ok, OnOk, IfOk, IfErr};
ghost use Rattle.buck_book_journal.specs.Reading.{journal_of};
ghost use Rattle.buck_book_journal.specs.Several.{postings_of};
ghost use Rattle.buckfleet_engine_files.specs.Reading.{IsFileFault, Says, apt_with};
ghost use Rattle.buckfleet_engine_files.specs.Several.{AreLawful, HaveJournals, IsFirstUnlawful, IsJournalsFault, IsSeveralFault, journal_fault, replay_fault};
ghost use Rattle.buckfleet_engine_files.specs.inner.Several.{AreEachFew};
ghost use Rattle.buck_book_postings.specs.declared.posting.TheConstants.{MOST_POSTINGS};

use crate::fault::EngineFault;
use crate::reading::{read_file, read_instruction_with};
use crate::workers::Workers;
use buck_apt_instruction::{Instruction, Settings};
use buck_book_journal::{Journal, JournalFault, ReplayFault};
use buck_book_postings::MOST_POSTINGS;
use std::alloc::Global;
use std::io;
use std::sync::Arc;

/// The place of a journal among some, and how many there are.
#[derive(Clone, Copy)]
pub struct Among {
    /// Its place, from 0.
    pub place: usize,
    /// The number of journals, 1 to 64.
    pub number: usize,
    ghost within: { (place < number) × (number ≤ 64) },
}

/// The refusal of a journal: it has the journal's number, if there are several.
fn refused_among(among: Among, fault: JournalFault) -> EngineFault
    ensures { result ≡ journal_fault among.number among.place fault }
{
    if among.number == 1 {
        EngineFault::Journal(fault)
    } else {
        EngineFault::JournalOf {
            journal: among.place as u32 + 1,
            fault,
        }
    }
}

/// The fault of a journal that isn't lawful: it has the journal's number, if there are several.
pub fn unlawful_among(among: Among, fault: ReplayFault) -> EngineFault
    ensures { result ≡ replay_fault among.number among.place fault }
{
    if among.number == 1 {
        EngineFault::Replay(fault)
    } else {
        EngineFault::ReplayOf {
            journal: among.place as u32 + 1,
            fault,
        }
    }
}

/// An instruction and some journals, as all were read.
#[derive(Drop)]
pub struct Several {
    pub instruction: Arc<Instruction>,
    pub journals: Vec<Journal>,
}

/// The first journal that isn't lawful, and its first fault.
#[derive(Drop)]
pub struct Unlawful {
    /// Index of the journal among those of the run, from 0.
    pub place: usize,
    pub fault: ReplayFault,
}

/// The journal that a journal's file has.
fn journal_among<T: Workers, R: io::Read>(
    workers: &T,
    alloc: Global,
    reader: &mut R,
    among: Among,
) -> Result<Journal, EngineFault>
    requires share { T.can_share }
    ensures ok { IfOk result (λ journal. Says journal_of (R.remaining reader.old) (Ok journal)) }
    ensures few { IfOk result (λ journal. length journal.entries ≤ MOST_POSTINGS) }
    ensures refused { IfErr result (IsFileFault (among.place + 1) (journal_fault among.number among.place) journal_of
        (R.remaining reader.old)) }
{
    let bytes = read_file(alloc, reader, among.place as u32 + 1)?;
    match workers.read_journal(alloc, bytes.as_slice()) {
        Ok(journal) => Ok(journal),
        Err(JournalFault::Memory) => Err(EngineFault::Memory),
        Err(fault) => Err(refused_among(among, fault)),
    }
}

/// The journals that some files have: each is read, and refused if it must be, before the next.
fn read_journals<T: Workers, R: io::Read>(
    workers: &T,
    alloc: Global,
    files: &mut [R],
) -> Result<Vec<Journal>, EngineFault>
    requires share { T.can_share }
    requires few { length files.old ≤ 64 }
    ensures journals { IfOk result (λ journals. HaveJournals (map R.remaining files.old) journals.items) }
    ensures few { IfOk result (λ journals. AreEachFew journals.items) }
    ensures refused { IfErr result (IsJournalsFault (map R.remaining files.old)) }
{
    let number = files.len();
    let mut journals = Vec::new(alloc);
    for place in 0..number {
        let among = Among { place, number };
        match journal_among(workers, alloc, &mut files[place], among) {
            Ok(journal) => journals.push(journal)?,
            Err(fault) => return Err(fault),
        }
    }
    Ok(journals)
}

/// Whether some journals have no more postings together than one may have.
fn are_few(journals: &[Journal]) -> bool
    requires number { length journals.now ≤ 64 }
    requires few { AreEachFew journals.now }
    ensures { IsTrue result ↔ length (postings_of journals.now) ≤ MOST_POSTINGS }
{
    let mut number: usize = 0;
    for journal in journals {
        number += journal.entries.len();
    }
    number <= MOST_POSTINGS as usize
}

/// The instruction and the journals that some files have, with a run's numbers in the place of the instruction's own.
///
/// The instruction file is file 0, the k-th journal is file k; each is read, and refused if it must be, before the
/// next. `Read` if a reader fails or a file is longer than 67,108,864 bytes, `Apt`, and `Journal` or `JournalOf`,
/// if the bytes of a file are refused, `Full` if there are more than 1,000,000 postings together, and `Memory` if an
/// allocation failed.
pub fn read_several<T: Workers, R: io::Read>(
    workers: &T,
    alloc: Global,
    apt: &mut R,
    files: &mut [R],
    settings: &Settings,
) -> Result<Several, EngineFault>
    requires share { T.can_share }
    requires number { length files.old ≤ 64 }
    ensures instruction { IfOk result (λ s.
        Says (apt_with settings.now) (R.remaining apt.old) (Ok s.instruction.value)) }
    ensures journals { IfOk result (λ s. HaveJournals (map R.remaining files.old) s.journals.items) }
    ensures few { IfOk result (λ s. length (postings_of s.journals.items) ≤ MOST_POSTINGS) }
    ensures refused { IfErr result (IsSeveralFault (R.remaining apt.old) (map R.remaining files.old)) }
{
    let instruction = Arc::new(alloc, read_instruction_with(alloc, apt, settings)?)?;
    workers.show(&instruction);
    let journals = read_journals(workers, alloc, files)?;
    if !are_few(journals.as_slice()) {
        return Err(EngineFault::Full);
    }
    Ok(Several {
        instruction,
        journals,
    })
}

/// Whether each journal is lawful for the instruction: the first that isn't, with its first fault.
pub fn replay_several<T: Workers>(
    workers: &T,
    alloc: Global,
    several: &Several,
) -> Result<(), Unlawful>
    requires share { T.can_share }
    requires few { length (postings_of several.now.journals.items) ≤ MOST_POSTINGS }
    ensures lawful { OnOk result (AreLawful several.now.instruction.value several.now.journals.items) }
    ensures within { IfErr result (λ u. u.place < length several.now.journals.items) }
    ensures refused { IfErr result (λ u. u.fault ≢ ReplayFault.Memory
        → IsFirstUnlawful several.now.instruction.value several.now.journals.items u.place u.fault) }
{
    for place in 0..several.journals.len() {
        let journal = &several.journals[place];
        match workers.replay(alloc, &several.instruction, journal) {
            Ok(()) => {}
            Err(fault) => return Err(Unlawful { place, fault }),
        }
    }
    Ok(())
}
