//! Who does a run's work: one thread, or several at once.
ghost use Rattle.std.specs.Prelude.{◌≢◌, ◌<◌, ◌≤◌, length, OnOk, IfOk, IfErr};
ghost use Rattle.std.specs.Thread.{IsSync};
ghost use Rattle.buck_record.specs.Reading.{Gives, listed};
ghost use Rattle.buck_stem.specs.Stm.{stm_of};
ghost use Rattle.buck_book_postings.specs.History.{IsLawful};
ghost use Rattle.buck_book_postings.specs.declared.posting.TheConstants.{MOST_POSTINGS};
ghost use Rattle.buck_book_journal.specs.Journal.{history_of};
ghost use Rattle.buck_book_replay.specs.Replay.{IsFirstFault};
ghost use Rattle.buck_book_journal.specs.Reading.{journal_of};

use crate::onlooker::Onlooker;
use buck_apt_instruction::Instruction;
use buck_book_journal::{Journal, JournalFault, ReplayFault};
use buck_book_reader::{read_journal, read_journal_in_parts};
use buck_book_replay::{replay, replay_in_parts};
use buck_stem::{StmFault, read_stm, read_stm_in_parts};
use buck_stem_shape::Stem;
use std::alloc::Global;
use std::marker::Sync;
use std::sync::Arc;
use std::thread::{Threads, available_parallelism};

/// How many threads there are if the machine doesn't say how many it has.
const USUAL: usize = 4;

/// The most threads that a run starts.
const MOST: usize = 64;

/// How many threads a run starts: the given number, or as many as the machine has, or 4 if it doesn't say; from 1 to
/// 64.
pub fn number_of_threads<T: Threads>(rt: &T, told: Option<u8>) -> usize
    ensures { 0 < result }
{
    let wanted = match told {
        Some(number) => usize::from(number),
        None => match available_parallelism(rt) {
            Ok(number) => number.get(),
            Err(_) => USUAL,
        },
    };
    wanted.max(1).min(MOST)
}

/// Those who read the stems and the journals of a run, and replay these. What comes of it doesn't depend on who they
/// are.
pub trait Workers {
    /// That what starts their threads may be shared among these.
    ghost can_share: { Type 0 };

    /// The instruction of the files is read; the onlooker, if there is one, is shown it.
    fn show(&self, _instruction: &Instruction) {}

    /// The stems of some bytes, or why there are none, as [`read_stm`] says.
    fn read_stm(&self, alloc: Global, bytes: &[u8]) -> Result<Vec<Stem>, StmFault>
        requires share { can_share }
        ensures { Gives StmFault.Memory (listed result) (stm_of bytes.now) };

    /// The journal of some bytes, or why there is none, as [`read_journal`] says.
    fn read_journal(&self, alloc: Global, bytes: &[u8]) -> Result<Journal, JournalFault>
        requires share { can_share }
        ensures value { Gives JournalFault.Memory result (journal_of bytes.now) }
        ensures few { IfOk result (λ journal. length journal.entries ≤ MOST_POSTINGS) };

    /// Whether a journal is lawful for an instruction, or its first fault, as [`replay`] says.
    fn replay(
        &self,
        alloc: Global,
        instruction: &Arc<Instruction>,
        journal: &Journal,
    ) -> Result<(), ReplayFault>
        requires share { can_share }
        requires few { length journal.now.entries ≤ MOST_POSTINGS }
        ensures lawful { OnOk result (IsLawful (history_of instruction.now.value journal.now)) }
        ensures refused { IfErr result (λ e.
            e ≢ ReplayFault.Memory → IsFirstFault (history_of instruction.now.value journal.now) e) };
}

/// The thread that calls.
#[derive(Clone, Copy, Debug)]
pub struct OneThread;

impl Workers for OneThread {
    ghost can_share = { Unit {0} };

    fn read_stm(&self, alloc: Global, bytes: &[u8]) -> Result<Vec<Stem>, StmFault> {
        read_stm(alloc, bytes)
    }

    fn read_journal(&self, alloc: Global, bytes: &[u8]) -> Result<Journal, JournalFault> {
        read_journal(alloc, bytes)
    }

    fn replay(
        &self,
        alloc: Global,
        instruction: &Arc<Instruction>,
        journal: &Journal,
    ) -> Result<(), ReplayFault> {
        replay(alloc, instruction, journal)
    }
}

/// Several threads at once, and who looks on at a run.
#[derive(Drop)]
pub struct SeveralThreads<'a, T, L> {
    /// What starts them.
    pub rt: &'a T,
    /// How many they are, from 1 to 64.
    pub number: usize,
    pub onlooker: &'a L,
    ghost some: { 0 < number },
}

impl<'a, T: Threads, L> SeveralThreads<'a, T, L> {
    /// Takes as many threads as are asked for, from 1 to 64, or as many as the machine has, if no number is given.
    pub fn of(rt: &'a T, told: Option<u8>, onlooker: &'a L) -> SeveralThreads<'a, T, L> {
        SeveralThreads {
            rt,
            number: number_of_threads(rt, told),
            onlooker,
        }
    }
}

impl<T: Threads + Sync, L: Onlooker> Workers for SeveralThreads<'_, T, L> {
    ghost can_share = { IsSync T.row };

    fn show(&self, instruction: &Instruction) {
        self.onlooker.read::<Stem>(instruction, &[]);
    }

    fn read_stm(&self, alloc: Global, bytes: &[u8]) -> Result<Vec<Stem>, StmFault> {
        read_stm_in_parts(self.rt, alloc, bytes, self.number)
    }

    fn read_journal(&self, alloc: Global, bytes: &[u8]) -> Result<Journal, JournalFault> {
        read_journal_in_parts(self.rt, alloc, bytes, self.number)
    }

    fn replay(
        &self,
        alloc: Global,
        instruction: &Arc<Instruction>,
        journal: &Journal,
    ) -> Result<(), ReplayFault> {
        replay_in_parts(self.rt, alloc, self.number, instruction, journal)
    }
}
