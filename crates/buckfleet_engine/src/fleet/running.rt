//! `run_fleet_files`: from the bytes of an instruction file and stem files to a journal and a report.
ghost use Rattle.std.specs.Prelude.{◌≡◌, ◌≢◌, length, map, drop, IfOk, IfErr};
ghost use Rattle.std.specs.Result.{IsErrAnd};
ghost use Rattle.buck_apt.specs.Apt.{apt_of};
ghost use Rattle.buck_rule.specs.Stored.{AllAnswer};
ghost use Rattle.buckfleet_engine_files.specs.declared.fault.EngineFault.TheVariants.{Seats, Write};
ghost use Rattle.buckfleet_tasks.specs.declared.harvests.Order.TheVariants.{AtOnce};
ghost use Rattle.buckfleet_engine_files.specs.Reading.{IfStopped, apt_with};
ghost use Rattle.buckfleet_engine_files.specs.Lent.{of_lent};
ghost use Rattle.buckfleet_engine.specs.fleet.Running.{IsFleetRun};
ghost use Rattle.buckfleet_engine_input.specs.Harvest.{AreNoSeats, IsFleetFault, IsHarvest};

use crate::fleet::cutting::cut_lists;
use crate::fleet::writing::{write_journal_and_report, write_report};
use buck_apt_instruction::Settings;
use buck_fleet::Closed;
use buck_rule::{Rule, Standing};
use buckfleet_engine_files::{EngineFault, Nobody, Onlooker, SeveralThreads};
use buckfleet_engine_input::{Input, number_of_stems, read_input_with};
use std::alloc::Global;
use std::io;
use std::sync::Wait;
use std::thread::Threads;

/// Cuts the stems of each file by a harvester of its own, if there are 1 to 64 stem files, with a run's numbers in
/// the place of the instruction's own.
pub(crate) fn cut_files<
    F: Fn(&Standing) -> u64 + Drop + Send,
    T: Threads + Wait + Sync,
    R: io::Read,
    O: Onlooker + Sync,
>(
    rt: &T,
    alloc: Global,
    apt: &mut R,
    stms: &mut [R],
    rule: Rule<F>,
    settings: &Settings,
    onlooker: &O,
) -> Result<Closed, EngineFault>
    requires answers { AllAnswer F.Fn }
    ensures seats { AreNoSeats (length stms.old) → IsErrAnd result (λ fault. fault ≡ Seats) }
    ensures ok { IfOk result (λ closed.
        IsHarvest (apt_with settings.now) (R.remaining apt.old) (map R.remaining stms.old) closed.history) }
    ensures refused { IfErr result (IsFleetFault (R.remaining apt.old) (map R.remaining stms.old)) }
    ensures order { IfErr result (IfStopped (λ last. drop last stms.new ≡ drop last stms.old)) }
    ensures unread { IfErr result (λ fault. fault ≡ Seats → apt.new ≡ apt.old) }
{
    // The onlooker is shown the instruction with the stems.
    let workers = SeveralThreads::of(rt, None, &Nobody);
    let Input { instruction, lists } = read_input_with(&workers, alloc, apt, stms, settings)?;
    onlooker.read(&instruction, lists.as_slice());
    onlooker.cutting(number_of_stems(lists.as_slice()));
    cut_lists(rt, alloc, instruction, rule, lists.as_slice(), onlooker)
}

/// Reads an instruction file and stem files, cuts the stems of the k-th stem file by harvester k of a fleet, each in a
/// thread of its own and in file order, and writes the fleet's journal, if one is asked for, and then its report;
/// see [`report_of`](buckfleet_engine_text::report_of). Nothing is written before both texts are there.
///
/// The instruction file is file 0, the k-th stem file is file k; each is read, and refused if it must be, before the
/// next. `Seats` comes if there are not 1 to 64 stem files, before anything is read, `Read` if a reader fails or
/// a file is longer than 67,108,864 bytes, `Apt` and `Stm` if the bytes of a file are refused, `Full` if there are more
/// stems than 1,000,000, `Memory` if an allocation failed, `Close` if the history and what the harvesters were answered
/// differ, and `Write` if a writer fails, which leaves a prefix of the journal and no report, or the whole journal and
/// a prefix of the report.
pub fn run_fleet_files<
    F: Fn(&Standing) -> u64 + Drop + Send,
    T: Threads + Wait + Sync,
    R: io::Read,
    J: io::Write,
    W: io::Write,
>(
    rt: &T,
    alloc: Global,
    apt: &mut R,
    stms: &mut [R],
    rule: Rule<F>,
    journal: Option<&mut J>,
    out: &mut W,
) -> Result<(), EngineFault>
    requires answers { AllAnswer F.Fn }
    // What is written are the texts of one history, of the instruction and the stems that the files have; a fault is
    // that of the first file that has one, or comes after all of them, and nothing is written; a write fault leaves a
    // prefix of the journal, or all of it and a prefix of the report. If there are not 1 to 64 stem files, that is
    // the fault.
    ensures run { IsFleetRun apt_of AtOnce (λ _. Unit {0}) (R.remaining apt.old) (map R.remaining stms.old)
        (of_lent J.contents journal.entry journal.exit) (W.contents out.old) (W.contents out.new) result }
    // If a file has a fault, nothing was read of those after it.
    ensures order { IfErr result (IfStopped (λ last. drop last stms.new ≡ drop last stms.old)) }
    // If there are not 1 to 64 stem files, nothing was read of the instruction either.
    ensures unread { IfErr result (λ fault. fault ≡ Seats → apt.new ≡ apt.old) }
    // Only a failed write touches the output.
    ensures untouched { IfErr result (λ fault. fault ≢ Write → out.new ≡ out.old) }
{
    let closed = cut_files(rt, alloc, apt, stms, rule, &Settings::own(), &Nobody);
    match journal {
        None => {
            let closed = closed?;
            write_report(alloc, closed.parts(), out)
        }
        Some(journal) => {
            let closed = closed?;
            write_journal_and_report(alloc, closed.parts(), journal, out)
        }
    }
}
