//! `run_in_turn`: from the bytes of an instruction file and stem files to a journal and a report of harvesters that
//! take turns.
ghost use Rattle.std.specs.Prelude.{◌≡◌, ◌≢◌, ◌<◌, ◌≤◌, length, map, drop, IfOk, IfErr};
ghost use Rattle.std.specs.Result.{IsErrAnd};
ghost use Rattle.buck_apt.specs.Apt.{apt_of};
ghost use Rattle.buck_rule.specs.Stored.{Answers};
ghost use Rattle.buck_book_postings.specs.Pricing.{AreSheetsBy};
ghost use Rattle.buck_fleet_round_robin.specs.Turn.{AreInTurn, stems_in_all};
ghost use Rattle.buckfleet_engine_files.specs.declared.fault.EngineFault.TheVariants.{Full, Seats, Write};
ghost use Rattle.buckfleet_tasks.specs.declared.harvests.Order.TheVariants.{InTurn};
ghost use Rattle.buckfleet_engine_files.specs.Reading.{IfStopped, apt_with};
ghost use Rattle.buckfleet_engine_files.specs.Lent.{of_lent};
ghost use Rattle.buckfleet_engine.specs.fleet.Running.{IsFleetRun};
ghost use Rattle.buckfleet_engine_input.specs.Harvest.{AreNoSeats, HaveTooMany, IsCuttingFault, IsFleetFault, IsHarvest};
ghost use Rattle.buckfleet_engine.specs.inner.Fleet.{HasCutLists};
ghost use Rattle.buck_book_postings.specs.declared.posting.TheConstants.{MOST_POSTINGS};

use crate::fleet::writing::{write_journal_and_report, write_report};
use buck_apt_instruction::{Instruction, Settings};
use buck_book_postings::{CutFault, Parts};
use buck_fleet_round_robin::cut_in_turn;
use buck_rule::{Rule, Standing};
use buck_stem_shape::Stem;
use buckfleet_engine_files::{EngineFault, Nobody, OneThread, Onlooker};
use buckfleet_engine_input::{Input, number_of_stems, read_input_with};
use std::alloc::Global;
use std::io;
use std::sync::Arc;

/// Cuts lists of stems in turn, one for each harvester.
fn cut_lists<F: Fn(&Standing) -> u64 + Drop>(
    alloc: Global,
    instruction: Instruction,
    rule: Rule<F>,
    lists: &[Vec<Arc<Stem>>],
) -> Result<Parts, EngineFault>
    requires answers { Answers F.Fn rule }
    requires few { length lists.now ≤ 64 }
    ensures ok { IfOk result (λ turned. HasCutLists instruction lists.now turned) }
    ensures in_turn { IfOk result (λ turned. AreInTurn turned.postings) }
    ensures given { IfOk result (λ turned. AreSheetsBy F.Fn rule turned) }
    ensures fault { IfErr result IsCuttingFault }
    ensures full { IfErr result (λ fault. fault ≡ Full → MOST_POSTINGS < stems_in_all lists.now) }
{
    let instruction = Arc::new(alloc, instruction)?;
    match cut_in_turn(alloc, instruction, rule, lists) {
        Ok(book) => Ok(book.into_parts()),
        Err(CutFault::Full) => Err(EngineFault::Full),
        Err(CutFault::Memory) => Err(EngineFault::Memory),
    }
}

/// Cuts the stems of each file by a harvester of its own, in turn, if there are 1 to 64 stem files, with a run's
/// numbers in the place of the instruction's own.
pub(crate) fn cut_files_in_turn<F: Fn(&Standing) -> u64 + Drop, R: io::Read, O: Onlooker>(
    alloc: Global,
    apt: &mut R,
    stms: &mut [R],
    rule: Rule<F>,
    settings: &Settings,
    onlooker: &O,
) -> Result<Parts, EngineFault>
    requires answers { Answers F.Fn rule }
    ensures seats { AreNoSeats (length stms.old) → IsErrAnd result (λ fault. fault ≡ Seats) }
    ensures ok { IfOk result (λ turned.
        IsHarvest (apt_with settings.now) (R.remaining apt.old) (map R.remaining stms.old) turned) }
    ensures in_turn { IfOk result (λ turned. AreInTurn turned.postings) }
    ensures given { IfOk result (λ turned. AreSheetsBy F.Fn rule turned) }
    ensures refused { IfErr result (IsFleetFault (R.remaining apt.old) (map R.remaining stms.old)) }
    ensures full { IfErr result (λ fault. fault ≡ Full → HaveTooMany (map R.remaining stms.old)) }
    ensures order { IfErr result (IfStopped (λ last. drop last stms.new ≡ drop last stms.old)) }
    ensures unread { IfErr result (λ fault. fault ≡ Seats → apt.new ≡ apt.old) }
{
    let Input { instruction, lists } = read_input_with(&OneThread, alloc, apt, stms, settings)?;
    onlooker.read(&instruction, lists.as_slice());
    onlooker.cutting(number_of_stems(lists.as_slice()));
    cut_lists(alloc, instruction, rule, lists.as_slice())
}

/// Reads an instruction file and stem files, cuts the stems of the k-th stem file by harvester k, in turn, and writes
/// the journal, if one is asked for, and then the report; see [`report_of`](buckfleet_engine_text::report_of).
/// Nothing is written before both texts are there.
///
/// In each round harvester k cuts the next stem of the k-th stem file, under the sheet that is then in force; a
/// harvester with none left is skipped. There is one thread, and nothing waits: the same files always give the same
/// history.
///
/// The instruction file is file 0, the k-th stem file is file k; each is read, and refused if it must be, before the
/// next. `Seats` comes if there are not 1 to 64 stem files, before anything is read, `Read` if a reader fails or
/// a file is longer than 67,108,864 bytes, `Apt` and `Stm` if the bytes of a file are refused, `Full` if there are more
/// stems than 1,000,000, `Memory` if an allocation failed, and `Write` if a writer fails, which leaves a prefix of the
/// journal and no report, or the whole journal and a prefix of the report. There is no `Close`.
pub fn run_in_turn<F: Fn(&Standing) -> u64 + Drop, R: io::Read, J: io::Write, W: io::Write>(
    alloc: Global,
    apt: &mut R,
    stms: &mut [R],
    rule: Rule<F>,
    journal: Option<&mut J>,
    out: &mut W,
) -> Result<(), EngineFault>
    requires answers { Answers F.Fn rule }
    // What is written are the texts of one history, of the instruction and the stems that the files have, in the order
    // of the turns, with the rule's answers for prices; a fault is that of the first file that has one, or comes after
    // all of them, and nothing is written; a write fault leaves a prefix of the journal, or all of it and a prefix of
    // the report. If there are not 1 to 64 stem files, that is the fault; it is `Full` only if there are more
    // stems than 1,000,000.
    ensures run { IsFleetRun apt_of InTurn (AreSheetsBy F.Fn rule) (R.remaining apt.old) (map R.remaining stms.old)
        (of_lent J.contents journal.entry journal.exit) (W.contents out.old) (W.contents out.new) result }
    // If a file has a fault, nothing was read of those after it.
    ensures order { IfErr result (IfStopped (λ last. drop last stms.new ≡ drop last stms.old)) }
    // If there are not 1 to 64 stem files, nothing was read of the instruction either.
    ensures unread { IfErr result (λ fault. fault ≡ Seats → apt.new ≡ apt.old) }
    // Only a failed write touches the output.
    ensures untouched { IfErr result (λ fault. fault ≢ Write → out.new ≡ out.old) }
{
    let turned = cut_files_in_turn(alloc, apt, stms, rule, &Settings::own(), &Nobody);
    match journal {
        None => {
            let turned = turned?;
            write_report(alloc, &turned, out)
        }
        Some(journal) => {
            let turned = turned?;
            write_journal_and_report(alloc, &turned, journal, out)
        }
    }
}
