//! `run_check_with`: a check of a journal by its instruction, by stem files and by a rule.
ghost use Rattle.std.specs.Prelude.{◌≡◌, ◌≢◌, ◌-◌, ◌<◌, ◌≤◌, length, map, drop, IfOk, IfErr, IfSome, IfNone, OnOk, Some};
ghost use Rattle.buck_record.specs.Reading.{listed};
ghost use Rattle.buck_book_postings.specs.History.{HistoryParts, IsLawful};
ghost use Rattle.buck_book_journal.specs.Journal.{history_of};
ghost use Rattle.buck_book_replay.specs.Replay.{IsFirstFault};
ghost use Rattle.buckfleet_engine_files.specs.declared.fault.EngineFault.TheVariants.{Seats, Write};
ghost use Rattle.buck_rule.specs.declared.named.NamedRule.{NamedRule};
ghost use Rattle.buckfleet_engine_files.specs.Reading.{IfStopped, apt_with};
ghost use Rattle.buckfleet_engine_files.specs.Written.{WritesText};
ghost use Rattle.buckfleet_engine_cross_check.specs.Answers.{AnswersCheckWith, AnswersTies, HaveRead};
ghost use Rattle.buckfleet_engine_cross_check.specs.Ties.{CutTheirFiles, IsPriceFault, IsStemsFault, IsTied};
ghost use Rattle.buckfleet_engine_files.specs.Ruled.{FollowsRule};
ghost use Rattle.buckfleet_engine_cross_check.specs.inner.Tie.{IsTiedInputFault, IsUntiedFault, stems_in_lists};
ghost use Rattle.buck_book_postings.specs.declared.posting.TheConstants.{MOST_POSTINGS};

use crate::comparing::compare_stems;
use crate::lists::read_files;
use crate::prices::compare_prices;
use buck_apt_instruction::{Instruction, Settings};
use buck_book_journal::{Journal, ReplayFault};
use buck_record::Memory;
use buck_rule::NamedRule;
use buck_stem_shape::Stem;
use buckfleet_engine_files::{
    Both, CheckFault, EngineFault, Workers, lawful_text, read_instruction_with, read_postings,
    unlawful, write_text,
};
use buckfleet_tasks::CrossCheck;
use std::alloc::Global;
use std::io;
use std::sync::Arc;

/// That there are at most 64 stem files.
fn check_files(number: usize) -> Result<(), EngineFault>
    ensures few { OnOk result (number ≤ 64) }
    ensures fault { IfErr result (λ fault. (64 < number) × (fault ≡ Seats)) }
{
    if number > 64 {
        return Err(EngineFault::Seats);
    }
    Ok(())
}

/// How a journal isn't tied to the stem files, if there are any.
fn stems_fault(journal: &Journal, files: &[Vec<Stem>]) -> Option<CheckFault>
    requires few { length files.now ≤ 64 }
    ensures none { IfNone result ((h : HistoryParts) → h.postings ≡ journal.now.entries
        → 0 < length (stems_in_lists files.now) → CutTheirFiles (stems_in_lists files.now) h) }
    ensures found { IfSome result (λ fault. (h : HistoryParts) → h.postings ≡ journal.now.entries
        → (0 < length (stems_in_lists files.now)) × IsStemsFault (stems_in_lists files.now) h fault) }
{
    if files.is_empty() {
        return None;
    }
    compare_stems(journal.entries.as_slice(), files)
}

/// How a lawful journal isn't tied to the rule, if one is named.
fn prices_fault(
    alloc: Global,
    rule: Option<NamedRule>,
    instruction: &Arc<Instruction>,
    journal: &Journal,
) -> Result<Option<CheckFault>, Memory>
    requires few { length journal.now.entries ≤ MOST_POSTINGS }
    requires lawful { IsLawful (history_of instruction.now.value journal.now) }
    ensures none { IfOk result (λ found. IfNone found
        (IfSome rule (λ r. FollowsRule r (history_of instruction.now.value journal.now)))) }
    ensures found { IfOk result (λ found. IfSome found (λ fault.
        (r : NamedRule) × (rule ≡ Some r) × IsPriceFault r (history_of instruction.now.value journal.now) fault)) }
{
    match rule {
        None => Ok(None),
        Some(rule) => compare_prices(alloc, rule, instruction, journal),
    }
}

/// That a lawful journal is tied to the stem files, if there are any, and to the rule, if one is named.
fn check_ties(
    alloc: Global,
    rule: Option<NamedRule>,
    instruction: &Arc<Instruction>,
    journal: &Journal,
    files: &[Vec<Stem>],
) -> Result<(), EngineFault>
    requires few { length journal.now.entries ≤ MOST_POSTINGS }
    requires files { length files.now ≤ 64 }
    requires lawful { IsLawful (history_of instruction.now.value journal.now) }
    ensures tied { OnOk result (IsTied (stems_in_lists files.now) rule (history_of instruction.now.value journal.now)) }
    ensures fault { IfErr result
        (IsUntiedFault (stems_in_lists files.now) rule (history_of instruction.now.value journal.now)) }
{
    match stems_fault(journal, files) {
        Some(fault) => return Err(EngineFault::Check(fault)),
        None => {}
    }
    match prices_fault(alloc, rule, instruction, journal)? {
        Some(fault) => Err(EngineFault::Check(fault)),
        None => Ok(()),
    }
}

/// An instruction, a journal and stem files, as all were read.
#[derive(Drop)]
struct Tied {
    pub both: Both,
    pub files: Vec<Vec<Stem>>,
}

/// The instruction, the journal and the stems that the files have, with a run's numbers in the place of the
/// instruction's own. Each file is read, and refused if it must be, before the next.
fn read_tied<T: Workers, R: io::Read>(
    workers: &T,
    alloc: Global,
    apt: &mut R,
    journal: &mut R,
    stms: &mut [R],
    settings: &Settings,
) -> Result<Tied, EngineFault>
    requires share { T.can_share }
    ensures read { IfOk result (λ tied. HaveRead (apt_with settings.now) (R.remaining apt.old) (R.remaining journal.old)
        (map R.remaining stms.old) tied.both.instruction.value tied.both.journal (stems_in_lists tied.files.items)) }
    ensures few { IfOk result (λ tied. length tied.both.journal.entries ≤ MOST_POSTINGS) }
    ensures files { IfOk result (λ tied. length tied.files.items ≤ 64) }
    ensures refused { IfErr result
        (IsTiedInputFault (R.remaining apt.old) (R.remaining journal.old) (map R.remaining stms.old)) }
    ensures journal_order { IfErr result (IfStopped (λ last. last ≡ 0 → journal.new ≡ journal.old)) }
    ensures stms_order { IfErr result (IfStopped (λ last. drop (last - 1) stms.new ≡ drop (last - 1) stms.old)) }
    ensures unread { IfErr result (λ fault. fault ≡ Seats → apt.new ≡ apt.old) }
{
    check_files(stms.len())?;
    let instruction = Arc::new(alloc, read_instruction_with(alloc, apt, settings)?)?;
    workers.show(&instruction);
    let journal = read_postings(workers, alloc, journal)?;
    let files = read_files(workers, alloc, stms)?;
    let both = Both {
        instruction,
        journal,
    };
    Ok(Tied { both, files })
}

/// The line of a journal that is tied to stem files and a rule, by what came of its replay.
fn text_of_ties(
    alloc: Global,
    rule: Option<NamedRule>,
    tied: &Tied,
    replayed: Result<(), ReplayFault>,
) -> Result<Vec<u8>, EngineFault>
    requires few { length tied.now.both.journal.entries ≤ MOST_POSTINGS }
    requires files { length tied.now.files.items ≤ 64 }
    requires lawful { OnOk replayed (IsLawful (history_of tied.now.both.instruction.value tied.now.both.journal)) }
    requires refused { IfErr replayed (λ why. why ≢ ReplayFault.Memory
        → IsFirstFault (history_of tied.now.both.instruction.value tied.now.both.journal) why) }
    ensures { AnswersTies (stems_in_lists tied.now.files.items) rule tied.now.both.instruction.value
        tied.now.both.journal (listed result) }
{
    match replayed {
        Ok(()) => {}
        Err(why) => return Err(unlawful(why)),
    }
    let both = &tied.both;
    check_ties(
        alloc,
        rule,
        &both.instruction,
        &both.journal,
        tied.files.as_slice(),
    )?;
    Ok(lawful_text(alloc, both.journal.entries.len())?)
}

/// The line of the journal of a file that is lawful for the instruction of another, and tied to stem files and a rule.
#[tactic(auto, using(crate::proofs::TieAnswers::tied))]
fn text_of_files<T: Workers, R: io::Read>(
    workers: &T,
    alloc: Global,
    by: &CrossCheck,
    apt: &mut R,
    journal: &mut R,
    stms: &mut [R],
) -> Result<Vec<u8>, EngineFault>
    requires share { T.can_share }
    ensures answer { AnswersCheckWith (apt_with by.now.settings) by.now.rule (R.remaining apt.old)
        (R.remaining journal.old) (map R.remaining stms.old) (listed result) }
    ensures journal_order { IfErr result (IfStopped (λ last. last ≡ 0 → journal.new ≡ journal.old)) }
    ensures stms_order { IfErr result (IfStopped (λ last. drop (last - 1) stms.new ≡ drop (last - 1) stms.old)) }
    ensures unread { IfErr result (λ fault. fault ≡ Seats → apt.new ≡ apt.old) }
{
    let tied = read_tied(workers, alloc, apt, journal, stms, &by.settings)?;
    let both = &tied.both;
    let replayed = workers.replay(alloc, &both.instruction, &both.journal);
    text_of_ties(alloc, by.rule, &tied, replayed)
}

/// Reads an instruction file, a journal and stem files, and writes `LAWFUL` with the number of postings if the journal
/// is lawful for the instruction, as `run_check` says, and passes two checks more. If there are
/// stem files, the stems of harvester k's cuts are exactly those of the k-th, in their order, and a harvester without a
/// file cut nothing. If a rule is named, each price of each sheet is what the rule gives for its class, by the targets
/// in force and by what was cut before. The instruction is read, and refused, by its own numbers; then the given ones
/// take their place.
///
/// The instruction file is file 0, the journal file 1, and the k-th stem file is file k + 1; each is read, and refused
/// if it must be, before the next. `Seats` comes if there are more than 64 stem files, before anything is read,
/// `Read` if a reader fails or a file is longer than 67,108,864 bytes, `Apt`, `Journal` and `Stm` if the bytes of
/// a file are refused, `Replay` with the first fault of a journal that isn't lawful, `Check` with how a lawful one
/// first differs, from the stem files before the rule, `Write` if the writer fails, which leaves a prefix of the text,
/// and `Memory` if an allocation failed.
pub fn run_check_with<T: Workers, R: io::Read, W: io::Write>(
    workers: &T,
    alloc: Global,
    by: &CrossCheck,
    apt: &mut R,
    journal: &mut R,
    stms: &mut [R],
    writer: &mut W,
) -> Result<(), EngineFault>
    requires share { T.can_share }
    // The line of a journal is written that is lawful for the instruction and tied to the stem files and the rule; a
    // fault is that of the first file that has one, or of the journal, and nothing is written; a write fault leaves a
    // prefix of the line. If there are more than 64 stem files, that is the fault.
    ensures run { WritesText
        (AnswersCheckWith (apt_with by.now.settings) by.now.rule (R.remaining apt.old) (R.remaining journal.old)
        (map R.remaining stms.old)) (W.contents writer.old) (W.contents writer.new) result }
    // If a file has a fault, nothing was read of those after it.
    ensures journal_order { IfErr result (IfStopped (λ last. last ≡ 0 → journal.new ≡ journal.old)) }
    ensures stms_order { IfErr result (IfStopped (λ last. drop (last - 1) stms.new ≡ drop (last - 1) stms.old)) }
    // If there are more than 64 stem files, nothing was read of the instruction either.
    ensures unread { IfErr result (λ fault. fault ≡ Seats → apt.new ≡ apt.old) }
    // Only a failed write touches the writer.
    ensures untouched { IfErr result (λ fault. fault ≢ Write → writer.new ≡ writer.old) }
{
    let text = text_of_files(workers, alloc, by, apt, journal, stms)?;
    write_text(writer, text.as_slice())
}
