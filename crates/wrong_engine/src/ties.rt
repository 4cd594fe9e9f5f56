//! Wrong bodies of a check that ties a journal to stem files and to a rule.
ghost use Rattle.std.specs.Prelude.{◌≡◌, ◌≢◌, List, [], Ok};
ghost use Rattle.buck_apt_instruction.specs.Instruction.{InstructionParts};
ghost use Rattle.buck_stem_shape.specs.Stem.{StemParts};
ghost use Rattle.buck_stem.specs.Stm.{stm_of};
ghost use Rattle.buck_book_journal.specs.Journal.{JournalParts, history_of};
ghost use Rattle.buck_book_journal.specs.Reading.{journal_of};
ghost use Rattle.buck_rule.specs.declared.named.NamedRule.TheVariants.{Linear};
ghost use Rattle.buckfleet_engine_files.specs.Reading.{apt_with};
ghost use Rattle.buckfleet_engine_files.specs.Ruled.{FollowsRule};
ghost use Rattle.buckfleet_engine_cross_check.specs.Ties.{stems_by};

use crate::opened::Missing;
use buck_rule::NamedRule;
use buckfleet_engine::Settings;
use buckfleet_engine_cross_check::{CheckTask, CrossCheck, run_check_with, serve_check};
use buckfleet_engine_files::{EngineFault, Nobody, OneThread};
use std::alloc::Global;
use std::thread::Threads;

/// Two stem files are taken for the harvesters' in the other order: the first isn't what harvester 1 cut.
pub fn swapped_stem_files_accepted<'x>(
    alloc: Global,
    by: &CrossCheck,
    apt: &'x [u8],
    journal: &'x [u8],
    first: &'x [u8],
    second: &'x [u8],
    out: &mut Vec<u8>,
)
    requires other { (i : InstructionParts) (j : JournalParts) (stems : List StemParts)
        → apt_with by.now.settings apt.now ≡ Ok i
        → journal_of journal.now ≡ Ok j → stm_of first.now ≡ Ok stems → stems_by 1 (history_of i j) ≢ stems }
{
    let mut instruction = apt;
    let mut postings = journal;
    let mut stems = [first, second];
    let right = run_check_with(
        &OneThread,
        alloc,
        by,
        &mut instruction,
        &mut postings,
        &mut stems,
        out,
    );
    let is_refused = right.is_err();
    prove!(is_refused);
}

/// A harvester without a stem file may have cut any stems.
pub fn cut_that_no_file_has_accepted<'x>(
    alloc: Global,
    by: &CrossCheck,
    apt: &'x [u8],
    journal: &'x [u8],
    stm: &'x [u8],
    out: &mut Vec<u8>,
)
    requires cut { (i : InstructionParts) (j : JournalParts) → apt_with by.now.settings apt.now ≡ Ok i
        → journal_of journal.now ≡ Ok j → stems_by 2 (history_of i j) ≢ [] }
{
    let mut instruction = apt;
    let mut postings = journal;
    let mut stems = [stm];
    let right = run_check_with(
        &OneThread,
        alloc,
        by,
        &mut instruction,
        &mut postings,
        &mut stems,
        out,
    );
    let is_refused = right.is_err();
    prove!(is_refused);
}

/// The prices of another rule are taken for those of the one that was named.
pub fn prices_of_another_rule_accepted<'x>(
    alloc: Global,
    settings: Settings,
    apt: &'x [u8],
    journal: &'x [u8],
    out: &mut Vec<u8>,
)
    requires other { (i : InstructionParts) (j : JournalParts) → apt_with settings apt.now ≡ Ok i
        → journal_of journal.now ≡ Ok j → ¬ FollowsRule Linear (history_of i j) }
{
    let by = CrossCheck {
        rule: Some(NamedRule::Linear),
        settings,
    };
    let mut instruction = apt;
    let mut postings = journal;
    let right = run_check_with(
        &OneThread,
        alloc,
        &by,
        &mut instruction,
        &mut postings,
        &mut [],
        out,
    );
    let is_refused = right.is_err();
    prove!(is_refused);
}

/// 65 stem files are accepted.
pub fn check_of_65_stem_files_accepted(alloc: Global, by: &CrossCheck, out: &mut Vec<u8>) {
    let mut instruction = b"".as_slice();
    let mut postings = b"".as_slice();
    let mut stems = [b"".as_slice(); 65];
    let right = run_check_with(
        &OneThread,
        alloc,
        by,
        &mut instruction,
        &mut postings,
        &mut stems,
        out,
    );
    let is_refused = right == Err(EngineFault::Seats);
    prove!(is_refused);
}

/// A stem file is read although the journal is refused.
pub fn stems_read_before_the_journal_is_refused<'x>(
    alloc: Global,
    by: &CrossCheck,
    apt: &'x [u8],
    journal: &'x [u8],
    stm: &'x [u8],
    out: &mut Vec<u8>,
) {
    let mut instruction = apt;
    let mut postings = journal;
    let mut stems = [stm];
    let outcome = run_check_with(
        &OneThread,
        alloc,
        by,
        &mut instruction,
        &mut postings,
        &mut stems,
        out,
    );
    let is_read = stems[0].len() != stm.len();
    let is_wrong = is_read && matches!(outcome, Err(EngineFault::Journal(_)));
    prove!(!is_wrong);
}

/// The journal is opened first, in the place of the instruction file.
pub fn tied_check_files_swapped<T: Threads + Sync>(
    rt: &T,
    alloc: Global,
    files: Vec<&str>,
    output: &mut Vec<u8>,
) {
    let task = CheckTask {
        by: CrossCheck {
            rule: None,
            settings: Settings::own(),
        },
        apt: "pine.apt",
        files,
        threads: Some(2),
    };
    let mut opener = Missing { asked: 0 };
    let _ = serve_check(rt, alloc, &task, &Nobody, &mut opener, output);
    let right = opener.asked;
    let wrong = "stems.jrn".len();
    prove!(right != wrong);
}
