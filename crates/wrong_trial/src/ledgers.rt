//! Wrong bodies of whole runs over journals: of appraisals and of comparisons.
ghost use Rattle.std.specs.Prelude.{◌≡◌, ◌≢◌, ◌<◌, List, [], ◌∷◌, IfSome, None, Some, Ok, codes, length, map};
ghost use Rattle.buck_apt.specs.Apt.{apt_of};
ghost use Rattle.buck_apt_instruction.specs.Instruction.{InstructionParts};
ghost use Rattle.buck_apt_instruction.specs.Settings.{with_settings};
ghost use Rattle.buck_book_postings.specs.History.{IsLawful};
ghost use Rattle.buck_book_postings.specs.declared.posting.TheConstants.{MOST_POSTINGS};
ghost use Rattle.buck_book_journal.specs.Journal.{JournalParts, history_of};
ghost use Rattle.buck_book_journal.specs.Reading.{journal_of};
ghost use Rattle.buck_page_figures.specs.Journals.{postings_of};
ghost use Rattle.buckfleet_engine_files.specs.Reading.{apt_with};
ghost use Rattle.buckfleet_engine_files.specs.Several.{HaveJournals};
ghost use Rattle.buckfleet_proceeds.specs.Appraisal.{IsAppraisal};
ghost use Rattle.buckfleet_proceeds.specs.Text.{whole_line};
ghost use Rattle.buckfleet_proceeds.specs.declared.appraisal.Appraisal.{Appraisal};
ghost use Rattle.wrong_trial.specs.Texts.{StandsIn};

use buckfleet_engine_files::{EngineFault, Nobody, SeveralThreads};
use buckfleet_proceeds::{AppraiseTask, CompareTask, Opened, run_appraise, run_compare};
use buckfleet_terms_files::TermsFault;
use std::alloc::Global;
use std::thread::Threads;

/// An instruction, one journal and an owner's instruction, open.
fn opened<'x>(
    alloc: Global,
    apt: &'x [u8],
    journal: &'x [u8],
    own: &'x [u8],
) -> Option<Opened<&'x [u8]>>
    ensures apt { IfSome result (λ o. o.apt.now ≡ apt.now) }
    ensures journals { IfSome result (λ o. map (λ s. Some s.now) o.journals.items ≡ Some journal.now ∷ []) }
    ensures own { IfSome result (λ o. o.own.0.now ≡ own.now) }
{
    let mut journals = Vec::new(alloc);
    let Ok(()) = journals.push(journal) else {
        return None;
    };
    Some(Opened {
        apt,
        journals,
        own: (own, 2),
    })
}

/// A journal is appraised that isn't lawful.
pub fn appraisal_of_an_unlawful_journal<'x, T: Threads + Sync>(
    rt: &T,
    alloc: Global,
    task: &AppraiseTask<'_>,
    apt: &'x [u8],
    journal: &'x [u8],
    own: &'x [u8],
    out: &mut Vec<u8>,
)
    requires unlawful { (i : InstructionParts) (j : JournalParts) → apt_with task.now.settings apt.now ≡ Ok i
        → journal_of journal.now ≡ Ok j → ¬ IsLawful (history_of i j) }
{
    let Some(files) = opened(alloc, apt, journal, own) else {
        return;
    };
    let right = run_appraise(
        &SeveralThreads::of(rt, task.threads, &Nobody),
        alloc,
        &task.settings,
        files,
        out,
    );
    let is_refused = right.is_err();
    prove!(is_refused);
}

/// A journal is replayed, and its fault reported, before an owner's instruction is refused.
pub fn journal_told_before_the_owners_instruction<'x, T: Threads + Sync>(
    rt: &T,
    alloc: Global,
    task: &AppraiseTask<'_>,
    apt: &'x [u8],
    journal: &'x [u8],
    own: &'x [u8],
    out: &mut Vec<u8>,
)
    requires refused { (i : InstructionParts) → apt_of own.now ≢ Ok i }
{
    let Some(files) = opened(alloc, apt, journal, own) else {
        return;
    };
    let outcome = run_appraise(
        &SeveralThreads::of(rt, task.threads, &Nobody),
        alloc,
        &task.settings,
        files,
        out,
    );
    if let Err(TermsFault::Run(EngineFault::Replay(_why))) = outcome {
        let is_told = true;
        prove!(!is_told);
    }
}

/// Lines of an appraisal are written before a journal is found that isn't lawful.
pub fn appraisal_written_before_the_fault<'x, T: Threads + Sync>(
    rt: &T,
    alloc: Global,
    task: &AppraiseTask<'_>,
    files: Opened<&'x [u8]>,
) {
    let mut out = Vec::new(alloc);
    let outcome = run_appraise(
        &SeveralThreads::of(rt, task.threads, &Nobody),
        alloc,
        &task.settings,
        files,
        &mut out,
    );
    let is_wrong = !out.is_empty()
        && matches!(outcome, Err(TermsFault::Run(EngineFault::Replay(_))));
    prove!(!is_wrong);
}

/// The line of all is left out, or that of other postings stands in its place.
pub fn appraisal_without_the_line_of_all<'x, T: Threads + Sync>(
    rt: &T,
    alloc: Global,
    task: &AppraiseTask<'_>,
    files: Opened<&'x [u8]>,
    wrong: &[u8],
)
    requires other { (owner : InstructionParts) (js : List JournalParts) (p : Appraisal)
        → apt_of files.own.0.now ≡ Ok owner → HaveJournals (map (λ s. Some s.now) files.journals.items) js
        → IsAppraisal owner (postings_of js) p
        → StandsIn (whole_line (codes "total") None p.total) wrong.now → ⊥ }
{
    let mut right = Vec::new(alloc);
    let outcome = run_appraise(
        &SeveralThreads::of(rt, task.threads, &Nobody),
        alloc,
        &task.settings,
        files,
        &mut right,
    );
    if let Ok(()) = outcome {
        prove!(right.as_slice() != wrong);
    }
}

/// The numbers of the first journal are put in for the second: one is compared that isn't lawful with its own.
pub fn comparison_by_the_numbers_of_the_first<'x, T: Threads + Sync>(
    rt: &T,
    alloc: Global,
    task: &CompareTask<'_>,
    apt: &'x [u8],
    first: &'x [u8],
    second: &'x [u8],
    out: &mut Vec<u8>,
)
    requires unlawful { (i : InstructionParts) (j : JournalParts) → apt_of apt.now ≡ Ok i
        → journal_of second.now ≡ Ok j → ¬ IsLawful (history_of (with_settings task.now.second i) j) }
{
    let mut instruction = apt;
    let mut journals = [first, second];
    let right = run_compare(
        &SeveralThreads::of(rt, task.threads, &Nobody),
        alloc,
        task,
        &mut instruction,
        &mut journals,
        out,
    );
    let is_refused = right.is_err();
    prove!(is_refused);
}

/// Two journals are compared that have more than 1,000,000 postings together.
pub fn comparison_of_too_many_postings<'x, T: Threads + Sync>(
    rt: &T,
    alloc: Global,
    task: &CompareTask<'_>,
    apt: &'x [u8],
    first: &'x [u8],
    second: &'x [u8],
    out: &mut Vec<u8>,
)
    requires many { (one other : JournalParts) → journal_of first.now ≡ Ok one → journal_of second.now ≡ Ok other
        → MOST_POSTINGS < length (postings_of (one ∷ other ∷ [])) }
{
    let mut instruction = apt;
    let mut journals = [first, second];
    let right = run_compare(
        &SeveralThreads::of(rt, task.threads, &Nobody),
        alloc,
        task,
        &mut instruction,
        &mut journals,
        out,
    );
    let is_refused = right.is_err();
    prove!(is_refused);
}

/// Lines of a comparison are written before the second journal is found not to be lawful.
pub fn comparison_written_before_the_fault<'x, T: Threads + Sync>(
    rt: &T,
    alloc: Global,
    task: &CompareTask<'_>,
    apt: &'x [u8],
    first: &'x [u8],
    second: &'x [u8],
) {
    let mut instruction = apt;
    let mut journals = [first, second];
    let mut out = Vec::new(alloc);
    let outcome = run_compare(
        &SeveralThreads::of(rt, task.threads, &Nobody),
        alloc,
        task,
        &mut instruction,
        &mut journals,
        &mut out,
    );
    let is_wrong = !out.is_empty() && matches!(outcome, Err(EngineFault::ReplayOf { .. }));
    prove!(!is_wrong);
}
