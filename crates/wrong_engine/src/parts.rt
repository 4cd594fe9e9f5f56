//! Wrong bodies of a bucking whose stems are cut in several threads at once, and of a check by such threads.
ghost use Rattle.std.specs.Prelude.{◌≡◌, ◌≢◌, List, Ok};
ghost use Rattle.buck_apt_instruction.specs.Instruction.{InstructionParts};
ghost use Rattle.buck_apt.specs.Apt.{apt_of};
ghost use Rattle.buck_book_postings.specs.History.{IsLawful};
ghost use Rattle.buck_book_journal.specs.Journal.{JournalParts, history_of};
ghost use Rattle.buck_book_journal.specs.Reading.{journal_of};
ghost use Rattle.buck_stem_shape.specs.Stem.{StemParts};
ghost use Rattle.buck_stem.specs.Stm.{stm_of};
ghost use Rattle.buckfleet_engine_files.specs.Reading.{apt_with};
ghost use Rattle.buckfleet_engine_text.specs.Bucking.{CutStem, IsBucking, base_sheet, text_of};
ghost use Rattle.wrong_engine.specs.Texts.{first_half, halves_swapped};

use buckfleet_engine::run_buck_in_parts;
use buckfleet_engine_cross_check::{CrossCheck, run_check_with};
use buckfleet_engine_files::{Nobody, SeveralThreads};
use std::alloc::Global;
use std::thread::Threads;

/// The lines that the second thread put stand before those of the first.
pub fn parts_swapped<'x, T: Threads + Sync>(
    rt: &T,
    alloc: Global,
    apt: &'x [u8],
    stm: &'x [u8],
    wrong: &[u8],
)
    requires wrong { (i : InstructionParts) (stems : List StemParts) (cuts : List CutStem)
        → apt_of apt.now ≡ Ok i → stm_of stm.now ≡ Ok stems → IsBucking (base_sheet i) stems cuts
        → wrong.now ≡ text_of (base_sheet i) (halves_swapped cuts) }
    requires differ { (i : InstructionParts) (stems : List StemParts) (cuts : List CutStem)
        → apt_of apt.now ≡ Ok i → stm_of stm.now ≡ Ok stems → IsBucking (base_sheet i) stems cuts
        → text_of (base_sheet i) (halves_swapped cuts) ≢ text_of (base_sheet i) cuts }
{
    let mut instruction = apt;
    let mut stems = stm;
    let mut right = Vec::new(alloc);
    let workers = SeveralThreads::of(rt, Some(2), &Nobody);
    let outcome = run_buck_in_parts(&workers, alloc, &mut instruction, &mut stems, &mut right);
    if outcome.is_ok() {
        prove!(right.as_slice() != wrong);
    }
}

/// The lines that the last thread put are left out, and the total counts the others alone.
pub fn last_part_dropped<'x, T: Threads + Sync>(
    rt: &T,
    alloc: Global,
    apt: &'x [u8],
    stm: &'x [u8],
    wrong: &[u8],
)
    requires wrong { (i : InstructionParts) (stems : List StemParts) (cuts : List CutStem)
        → apt_of apt.now ≡ Ok i → stm_of stm.now ≡ Ok stems → IsBucking (base_sheet i) stems cuts
        → wrong.now ≡ text_of (base_sheet i) (first_half cuts) }
    requires differ { (i : InstructionParts) (stems : List StemParts) (cuts : List CutStem)
        → apt_of apt.now ≡ Ok i → stm_of stm.now ≡ Ok stems → IsBucking (base_sheet i) stems cuts
        → text_of (base_sheet i) (first_half cuts) ≢ text_of (base_sheet i) cuts }
{
    let mut instruction = apt;
    let mut stems = stm;
    let mut right = Vec::new(alloc);
    let workers = SeveralThreads::of(rt, Some(2), &Nobody);
    let outcome = run_buck_in_parts(&workers, alloc, &mut instruction, &mut stems, &mut right);
    if outcome.is_ok() {
        prove!(right.as_slice() != wrong);
    }
}

/// The last part isn't judged, and a journal is taken for lawful whose last cut is outvalued.
pub fn last_part_unjudged<'x, T: Threads + Sync>(
    rt: &T,
    alloc: Global,
    by: &CrossCheck,
    apt: &'x [u8],
    journal: &'x [u8],
    out: &mut Vec<u8>,
)
    requires unlawful { (i : InstructionParts) (j : JournalParts) → apt_with by.now.settings apt.now ≡ Ok i
        → journal_of journal.now ≡ Ok j → ¬ IsLawful (history_of i j) }
{
    let mut instruction = apt;
    let mut postings = journal;
    let right = run_check_with(
        &SeveralThreads::of(rt, Some(2), &Nobody),
        alloc,
        by,
        &mut instruction,
        &mut postings,
        &mut [],
        out,
    );
    let is_refused = right.is_err();
    prove!(is_refused);
}
