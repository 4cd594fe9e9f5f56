//! Wrong answers of a book with its planner.
ghost use Rattle.std.specs.Prelude.{◌≢◌, ◌<◌, ◌≤◌};
ghost use Rattle.buck_rule.specs.Stored.{Answers};
ghost use Rattle.buck_book_postings.specs.Refused.{IsBelow};
ghost use Rattle.buck_book_journal.specs.Written.{journal_text};

use buck_book_cutter::Cutter;
use buck_book_postings::{CutFault, Memory};
use buck_rule::Standing;
use buck_stem_shape::Stem;
use std::alloc::Global;
use std::sync::Arc;

/// A preview adds its cut to the book.
pub fn preview_adds_a_posting<F: Drop>(alloc: Global, cutter: &mut Cutter<F>, stem: Arc<Stem>) {
    let before = cutter.book().len();
    let _ = cutter.preview(alloc, stem);
    let right = cutter.book().len();
    let wrong = before + 1;
    prove!(right != wrong);
}

/// A stem is previewed under the sheet that comes next.
pub fn preview_under_the_next_sheet<F: Drop>(
    alloc: Global,
    cutter: &mut Cutter<F>,
    stem: Arc<Stem>,
) -> Result<(), Memory> {
    let wrong = cutter.book().version() + 1;
    let plan = cutter.preview(alloc, stem)?;
    let right = plan.sheet().version();
    prove!(right != wrong);
    Ok(())
}

/// A book below its capacity says of a cut that it is full.
pub fn full_below_the_capacity<F: Fn(&Standing) -> u64 + Drop>(
    alloc: Global,
    cutter: &mut Cutter<F>,
    stem: Arc<Stem>,
    harvester: u32,
)
    requires answers { Answers F.Fn cutter.old.rule }
    requires below { IsBelow cutter.old }
    requires harvester { (0 < harvester) × (harvester ≤ 64) }
{
    let right = cutter.cut(alloc, stem, harvester);
    let is_full = matches!(right, Err(CutFault::Full));
    prove!(!is_full);
}

/// A cut is another harvester's.
pub fn cut_of_another_harvester<F: Fn(&Standing) -> u64 + Drop>(
    alloc: Global,
    cutter: &mut Cutter<F>,
    stem: Arc<Stem>,
    harvester: u32,
    wrong: u32,
) -> Result<(), CutFault>
    requires answers { Answers F.Fn cutter.old.rule }
    requires harvester { (0 < harvester) × (harvester ≤ 64) }
    requires differ { wrong ≢ harvester }
{
    let entry = cutter.cut(alloc, stem, harvester)?;
    let right = entry.harvester;
    prove!(right != wrong);
    Ok(())
}

/// The journal is that of another history.
pub fn journal_of_another_history<F: Drop>(alloc: Global, cutter: &Cutter<F>, wrong: &[u8])
    requires differ { wrong.now ≢ journal_text cutter.now.history.sheets cutter.now.history.postings }
{
    if let Ok(right) = cutter.journal(alloc) {
        prove!(right.as_slice() != wrong);
    }
}
