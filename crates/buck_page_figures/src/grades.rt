//! What the best cuttings at base prices would be worth if every assortment took every grade.
ghost use Rattle.std.specs.Prelude.{◌≡◌, ◌≢◌, ℕ, ◌+◌, ◌*◌, ◌≤◌, ◌^◌, List, [], ◌∷◌, ◌++◌, IfOk, OnOk, None};
ghost use Rattle.std.specs.Ordering.{nat_cmp};
ghost use Rattle.std.specs.BTreeMap.{get};
ghost use Rattle.buck_apt_instruction.specs.Grades.{grade_free};
ghost use Rattle.buck_book_postings.specs.declared.posting.Posting.{Posting};
ghost use Rattle.buck_page_figures.specs.Figures.{base_sheet};
ghost use Rattle.buck_page_figures.specs.Journals.{postings_of};
ghost use Rattle.buck_page_figures.specs.Grades.{AreBestWorths};
ghost use Rattle.buck_page_figures.specs.inner.Grades.{ArePassed, HasRoom, IsWithStem, worth_so_far};
ghost use Rattle.buck_book_postings.specs.declared.posting.TheConstants.{MOST_POSTINGS};

use crate::figures::Figures;
use crate::free::{Free, GradeFree};
use buck_apt_instruction::Instruction;
use buck_book_journal::Journal;
use buck_book_postings::Posting;
use buck_dp::Planner;
use buck_record::Memory;
use buck_value::Sheet;
use std::alloc::Global;
use std::collections::BTreeMap;
use std::sync::Arc;

/// A planner at base prices for which every assortment takes every grade. Refused as `Memory` alone.
pub fn grade_free_planner(alloc: Global, instruction: &Instruction) -> Result<Planner, Memory>
    ensures { IfOk result (λ planner. planner ≡ base_sheet (grade_free instruction.now)) }
{
    let free = Arc::new(alloc, instruction.grade_free(alloc)?)?;
    let base = Sheet::base(alloc, free)?;
    Ok(Planner::make(alloc, Arc::new(alloc, base)?)?)
}

/// What stems are worth with one more.
fn free_with(before: Option<Free>, worth: u64) -> Free
    requires { worth_so_far before + worth ≤ MOST_POSTINGS * 2 ^ 64 }
    ensures { result.worth ≡ worth_so_far before + worth }
{
    let worth = u128::from(worth);
    match before {
        None => Free { worth },
        Some(free) => Free {
            worth: free.worth + worth,
        },
    }
}

impl GradeFree {
    /// Of no stem.
    fn none(alloc: Global) -> GradeFree
        ensures total { result.total.worth ≡ 0 }
        ensures harvesters { (h : ℕ) → get nat_cmp result.harvesters h ≡ None }
    {
        GradeFree {
            total: Free { worth: 0 },
            harvesters: BTreeMap::new(alloc),
        }
    }

    /// Adds a stem of a harvester, which is worth so much.
    fn add(&mut self, harvester: u32, worth: u64) -> Result<(), Memory>
        requires total { self.old.total.worth + worth ≤ MOST_POSTINGS * 2 ^ 64 }
        requires own { worth_so_far (get nat_cmp self.old.harvesters harvester) + worth ≤ MOST_POSTINGS * 2 ^ 64 }
        ensures total { OnOk result (self.new.total.worth ≡ self.old.total.worth + worth) }
        ensures own { OnOk result (IsWithStem (get nat_cmp self.old.harvesters harvester) worth
            (get nat_cmp self.new.harvesters harvester)) }
        ensures others { OnOk result ((h : ℕ) → h ≢ harvester
            → get nat_cmp self.new.harvesters h ≡ get nat_cmp self.old.harvesters h) }
    {
        let own = free_with(self.harvesters.get(&harvester).copied(), worth);
        self.harvesters.insert(harvester, own)?;
        self.total = free_with(Some(self.total), worth);
        Ok(())
    }
}

/// Adds a posting, by the best cutting of its stem if it is a cut.
fn add_posting(
    alloc: Global,
    free: &mut GradeFree,
    planner: &mut Planner,
    posting: &Posting,
) -> Result<(), Memory>
    requires base { planner.old ≡ base_sheet planner.old.instruction }
    requires room { HasRoom planner.old.instruction (posting.now ∷ []) free.old }
    ensures same { planner.new ≡ planner.old }
    ensures passed { OnOk result ((ps : List Posting) → ArePassed planner.old.instruction ps free.old
        → ArePassed planner.old.instruction (ps ++ posting.now ∷ []) free.new) }
{
    match posting {
        Posting::Cut(entry) => {
            let (_, worth) = planner.best(alloc, &entry.stem)?;
            free.add(entry.harvester, worth)
        }
        Posting::Demand(_) => Ok(()),
    }
}

/// Adds the postings of a journal.
fn add_journal(
    alloc: Global,
    free: &mut GradeFree,
    planner: &mut Planner,
    journal: &Journal,
) -> Result<(), Memory>
    requires base { planner.old ≡ base_sheet planner.old.instruction }
    requires room { HasRoom planner.old.instruction journal.now.entries free.old }
    ensures same { planner.new ≡ planner.old }
    ensures passed { OnOk result ((ps : List Posting) → ArePassed planner.old.instruction ps free.old
        → ArePassed planner.old.instruction (ps ++ journal.now.entries) free.new) }
{
    for posting in journal.entries.as_slice() {
        add_posting(alloc, free, planner, posting)?;
    }
    Ok(())
}

/// Gives the worth that the stems of these figures would have without grades: plans each once more. Refused as `Memory`
/// alone.
pub fn grade_free_of(alloc: Global, figures: &Figures<'_>) -> Result<GradeFree, Memory>
    ensures { IfOk result (AreBestWorths (grade_free figures.now.instruction.now)
        (postings_of figures.now.journals.now)) }
{
    let mut planner = grade_free_planner(alloc, figures.instruction)?;
    let mut free = GradeFree::none(alloc);
    for journal in figures.journals {
        add_journal(alloc, &mut free, &mut planner, journal)?;
    }
    Ok(free)
}
