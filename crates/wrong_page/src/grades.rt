//! Wrong worths of stems without grades.
ghost use Rattle.std.specs.Prelude.{◌≡◌, Some, [], ◌∷◌, length, slice_get};
ghost use Rattle.buck_apt_instruction.specs.Instruction.{AssortmentParts};
ghost use Rattle.buck_book_postings.specs.History.{IsLawful};
ghost use Rattle.buck_book_journal.specs.Journal.{history_of};
ghost use Rattle.buck_page_figures.specs.Figures.{base_sheet};
ghost use Rattle.wrong_page.specs.Cuts.{IsHeldByGrades};

use buck_apt_instruction::Instruction;
use buck_book_journal::Journal;
use buck_book_postings::{Entry, Posting};
use buck_dp::Planner;
use buck_page_figures::{figures_of, grade_free_of, grade_free_planner};
use std::alloc::Global;
use std::slice::from_ref;

/// The planner without grades plans by the instruction as it is.
pub fn grades_stay(alloc: Global, instruction: &Instruction)
    requires { (a : AssortmentParts) → slice_get instruction.now.assortments 0 ≡ Some a → length a.grades ≡ 1 }
{
    let Ok(planner) = grade_free_planner(alloc, instruction) else {
        return;
    };
    let free = planner.sheet().instruction();
    let Some(assortment) = free.assortments().get(0) else {
        return;
    };
    let right = assortment.grades().len();
    let wrong = 1;
    prove!(right != wrong);
}

/// The worth of stems without grades is given as their worth with them.
pub fn worth_with_grades(
    alloc: Global,
    planner: &mut Planner,
    instruction: &Instruction,
    journal: &Journal,
    entry: &Entry,
)
    requires base { planner.old ≡ base_sheet instruction.now }
    requires lawful { IsLawful (history_of instruction.now journal.now) }
    requires only { journal.now.entries ≡ Posting.Cut entry.now ∷ [] }
    requires held { IsHeldByGrades instruction.now entry.now }
{
    let Ok(figures) = figures_of(alloc, planner, instruction, from_ref(journal)) else {
        return;
    };
    let Ok(free) = grade_free_of(alloc, &figures) else {
        return;
    };
    let right = free.total.worth;
    let wrong = figures.total.best;
    prove!(right != wrong);
}

/// A harvester that has a cut is left out.
#[tactic(auto, using(crate::proofs::Held::harvester_there))]
pub fn harvester_left_out(
    alloc: Global,
    planner: &mut Planner,
    instruction: &Instruction,
    journal: &Journal,
    entry: &Entry,
)
    requires base { planner.old ≡ base_sheet instruction.now }
    requires lawful { IsLawful (history_of instruction.now journal.now) }
    requires only { journal.now.entries ≡ Posting.Cut entry.now ∷ [] }
    requires harvester { entry.now.harvester ≡ 1 }
{
    let Ok(figures) = figures_of(alloc, planner, instruction, from_ref(journal)) else {
        return;
    };
    let Ok(free) = grade_free_of(alloc, &figures) else {
        return;
    };
    let right = free.harvesters.get(&1).copied().is_some();
    let wrong = false;
    prove!(right != wrong);
}
