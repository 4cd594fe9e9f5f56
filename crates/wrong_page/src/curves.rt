//! Wrong points of the curves over the postings.
ghost use Rattle.std.specs.Prelude.{◌≡◌, [], ◌∷◌, length};
ghost use Rattle.buck_book_postings.specs.History.{IsLawful};
ghost use Rattle.buck_book_journal.specs.Journal.{history_of};
ghost use Rattle.buck_page_figures.specs.Figures.{base_sheet};
ghost use Rattle.wrong_page.specs.Cuts.{IsAfterDemand};

use buck_apt_instruction::Instruction;
use buck_book_journal::Journal;
use buck_book_postings::{Demand, Entry, Posting};
use buck_dp::Planner;
use buck_page_figures::{degrees_in, figures_of};
use std::alloc::Global;
use std::slice::from_ref;

/// The degree at the end in the place of that at the point: there is one before anything was cut.
pub fn degree_of_the_wrong_point(
    alloc: Global,
    planner: &mut Planner,
    instruction: &Instruction,
    journal: &Journal,
    entry: &Entry,
)
    requires base { planner.old ≡ base_sheet instruction.now }
    requires lawful { IsLawful (history_of instruction.now journal.now) }
    requires after_a_demand { IsAfterDemand journal.now.entries entry.now }
{
    let Ok(figures) = figures_of(alloc, planner, instruction, from_ref(journal)) else {
        return;
    };
    let Some(point) = figures.points.get(0) else {
        return;
    };
    let right = degrees_in(point.degrees.as_slice(), 0).whole.is_some();
    let wrong = true;
    prove!(right != wrong);
}

/// A point has the version before the last posting.
pub fn version_before_the_point(
    alloc: Global,
    planner: &mut Planner,
    instruction: &Instruction,
    journal: &Journal,
    demand: &Demand,
)
    requires base { planner.old ≡ base_sheet instruction.now }
    requires lawful { IsLawful (history_of instruction.now journal.now) }
    requires only { journal.now.entries ≡ Posting.Demand demand.now ∷ [] }
{
    let Ok(figures) = figures_of(alloc, planner, instruction, from_ref(journal)) else {
        return;
    };
    let Some(point) = figures.points.get(0) else {
        return;
    };
    let right = point.version;
    let wrong = 0;
    prove!(right != wrong);
}

/// A demand isn't marked.
pub fn demand_not_marked(
    alloc: Global,
    planner: &mut Planner,
    instruction: &Instruction,
    journal: &Journal,
    demand: &Demand,
)
    requires base { planner.old ≡ base_sheet instruction.now }
    requires lawful { IsLawful (history_of instruction.now journal.now) }
    requires only { journal.now.entries ≡ Posting.Demand demand.now ∷ [] }
{
    let Ok(figures) = figures_of(alloc, planner, instruction, from_ref(journal)) else {
        return;
    };
    let Some(point) = figures.points.get(0) else {
        return;
    };
    let right = point.demand;
    let wrong = false;
    prove!(right != wrong);
}

/// The mark of a demand stays at the points behind it.
pub fn demand_marked_again(
    alloc: Global,
    planner: &mut Planner,
    instruction: &Instruction,
    journal: &Journal,
    entry: &Entry,
)
    requires base { planner.old ≡ base_sheet instruction.now }
    requires lawful { IsLawful (history_of instruction.now journal.now) }
    requires after_a_demand { IsAfterDemand journal.now.entries entry.now }
{
    let Ok(figures) = figures_of(alloc, planner, instruction, from_ref(journal)) else {
        return;
    };
    let Some(point) = figures.points.get(1) else {
        return;
    };
    let right = point.demand;
    let wrong = true;
    prove!(right != wrong);
}

/// The curves have a point for each of more than 200 postings.
pub fn point_for_each_of_many_postings(
    alloc: Global,
    planner: &mut Planner,
    instruction: &Instruction,
    journal: &Journal,
)
    requires base { planner.old ≡ base_sheet instruction.now }
    requires lawful { IsLawful (history_of instruction.now journal.now) }
    requires many { length journal.now.entries ≡ 201 }
{
    let Ok(figures) = figures_of(alloc, planner, instruction, from_ref(journal)) else {
        return;
    };
    let right = figures.points.len();
    let wrong = 201;
    prove!(right != wrong);
}

/// The last postings come after the last point.
pub fn last_postings_after_the_last_point(
    alloc: Global,
    planner: &mut Planner,
    instruction: &Instruction,
    journal: &Journal,
)
    requires base { planner.old ≡ base_sheet instruction.now }
    requires lawful { IsLawful (history_of instruction.now journal.now) }
    requires many { length journal.now.entries ≡ 399 }
{
    let Ok(figures) = figures_of(alloc, planner, instruction, from_ref(journal)) else {
        return;
    };
    let Some(point) = figures.points.get(199) else {
        return;
    };
    let right = point.after;
    let wrong = 200;
    prove!(right != wrong);
}
