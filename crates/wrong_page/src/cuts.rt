//! Cuts shown otherwise than they were.
ghost use Rattle.std.specs.Prelude.{◌≡◌, [], ◌∷◌, length};
ghost use Rattle.buck_page_figures.specs.Shown.{IsShown};
ghost use Rattle.wrong_page.specs.Cuts.{AreOfTwoStems, IsAfterDemand, IsOffBase, IsOutvalued};

use buck_book_journal::Journal;
use buck_book_postings::{Demand, Entry, Posting};
use buck_dp::Planner;
use buck_page_figures::{Figures, Place, cut_at};
use std::alloc::Global;

/// The places of the first two postings of a journal.
const FIRST: Place = Place { journal: 0, at: 0 };

const SECOND: Place = Place { journal: 0, at: 1 };

/// The cut after the one that is asked for is returned.
pub fn cut_of_the_next_place(
    alloc: Global,
    figures: &Figures<'_>,
    planner: &mut Planner,
    journal: &Journal,
)
    requires shown { IsShown figures.now planner.old }
    requires of { figures.now.journals.now ≡ journal.now ∷ [] }
    requires two { AreOfTwoStems journal.now.entries }
{
    let Ok(Some(cut)) = cut_at(alloc, figures, planner, FIRST) else {
        return;
    };
    let entry = cut.entry;
    let right = entry.stem.number();
    let wrong = 2;
    prove!(right != wrong);
}

/// A demand is taken for a cut.
pub fn demand_told_as_a_cut(
    alloc: Global,
    figures: &Figures<'_>,
    planner: &mut Planner,
    journal: &Journal,
    demand: &Demand,
)
    requires shown { IsShown figures.now planner.old }
    requires of { figures.now.journals.now ≡ journal.now ∷ [] }
    requires only { journal.now.entries ≡ Posting.Demand demand.now ∷ [] }
{
    let Ok(told) = cut_at(alloc, figures, planner, FIRST) else {
        return;
    };
    let right = told.is_some();
    let wrong = true;
    prove!(right != wrong);
}

/// A cut is left out.
#[tactic(auto, using(crate::proofs::Postings::told_there))]
pub fn cut_not_told(
    alloc: Global,
    figures: &Figures<'_>,
    planner: &mut Planner,
    journal: &Journal,
    entry: &Entry,
)
    requires shown { IsShown figures.now planner.old }
    requires of { figures.now.journals.now ≡ journal.now ∷ [] }
    requires only { journal.now.entries ≡ Posting.Cut entry.now ∷ [] }
{
    let Ok(told) = cut_at(alloc, figures, planner, FIRST) else {
        return;
    };
    let right = told.is_none();
    let wrong = true;
    prove!(right != wrong);
}

/// A log of a cut is left out.
pub fn last_log_not_told(
    alloc: Global,
    figures: &Figures<'_>,
    planner: &mut Planner,
    journal: &Journal,
    entry: &Entry,
)
    requires shown { IsShown figures.now planner.old }
    requires of { figures.now.journals.now ≡ journal.now ∷ [] }
    requires only { journal.now.entries ≡ Posting.Cut entry.now ∷ [] }
    requires logs { length entry.now.logs ≡ 2 }
{
    let Ok(Some(cut)) = cut_at(alloc, figures, planner, FIRST) else {
        return;
    };
    let right = cut.pieces.len();
    let wrong = 1;
    prove!(right != wrong);
}

/// The cut is given as the best one at base prices.
pub fn best_is_the_cut(
    alloc: Global,
    figures: &Figures<'_>,
    planner: &mut Planner,
    journal: &Journal,
    entry: &Entry,
)
    requires shown { IsShown figures.now planner.old }
    requires of { figures.now.journals.now ≡ journal.now ∷ [] }
    requires after_a_demand { IsAfterDemand journal.now.entries entry.now }
    requires outvalued { IsOutvalued figures.now.instruction.now entry.now }
{
    let Ok(Some(cut)) = cut_at(alloc, figures, planner, SECOND) else {
        return;
    };
    let right = cut.best;
    let wrong = cut.at_base;
    prove!(right != wrong);
}

/// A log's base price is given as the price that was in force.
pub fn piece_at_its_base_price(
    alloc: Global,
    figures: &Figures<'_>,
    planner: &mut Planner,
    journal: &Journal,
    entry: &Entry,
)
    requires shown { IsShown figures.now planner.old }
    requires of { figures.now.journals.now ≡ journal.now ∷ [] }
    requires after_a_demand { IsAfterDemand journal.now.entries entry.now }
    requires off { IsOffBase figures.now.instruction.now journal.now.sheets entry.now }
{
    let Ok(Some(cut)) = cut_at(alloc, figures, planner, SECOND) else {
        return;
    };
    let Some(piece) = cut.pieces.get(0) else {
        return;
    };
    let right = piece.price;
    let wrong = piece.base_price;
    prove!(right != wrong);
}
