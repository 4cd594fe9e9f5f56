//! Wrong figures of several journals.
ghost use Rattle.std.specs.Prelude.{◌≡◌, ◌≤◌, ◌<◌, All, length};
ghost use Rattle.buck_book_postings.specs.History.{IsLawful};
ghost use Rattle.buck_book_postings.specs.declared.posting.TheConstants.{MOST_POSTINGS};
ghost use Rattle.buck_book_journal.specs.Journal.{history_of};
ghost use Rattle.buck_page_figures.specs.Figures.{base_sheet};
ghost use Rattle.buck_page_figures.specs.Journals.{postings_of};
ghost use Rattle.buck_page_figures.specs.Shown.{IsShown};
ghost use Rattle.wrong_page.specs.Cuts.{AreADayEach, AreOfStemsEach};

use buck_apt_instruction::Instruction;
use buck_book_journal::Journal;
use buck_dp::Planner;
use buck_page_figures::{Figures, Place, cut_at, figures_of, place_of};
use std::alloc::Global;

/// The last journal is left out.
pub fn journal_left_out(
    alloc: Global,
    planner: &mut Planner,
    instruction: &Instruction,
    journals: &[Journal],
)
    requires base { planner.old ≡ base_sheet instruction.now }
    requires some { 0 < length journals.now }
    requires few { length (postings_of journals.now) ≤ MOST_POSTINGS }
    requires lawful { All (λ j. IsLawful (history_of instruction.now j)) journals.now }
    requires two { AreADayEach journals.now }
{
    let Ok(figures) = figures_of(alloc, planner, instruction, journals) else {
        return;
    };
    let right = figures.total.stems;
    let wrong = 1;
    prove!(right != wrong);
}

/// The first posting of the second journal is taken for one of the first.
pub fn posting_of_the_journal_before(figures: &Figures<'_>)
    requires { AreADayEach figures.now.journals.now }
{
    let Some(place) = place_of(figures, 1) else {
        return;
    };
    let right = place.journal;
    let wrong = 0;
    prove!(right != wrong);
}

/// The last posting has no place.
pub fn last_posting_without_a_place(figures: &Figures<'_>)
    requires { AreADayEach figures.now.journals.now }
{
    let right = place_of(figures, 1).is_some();
    let wrong = false;
    prove!(right != wrong);
}

/// There is a place past the last posting.
pub fn place_past_the_last_posting(figures: &Figures<'_>)
    requires { AreADayEach figures.now.journals.now }
{
    let right = place_of(figures, 2).is_some();
    let wrong = true;
    prove!(right != wrong);
}

/// A cut of the second journal is taken for the one at the same place in the first.
pub fn cut_of_the_first_journal(alloc: Global, figures: &Figures<'_>, planner: &mut Planner)
    requires shown { IsShown figures.now planner.old }
    requires two { AreOfStemsEach figures.now.journals.now }
{
    let second = Place { journal: 1, at: 0 };
    let Ok(Some(cut)) = cut_at(alloc, figures, planner, second) else {
        return;
    };
    let entry = cut.entry;
    let right = entry.stem.number();
    let wrong = 1;
    prove!(right != wrong);
}
