//! Places among the postings of several journals.
ghost use Rattle.std.specs.Prelude.{◌≡◌};
ghost use Rattle.std.specs.Option.{option_map};
ghost use Rattle.buck_page_figures.specs.Pieces.{IsPlaceAt, posting_in};

use crate::figures::{Figures, Place};
use buck_book_postings::Posting;

/// The place of a posting that stands at a position through all journals, if there is one.
pub fn place_of(figures: &Figures<'_>, position: usize) -> Option<Place>
    ensures { IsPlaceAt figures.now.journals.now position result }
{
    let journals = figures.journals;
    let mut at = position;
    for journal in 0..journals.len() {
        let read = &journals[journal];
        let here = read.entries.len();
        if at < here {
            return Some(Place { journal, at });
        }
        at -= here;
    }
    None
}

/// The posting at a place, if there is one.
pub fn posting_at<'a>(figures: &Figures<'a>, place: Place) -> Option<&'a Posting>
    ensures { option_map (λ x. x.now) result ≡ posting_in figures.now.journals.now place }
{
    match figures.journals.get(place.journal) {
        Some(journal) => journal.entries.get(place.at),
        None => None,
    }
}
