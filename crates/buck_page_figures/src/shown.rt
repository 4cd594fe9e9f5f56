//! The cuts of some journals, log by log.
ghost use Rattle.std.specs.Prelude.{◌≡◌, IfOk, map};
ghost use Rattle.buck_page_figures.specs.Pieces.{IsToldAt};
ghost use Rattle.buck_page_figures.specs.Shown.{IsShown};

use crate::cuts::cut_of;
use crate::figures::{Cut, Figures, Place};
use buck_book_postings::Posting;
use buck_dp::Planner;
use buck_record::Memory;
use std::alloc::Global;

/// The cut at a place log by log, if there is one. The planner plans at base prices. Refused as `Memory` alone.
pub fn cut_at<'a>(
    alloc: Global,
    figures: &Figures<'a>,
    planner: &mut Planner,
    place: Place,
) -> Result<Option<Cut<'a>>, Memory>
    requires { IsShown figures.now planner.old }
    ensures same { planner.new ≡ planner.old }
    ensures told { IfOk result (IsToldAt planner.old figures.now.journals.now place) }
{
    let Some(journal) = figures.journals.get(place.journal) else {
        return Ok(None);
    };
    match journal.entries.get(place.at) {
        Some(Posting::Cut(entry)) => {
            let cut = cut_of(alloc, planner, journal.sheets.as_slice(), place, entry)?;
            Ok(Some(cut))
        }
        Some(Posting::Demand(_)) => Ok(None),
        None => Ok(None),
    }
}
