//! What is said of a closed fleet: its report, and its degrees of apportionment.
ghost use Rattle.std.specs.Prelude.{◌<◌, IfOk, length};
ghost use Rattle.buck_book_postings.specs.Degree.{IsDegree};
ghost use Rattle.buckfleet_engine_text.specs.Report.{IsReport};

use buck_book_postings::degree_at;
use buck_fleet::Closed;
use buckfleet_engine_text::{TextFault, report_of};
use std::alloc::Global;

/// The degree of apportionment of the assortment at a place, in ten-thousandths, rounded down once: how far the logs
/// that were cut have the proportions of those wanted by the targets in force at the end. None if nothing is wanted
/// of it or nothing was cut.
pub fn degree(closed: &Closed, assortment: usize) -> Option<u32>
    requires exists { assortment < length closed.now.history.instruction.assortments }
    ensures { IsDegree closed.now.history assortment result }
{
    degree_at(
        closed.instruction(),
        closed.targets(),
        closed.counts(),
        assortment,
    )
}

/// The report of a closed fleet: that of its history, as [`report_of`](buckfleet_engine_text::report_of) makes it.
/// `Memory` if an allocation failed.
pub fn report_text(alloc: Global, closed: &Closed) -> Result<Vec<u8>, TextFault>
    ensures { IfOk result (λ text. IsReport closed.now.history text.items) }
{
    report_of(alloc, closed.parts())
}
