//! Tables for a spreadsheet.
//!
//! Their first line names the columns. Fields are set apart by a comma, numbers are plain, a field is empty if there
//! is nothing, and a name stands in quotes.
ghost use Rattle.buck_page_figures.specs.Shown.{IsShown};

use crate::classes::{put_assortments, put_classes};
use crate::degrees::{put_degrees, put_lacking};
use crate::postings::{put_logs, put_postings};
use buck_dp::Planner;
use buck_page_cells::Table;
use buck_page_figures::Figures;
use buck_record::Memory;
use std::alloc::Global;

/// A table of lawful journals, given their figures and a planner at base prices. Refused as `Memory` alone.
pub fn table_of(
    alloc: Global,
    figures: &Figures<'_>,
    planner: &mut Planner,
    table: Table,
) -> Result<Vec<u8>, Memory>
    requires { IsShown figures.now planner.old }
{
    let mut out = Vec::new(alloc);
    match table {
        Table::Classes => put_classes(alloc, &mut out, figures, planner)?,
        Table::Postings => put_postings(alloc, &mut out, figures, planner)?,
        Table::Logs => put_logs(alloc, &mut out, figures, planner)?,
        Table::Degrees => put_degrees(alloc, &mut out, figures)?,
        Table::Assortments => put_assortments(alloc, &mut out, figures, planner)?,
        Table::Lacking => put_lacking(alloc, &mut out, figures)?,
    }
    Ok(out)
}
