//! The page that a mill opens.
ghost use Rattle.buck_page_figures.specs.Shown.{IsShown};

use crate::assortment::write_assortment;
use buck_dp::Planner;
use buck_page_figures::{Figures, grade_free_of};
use buck_page_sections::{
    Files, PAGE_END, begin_page, write_costs, write_degrees, write_harvesters, write_lacking,
    write_notes, write_opening, write_targets, write_wood_section,
};
use buck_page_stems::write_stems;
use buck_record::Memory;
use std::alloc::Global;

/// Returns the page of lawful journals, given their figures, a planner at base prices and the names of the files. It
/// holds no date and loads nothing: what is the same gives the same page. Refused as `Memory` alone.
pub fn page(
    alloc: Global,
    figures: &Figures<'_>,
    planner: &mut Planner,
    files: &Files<'_>,
) -> Result<String, Memory>
    requires { IsShown figures.now planner.old }
{
    let total = &figures.total;
    let title = format!(in alloc; "{} stems, {} logs", total.stems, total.logs)?;
    let mut out = begin_page(alloc, title.as_str())?;
    write_opening(&mut out, figures, files)?;
    write!(&mut out, "\n<main>\n")?;
    write_wood_section(&mut out, figures)?;
    write_degrees(&mut out, figures)?;
    write_lacking(alloc, &mut out, figures)?;
    write_harvesters(&mut out, figures)?;
    let free = grade_free_of(alloc, figures)?;
    write_costs(&mut out, figures, &free)?;
    write_targets(&mut out, figures)?;
    for at in 0..figures.instruction.assortments().len() {
        write_assortment(alloc, &mut out, figures, at)?;
    }
    write_stems(alloc, &mut out, figures, planner)?;
    write_notes(&mut out, figures)?;
    write!(&mut out, "\n</main>{PAGE_END}")?;
    Ok(out)
}
