//! The section of the stems that are drawn.
ghost use Rattle.std.specs.Prelude.{◌<◌, ◌≤◌, ◌^◌, length};
ghost use Rattle.buck_page_figures.specs.Shown.{IsShown};

use crate::drawing::{Scale, scale_of, write_drawing};
use crate::picks::{Pick, picked, write_reasons};
use crate::under::{write_grades, write_labels, write_metres, write_strip};
use buck_dp::Planner;
use buck_page_figures::{Cut, Figures, cut_at};
use buck_page_text::{Apart, Chip, DOT, Grouped, Metres, Millionths, Several};
use buck_record::Memory;
use std::alloc::Global;

/// Writes why a stem is drawn, and what there is to say of it; of several journals, in which it stands.
fn write_caption(
    out: &mut String,
    figures: &Figures<'_>,
    pick: &Pick<'_>,
    cut: &Cut<'_>,
) -> Result<(), Memory> {
    let entry = pick.entry;
    let stem = &entry.stem;
    write!(out, "<figcaption><b>")?;
    write_reasons(out, figures, pick)?;
    write!(
        out,
        "</b> <small>stem&nbsp;{}{DOT}{}&nbsp;m{DOT}harvester&nbsp;{}{DOT}posting&nbsp;{}",
        stem.number(),
        Metres(u128::from(stem.length())),
        entry.harvester,
        Grouped(pick.place.at as u128)
    )?;
    if figures.journals.len() > 1 {
        let number = (pick.place.journal as u64).saturating_add(1);
        write!(out, " of journal&nbsp;{number}")?;
    }
    let logs = Several::of(cut.pieces.len() as u128, "log");
    let worth = Millionths(u128::from(cut.at_base));
    write!(out, "{DOT}{logs}{DOT}worth {worth} at base prices, ")?;
    let cost = cut.best - cut.at_base;
    if cost == 0 {
        write!(out, "as much as")?;
    } else {
        write!(out, "{} less than", Millionths(u128::from(cost)))?;
    }
    Ok(write!(out, " unsteered</small></figcaption>")?)
}

/// Writes all that is shown of a stem; under it stands the cutting unsteered, if that is another one.
fn write_stem(
    alloc: Global,
    out: &mut String,
    figures: &Figures<'_>,
    pick: &Pick<'_>,
    cut: &Cut<'_>,
    scale: &Scale,
) -> Result<(), Memory> {
    let instruction = figures.instruction;
    let entry = pick.entry;
    let stem = &entry.stem;
    let best = cut.unsteered.logs.as_slice();
    write!(out, "<figure class=\"stem\">")?;
    write_caption(out, figures, pick, cut)?;
    write!(
        out,
        "<div class=\"rows\"><div class=\"rowname\">as cut<br><small>m, top&nbsp;mm</small></div><div>"
    )?;
    write_drawing(alloc, out, cut, scale)?;
    write!(out, "<div class=\"labels\">")?;
    write_labels(out, instruction, cut.pieces.as_slice(), scale)?;
    write!(out, "</div></div>")?;
    if entry.cutting.logs.as_slice() != best {
        write_strip(out, instruction, best, scale)?;
    }
    write!(
        out,
        "<div class=\"rowname\">grade</div><div class=\"grades\">"
    )?;
    write_grades(out, stem, scale)?;
    write!(out, "</div><div></div><div class=\"xs\">")?;
    write_metres(out, scale)?;
    Ok(write!(out, "</div></div></figure>")?)
}

/// Writes what stands above the stems: how many are drawn, how to read them, and the key of the assortments.
fn write_lead(out: &mut String, figures: &Figures<'_>, drawn: usize) -> Result<(), Memory> {
    let stems = Several::of(drawn as u128, "stem");
    write!(
        out,
        "\n<section id=\"stems\"><h2>Stems</h2><p class=\"lead\">{stems} from the side, butt to the left, all to one \
         scale in metres; thickness is drawn larger. Below each log are its assortment, length and top diameter. Wood \
         in grey is in no log."
    )?;
    let left = figures.total.stems.saturating_sub(drawn as u64);
    if left > 0 {
        let more = Several::of(u128::from(left), "stem");
        let are = if left == 1 { "is" } else { "are" };
        write!(out, " {more} {are} not drawn.")?;
    }
    write!(out, "</p><p class=\"keys\">")?;
    for (at, assortment) in figures.instruction.assortments().iter().enumerate() {
        write!(out, "{} {}&ensp;", Chip(at), Apart(assortment.name()))?;
    }
    Ok(write!(out, "</p>")?)
}

/// Writes the section of the stems, if one was cut. Refused as `Memory` alone.
pub fn write_stems(
    alloc: Global,
    out: &mut String,
    figures: &Figures<'_>,
    planner: &mut Planner,
) -> Result<(), Memory>
    requires { IsShown figures.now planner.old }
{
    let picks = picked(alloc, figures)?;
    if picks.is_empty() {
        return Ok(());
    }
    write_lead(out, figures, picks.len())?;
    let scale = scale_of(picks.as_slice());
    for pick in picks.as_slice() {
        if let Some(cut) = cut_at(alloc, figures, planner, pick.place)? {
            write_stem(alloc, out, figures, pick, &cut, &scale)?;
        }
    }
    Ok(write!(out, "</section>")?)
}
