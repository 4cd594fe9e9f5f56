//! The section of an assortment: what it is, its curves and its matrices.
ghost use Rattle.std.specs.Prelude.{◌<◌, length};

use buck_apt_instruction::Assortment;
use buck_page_charts::{write_degree_chart, write_matrices, write_price_chart};
use buck_page_figures::{Figures, Part};
use buck_page_sections::{is_steered, mean_log};
use buck_page_text::{Apart, Chip, DOT, Grouped, Millionths, Several};
use buck_record::Memory;
use std::alloc::Global;

/// Writes an assortment's species, grades, kind of price and trim.
fn write_kind(out: &mut String, assortment: &Assortment) -> Result<(), Memory> {
    let grades = assortment.grades();
    let s = if grades.len() > 1 { "s" } else { "" };
    write!(out, "species&nbsp;{}{DOT}grade{s}", assortment.species())?;
    for grade in grades {
        write!(out, "&nbsp;{grade}")?;
    }
    if assortment.price_kind() == 1 {
        write!(out, "{DOT}priced per m&#179;")?;
    } else {
        write!(out, "{DOT}priced per piece")?;
    }
    if assortment.trim() > 0 {
        write!(out, "{DOT}{}&nbsp;mm trim", assortment.trim())?;
    }
    Ok(())
}

/// Writes how many logs of an assortment were cut and of which volume, as cut and unsteered, and how long a log is.
fn write_logs(out: &mut String, cut: &Part, unsteered: &Part) -> Result<(), Memory> {
    let logs = u128::from(cut.logs);
    write!(
        out,
        "{DOT}{} and {}&nbsp;m&#179; cut, unsteered {} and {}",
        Several::of(logs, "log"),
        Millionths(cut.volume),
        Grouped(u128::from(unsteered.logs)),
        Millionths(unsteered.volume)
    )?;
    if logs > 0 {
        write!(out, "{DOT}mean log {}&nbsp;m", mean_log(cut.logged, logs))?;
    }
    Ok(())
}

/// Writes the curves and the matrices of the assortment at a place.
fn write_drawings(
    alloc: Global,
    out: &mut String,
    figures: &Figures<'_>,
    at: usize,
) -> Result<(), Memory>
    requires { at < length figures.now.instruction.now.assortments }
{
    if figures.postings > 0 {
        write!(out, "<div class=\"charts\">")?;
        write_degree_chart(alloc, out, figures, at)?;
        write_price_chart(out, figures, at)?;
        write!(out, "</div>")?;
    }
    write_matrices(out, figures, at)
}

/// Writes the section of the assortment at a place: one line if it has no target.
pub(crate) fn write_assortment(
    alloc: Global,
    out: &mut String,
    figures: &Figures<'_>,
    at: usize,
) -> Result<(), Memory>
    requires { at < length figures.now.instruction.now.assortments }
{
    let assortment = &figures.instruction.assortments()[at];
    let steered = is_steered(figures, at);
    write!(
        out,
        "\n<section class=\"assortment\" id=\"a{at}\"><h2>{} {} <small>",
        Chip(at),
        Apart(assortment.name())
    )?;
    if !steered {
        write!(out, "no target, not steered{DOT}")?;
    }
    write_kind(out, assortment)?;
    write_logs(
        out,
        &figures.assortments[at],
        &figures.unsteered_assortments[at],
    )?;
    write!(out, "</small></h2>")?;
    if steered {
        write_drawings(alloc, out, figures, at)?;
    }
    Ok(write!(out, "</section>")?)
}
