//! The targets that came into force, one after the other.
ghost use Rattle.std.specs.Prelude.{◌<◌, length};

use crate::list::LIST_END;
use buck_apt_instruction::Instruction;
use buck_book_postings::{Demand, Posting};
use buck_page_figures::{Figures, part, place_of, posting_at};
use buck_page_text::{Chip, Grouped, Several};
use buck_record::Memory;

/// At most so many demands have a row.
const MOST_DEMANDS: u64 = 12;

/// How many of some targets are others than before.
fn changed(before: &[u32], now: &[u32]) -> usize {
    before
        .iter()
        .zip(now.iter())
        .filter(|pair| *pair.0 != *pair.1)
        .count()
}

/// The targets of the assortment at a place: those of a demand, or the instruction's.
fn wanted_in<'a>(instruction: &'a Instruction, demand: Option<&'a Demand>, at: usize) -> &'a [u32]
    requires { at < length instruction.now.assortments }
{
    match demand {
        Some(demand) => part(instruction, demand.targets.as_slice(), at),
        None => instruction.assortments()[at].targets(),
    }
}

/// Writes how many classes of each assortment are wanted, and how many got another target; of a demand, or, if there is
/// none, of the instruction.
fn write_targets_row(
    out: &mut String,
    instruction: &Instruction,
    before: Option<&Demand>,
    now: Option<&Demand>,
) -> Result<(), Memory> {
    for at in 0..instruction.assortments().len() {
        let targets = wanted_in(instruction, now, at);
        let wanted = targets.iter().filter(|target| **target > 0).count();
        let others = changed(wanted_in(instruction, before, at), targets);
        write!(out, "<td>{}", Grouped(wanted as u128))?;
        if others > 0 {
            write!(out, "<s>{} changed</s>", Grouped(others as u128))?;
        }
        write!(out, "</td>")?;
    }
    Ok(write!(out, "</tr>")?)
}

/// Writes that there are demands without a row.
fn write_hidden(out: &mut String, figures: &Figures<'_>, hidden: u64) -> Result<(), Memory> {
    let changes = Several::of(u128::from(hidden), "change");
    write!(
        out,
        "<tr><th scope=\"row\">{changes} not shown</th><td></td><td></td>"
    )?;
    for _ in figures.instruction.assortments() {
        write!(out, "<td></td>")?;
    }
    Ok(write!(out, "</tr>")?)
}

/// The posting at a position through all journals, if there is one.
fn posting_in<'a>(figures: &Figures<'a>, position: usize) -> Option<&'a Posting> {
    posting_at(figures, place_of(figures, position)?)
}

/// Writes a row for each of the last demands, after those hidden.
fn write_demands(out: &mut String, figures: &Figures<'_>, hidden: u64) -> Result<(), Memory> {
    let mut number: u64 = 0;
    let mut before: Option<&Demand> = None;
    for position in 0..figures.postings {
        if let Some(Posting::Demand(demand)) = posting_in(figures, position) {
            number = number.saturating_add(1);
            if number > hidden {
                write!(
                    out,
                    "<tr><th scope=\"row\">T{}</th><td>{}</td><td>{}</td>",
                    Grouped(u128::from(number)),
                    Grouped(position as u128),
                    demand.harvester
                )?;
                write_targets_row(out, figures.instruction, before, Some(demand))?;
            }
            before = Some(demand);
        }
    }
    Ok(())
}

/// Writes the section of the targets, if there is a demand. Refused as `Memory` alone.
pub fn write_targets(out: &mut String, figures: &Figures<'_>) -> Result<(), Memory> {
    let demands = figures.total.demands;
    if demands == 0 {
        return Ok(());
    }
    write!(
        out,
        "\n<section><h2>Targets</h2><p class=\"lead\">How many classes of each assortment are wanted, and how many got \
         another target. The charts mark each change; all other figures use the last targets."
    )?;
    if figures.journals.len() > 1 {
        write!(
            out,
            " Each journal begins with the instruction&#8217;s targets; postings are counted through all journals."
        )?;
    }
    write!(
        out,
        "</p><div class=\"scroll\"><table class=\"list\"><thead><tr><th scope=\"col\">Targets</th>\
         <th scope=\"col\">at posting</th><th scope=\"col\">by harvester</th>"
    )?;
    for at in 0..figures.instruction.assortments().len() {
        write!(out, "<th scope=\"col\">{}</th>", Chip(at))?;
    }
    write!(
        out,
        "</tr></thead><tbody><tr><th scope=\"row\">Instruction</th><td>&#8211;</td><td>&#8211;</td>"
    )?;
    write_targets_row(out, figures.instruction, None, None)?;
    let hidden = demands.saturating_sub(MOST_DEMANDS);
    if hidden > 0 {
        write_hidden(out, figures, hidden)?;
    }
    write_demands(out, figures, hidden)?;
    Ok(write!(out, "{LIST_END}")?)
}
