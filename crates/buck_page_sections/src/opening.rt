//! The head of the page: what was cut, what was checked, and the sums.
use crate::head::{Files, SIGN};
use crate::rates::{length_left, steering_rate};
use buck_page_figures::{Figures, Own, Sums};
use buck_page_text::{Fixed, Grouped, Known, Metres, Millionths, Several, half_up, limit_text};
use buck_record::Memory;
use std::collections::BTreeMap;
use std::fmt;

/// Writes a tile's figure in its unit; what it is follows.
fn open_tile<V: fmt::Display + Drop>(
    out: &mut String,
    value: V,
    unit: &'static str,
) -> Result<(), Memory> {
    Ok(write!(
        out,
        "<div class=\"tile\"><b>{value}<small>{unit}</small></b><span>"
    )?)
}

/// What ends a tile.
const TILE_END: &str = "</span></div>";

/// How many harvesters cut a stem.
fn cutting(harvesters: &BTreeMap<u32, Own>) -> usize {
    harvesters.values().filter(|own| own.sums.stems > 0).count()
}

/// Writes how many stems and logs there are.
fn write_number_tiles(out: &mut String, figures: &Figures<'_>) -> Result<(), Memory> {
    let total = &figures.total;
    let stems = u128::from(total.stems);
    let logs = total.logs;
    let by = Several::of(cutting(&figures.harvesters) as u128, "harvester");
    open_tile(out, Grouped(stems), "")?;
    write!(out, "stems, by {by}{TILE_END}")?;
    open_tile(out, Grouped(logs), "")?;
    if stems == 0 {
        write!(out, "logs{TILE_END}")?;
    } else {
        let each = Fixed::of(half_up(10 * logs, stems), 1);
        write!(out, "logs, {each} a stem{TILE_END}")?;
    }
    Ok(())
}

/// Writes the volume of the logs.
fn write_volume_tile(out: &mut String, total: &Sums) -> Result<(), Memory> {
    open_tile(out, Millionths(total.volume), "m&#179;")?;
    if total.logs == 0 {
        write!(out, "volume{TILE_END}")?;
    } else {
        let each = Millionths(half_up(total.volume, total.logs));
        write!(out, "{each} m&#179; a log{TILE_END}")?;
    }
    Ok(())
}

/// Writes how much length is left.
fn write_length_tile(out: &mut String, total: &Sums) -> Result<(), Memory> {
    let left = if total.length == 0 {
        Known(Some(Fixed::of(0, 1)))
    } else {
        length_left(total)
    };
    open_tile(out, left, "%")?;
    Ok(write!(
        out,
        "of stem length left, {} of {}&nbsp;m{TILE_END}",
        Metres(total.left()),
        Metres(total.length)
    )?)
}

/// Writes what steering cost.
fn write_account(out: &mut String, total: &Sums) -> Result<(), Memory> {
    let rate = match steering_rate(total).0 {
        Some(rate) => rate,
        None => Fixed::of(0, 2),
    };
    Ok(write!(
        out,
        "<table class=\"account\"><caption>What steering cost <small>price units</small></caption><tbody>\
         <tr><th scope=\"row\">Unsteered: the best cuttings at base prices</th><td>{}</td></tr>\
         <tr><th scope=\"row\">As cut, at base prices</th><td>{}</td></tr>\
         <tr class=\"total\"><th scope=\"row\">Cost of steering, {rate}&nbsp;%</th><td>{}</td></tr>\
         <tr class=\"aside\"><th scope=\"row\">As cut, at the prices then in force</th><td>{}</td></tr>\
         </tbody></table>",
        Millionths(total.best),
        Millionths(total.at_base),
        Millionths(total.cost()),
        Millionths(total.worth)
    )?)
}

/// Writes the verdict: what was checked, and how far prices may move.
fn write_verdict(out: &mut String, figures: &Figures<'_>, journals: usize) -> Result<(), Memory> {
    let limit = figures.instruction.limit();
    write!(
        out,
        "<p class=\"verdict\">{SIGN}\"M5,10L9,14L15,6\"/></svg><span><b>Checked: "
    )?;
    if journals > 1 {
        write!(out, "{journals} journals, each lawful by itself")?;
    } else {
        write!(out, "lawful")?;
    }
    write!(
        out,
        ".</b> Every stem was cut for the most worth at the prices then in force, and prices moved only as targets and \
         logs allow"
    )?;
    if limit > 0 {
        write!(
            out,
            ", by {}&nbsp;% of the base price at most",
            limit_text(limit)
        )?;
    } else {
        write!(out, "; this instruction lets no price move")?;
    }
    Ok(write!(out, ".</span></p>")?)
}

/// Writes the head of the page: what was cut, what was checked, and the sums. Refused as `Memory` alone.
pub fn write_opening(
    out: &mut String,
    figures: &Figures<'_>,
    files: &Files<'_>,
) -> Result<(), Memory> {
    let total = &figures.total;
    let stems = Several::of(u128::from(total.stems), "stem");
    let logs = Several::of(total.logs, "log");
    write!(out, "{stems}, {logs}")?;
    if total.demands > 0 {
        let changes = Several::of(u128::from(total.demands), "change");
        write!(out, " and {changes} of targets")?;
    }
    write!(out, "</h1>{files}")?;
    write_verdict(out, figures, files.journals.len())?;
    write!(out, "<div class=\"top\"><div class=\"tiles\">")?;
    write_number_tiles(out, figures)?;
    write_volume_tile(out, total)?;
    write_length_tile(out, total)?;
    write!(out, "</div>")?;
    write_account(out, total)?;
    Ok(write!(out, "</div></header>")?)
}
