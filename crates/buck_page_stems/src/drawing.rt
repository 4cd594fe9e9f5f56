//! Stems from the side, with the logs that were cut of them.
ghost use Rattle.std.specs.Prelude.{◌<◌, ◌≤◌, ◌^◌};
ghost use Rattle.buck_stem_shape.specs.Stem.{stem_length};

use crate::picks::Pick;
use buck_page_figures::{Cut, Piece};
use buck_page_text::{Millionths, letter, tick_step};
use buck_record::Memory;
use buck_stem_shape::Stem;
use std::alloc::Global;

/// The scale of all drawn stems: how long a drawing is, in mm, and the greatest diameter, in mm.
#[derive(Clone, Copy)]
pub(crate) struct Scale {
    pub whole: u64,
    pub most: u32,
    ghost some: { (0 < whole) × (whole < 2 ^ 33) },
}

/// The scale in which these stems fit: up to a whole metre, and 1 metre at least.
pub(crate) fn scale_of(picks: &[Pick<'_>]) -> Scale {
    let mut longest: u32 = 0;
    let mut most: u32 = 1;
    for pick in picks {
        let entry = pick.entry;
        let stem = &entry.stem;
        longest = longest.max(stem.length());
        most = most.max(stem.diameter_at(0));
    }
    // No stem is longer than 40 m.
    let metres = u64::from(longest.div_ceil(1000)).max(1).min(40);
    Scale {
        whole: 1000 * metres,
        most,
    }
}

/// Whether a stretch of a stem has the same diameter a step before a place and a step after it: then the place says
/// nothing.
fn is_level(stem: &Stem, from: u32, to: u32, x: u32) -> bool
    requires within { to ≤ stem_length stem.now.samples }
    requires between { (from < x) × (x < to) }
{
    let diameter = stem.diameter_at(x);
    let before = stem.diameter_at(from.max(x.saturating_sub(100)));
    let after = stem.diameter_at(to.min(x.saturating_add(100)));
    before == diameter && after == diameter
}

/// The side of a stretch of a stem: its ends, and the places each 100 mm between that say something, in mm from the
/// butt, each with its diameter.
fn side_of(alloc: Global, stem: &Stem, from: u32, to: u32) -> Result<Vec<(u32, u32)>, Memory>
    requires { (from ≤ to) × (to ≤ stem_length stem.now.samples) }
{
    let mut side = Vec::new(alloc);
    side.push((from, stem.diameter_at(from)))?;
    for k in from / 100 + 1..to.div_ceil(100) {
        let x = 100 * k;
        if !is_level(stem, from, to, x) {
            side.push((x, stem.diameter_at(x)))?;
        }
    }
    if from < to {
        side.push((to, stem.diameter_at(to)))?;
    }
    Ok(side)
}

/// Writes a stretch of a stem as the outline of a drawing: the upper edge out, the lower one back. The unit of heights
/// is half a mm.
fn write_stretch(
    alloc: Global,
    out: &mut String,
    stem: &Stem,
    from: u32,
    to: u32,
    most: u32,
) -> Result<(), Memory>
    requires { (from ≤ to) × (to ≤ stem_length stem.now.samples) }
{
    let side = side_of(alloc, stem, from, to)?;
    for place in side.as_slice() {
        write!(out, "{},{} ", place.0, most.saturating_sub(place.1))?;
    }
    for i in (0..side.len()).rev() {
        let (x, diameter) = side[i];
        write!(out, "{x},{}", most.saturating_add(diameter))?;
        if i > 0 {
            write!(out, " ")?;
        }
    }
    Ok(())
}

/// Writes a log's outline, and what it is.
fn write_log(
    alloc: Global,
    out: &mut String,
    stem: &Stem,
    piece: &Piece,
    scale: &Scale,
) -> Result<(), Memory> {
    let log = piece.log;
    let to = log.start.saturating_add(log.length).min(stem.length());
    let from = log.start.min(to);
    write!(out, "<polygon class=\"log a{}\" points=\"", log.assortment)?;
    write_stretch(alloc, out, stem, from, to, scale.most)?;
    Ok(write!(
        out,
        "\"><title>{}: {} mm from {} mm, top {} mm, price {}, worth {}</title></polygon>",
        letter(usize::from(log.assortment)),
        log.length,
        log.start,
        piece.top,
        piece.price,
        Millionths(u128::from(piece.worth))
    )?)
}

/// Writes a stem from the side: all of it in grey, and its logs above that.
pub(crate) fn write_drawing(
    alloc: Global,
    out: &mut String,
    cut: &Cut<'_>,
    scale: &Scale,
) -> Result<(), Memory> {
    let entry = cut.entry;
    let stem = &entry.stem;
    let whole = scale.whole;
    let height = 2 * u64::from(scale.most);
    write!(
        out,
        "<svg viewBox=\"0 0 {whole} {height}\" preserveAspectRatio=\"none\" role=\"img\" \
         aria-label=\"Stem {} from the side\">",
        stem.number()
    )?;
    let step = 1000 * tick_step(whole / 1000);
    for k in 0..6u64 {
        let x = k * step;
        if x <= whole {
            write!(out, "<path class=\"grid\" d=\"M{x},0V{height}\"/>")?;
        }
    }
    write!(out, "<polygon class=\"waste\" points=\"")?;
    write_stretch(alloc, out, stem, 0, stem.length(), scale.most)?;
    write!(out, "\"/>")?;
    for piece in cut.pieces.as_slice() {
        write_log(alloc, out, stem, piece, scale)?;
    }
    Ok(write!(out, "</svg>")?)
}
