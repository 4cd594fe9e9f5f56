//! Curves over the postings, and of them how degrees came about.
ghost use Rattle.std.specs.Prelude.{◌≡◌, ◌<◌, ◌≤◌, length};

use buck_book_postings::degree_at;
use buck_page_figures::{Figures, Point, degrees_in};
use buck_page_text::{Fixed, Grouped, degree_text, letter, percent_at, tick_step};
use buck_record::Memory;
use std::alloc::Global;
use std::fmt;

/// A curve's width, and the height of a degree curve.
const FULL: u32 = 10_000;

/// At most so many demands have a flag of their own in a chart.
const MOST_FLAGS: u64 = 6;

/// A place of a curve.
#[derive(Clone, Copy)]
struct Place {
    x: u128,
    y: u32,
}

/// A label of a chart's left axis, and its place.
#[derive(Clone, Copy)]
pub(crate) struct Tick {
    pub y: u32,
    pub sign: &'static str,
    pub size: Fixed,
}

/// The frame of the curves of the assortment at a place.
#[derive(Drop)]
pub(crate) struct Frame<'a> {
    pub what: &'static str,
    pub at: usize,
    pub height: u32,
    pub ticks: &'a [Tick],
    ghost tall: { 0 < height },
}

/// How many postings there are.
pub(crate) fn postings_of(figures: &Figures<'_>) -> u64
    ensures { result ≡ figures.now.postings }
{
    figures.postings as u64
}

/// How far along the curves a point stands that has so many postings before it.
pub(crate) fn along(after: usize, last: u64) -> u128
    requires { 0 < last }
{
    after as u128 * u128::from(FULL) / u128::from(last)
}

/// A line in the style of a curve, as its key shows it.
#[derive(Drop)]
pub(crate) struct Stroke(pub &'static str);

impl fmt::Display for Stroke {
    fn fmt<W: fmt::Write>(&self, f: &mut fmt::Formatter<W>) -> fmt::Result {
        let style = self.0;
        write!(
            f,
            "<svg viewBox=\"0 0 24 8\" width=\"24\" height=\"8\" aria-hidden=\"true\">\
             <path class=\"curve {style}\" d=\"M0,4H24\"/></svg>"
        )
    }
}

/// Writes a curve, broken where it has no place; a place alone is a short stroke.
fn write_line(
    out: &mut String,
    style: &'static str,
    places: &[Option<Place>],
) -> Result<(), Memory> {
    for i in 0..places.len() {
        let Some(Place { x, y }) = places[i] else {
            continue;
        };
        let begins = i == 0 || places[i - 1].is_none();
        let ends = i + 1 == places.len() || places[i + 1].is_none();
        if begins {
            write!(out, "<polyline class=\"curve {style}\" points=\"")?;
        } else {
            write!(out, " ")?;
        }
        if begins && ends {
            write!(out, "{},{y} ", x.saturating_sub(40))?;
        }
        write!(out, "{x},{y}")?;
        if ends {
            write!(out, "\"/>")?;
        }
    }
    Ok(())
}

/// Writes the labels of the left axis.
fn write_left(out: &mut String, frame: &Frame<'_>) -> Result<(), Memory> {
    let height = u64::from(frame.height);
    for tick in frame.ticks {
        let top = percent_at(u64::from(tick.y), height);
        write!(
            out,
            "<span style=\"top:{top}\">{}{}</span>",
            tick.sign, tick.size
        )?;
    }
    Ok(())
}

/// Writes a line at each demand, up to the height of a chart.
fn write_marks(out: &mut String, points: &[Point<'_>], last: u64, height: u32) -> Result<(), Memory>
    requires { 0 < last }
{
    for point in points {
        if point.demand {
            let x = along(point.after, last);
            write!(out, "<path class=\"mark\" d=\"M{x},0V{height}\"/>")?;
        }
    }
    Ok(())
}

/// Writes a line where a journal begins, from the second one on, up to the height of a chart.
pub(crate) fn write_begins(
    out: &mut String,
    figures: &Figures<'_>,
    height: u32,
) -> Result<(), Memory>
    requires { 0 < figures.now.postings }
{
    let last = postings_of(figures);
    let mut journal = 0;
    for point in figures.points.as_slice() {
        if point.journal > journal {
            let x = along(point.after.saturating_sub(1), last);
            write!(out, "<path class=\"mark begin\" d=\"M{x},0V{height}\"/>")?;
            journal = point.journal;
        }
    }
    Ok(())
}

/// Writes a flag at each demand, with its number.
fn write_flags(out: &mut String, points: &[Point<'_>], last: u64) -> Result<(), Memory>
    requires { 0 < last }
{
    let mut number: u64 = 0;
    for point in points {
        if point.demand {
            number = number.saturating_add(1);
            let left = percent_at(point.after as u64, last);
            write!(
                out,
                "<span class=\"flag\" style=\"left:{left}\">T{number}</span>"
            )?;
        }
    }
    Ok(())
}

/// Writes what stands before the curves: the labels of the left axis, the grid and the demands.
pub(crate) fn open_chart(
    out: &mut String,
    figures: &Figures<'_>,
    frame: &Frame<'_>,
) -> Result<(), Memory>
    requires { 0 < figures.now.postings }
{
    write!(out, "<div class=\"chart\"><div class=\"ys\">")?;
    write_left(out, frame)?;
    write!(
        out,
        "</div><div class=\"plot\"><svg viewBox=\"0 0 {FULL} {}\" preserveAspectRatio=\"none\" \
         role=\"img\" aria-label=\"{} of assortment {} over the postings\">",
        frame.height,
        frame.what,
        letter(frame.at)
    )?;
    for tick in frame.ticks {
        write!(out, "<path class=\"grid\" d=\"M0,{}H{FULL}\"/>", tick.y)?;
    }
    write_marks(
        out,
        figures.points.as_slice(),
        postings_of(figures),
        frame.height,
    )
}

/// Writes the labels of the lower axis.
fn write_low(out: &mut String, last: u64) -> Result<(), Memory>
    requires { 0 < last }
{
    let step = tick_step(last);
    for k in 0..6u64 {
        let at = k * step;
        if at <= last {
            let left = percent_at(at, last);
            write!(
                out,
                "<span style=\"left:{left}\">{}</span>",
                Grouped(u128::from(at))
            )?;
        }
    }
    Ok(())
}

/// Writes what stands behind the curves: a flag at each demand, if they are few and each has a point of its own, and
/// the lower axis.
pub(crate) fn close_chart(out: &mut String, figures: &Figures<'_>) -> Result<(), Memory>
    requires { 0 < figures.now.postings }
{
    let last = postings_of(figures);
    let points = figures.points.as_slice();
    let demands = figures.total.demands;
    let marks = points.iter().filter(|point| point.demand).count() as u64;
    write!(out, "</svg>")?;
    if demands <= MOST_FLAGS && marks == demands {
        write_flags(out, points, last)?;
    }
    write!(out, "</div><div class=\"xs\">")?;
    write_low(out, last)?;
    Ok(write!(out, "</div><div class=\"xtitle\">postings</div></div>")?)
}

/// Where a degree curve stands at a point that has so many postings before it.
fn degree_place(degree: Option<u32>, after: usize, last: u64) -> Option<Place>
    requires { 0 < last }
{
    match degree {
        Some(degree) => Some(Place {
            x: along(after, last),
            y: FULL.saturating_sub(degree),
        }),
        None => None,
    }
}

/// Writes the degree curves of the assortment at a place: of the best cuttings at base prices, and as cut.
fn write_degrees(
    alloc: Global,
    out: &mut String,
    figures: &Figures<'_>,
    at: usize,
) -> Result<(), Memory>
    requires { 0 < figures.now.postings }
{
    let last = postings_of(figures);
    let mut places = Vec::new(alloc);
    for point in figures.points.as_slice() {
        let degree = degrees_in(point.unsteered.as_slice(), at).whole;
        places.push(degree_place(degree, point.after, last))?;
    }
    write_line(out, "without", places.as_slice())?;
    places.clear();
    for point in figures.points.as_slice() {
        let degree = degrees_in(point.degrees.as_slice(), at).whole;
        places.push(degree_place(degree, point.after, last))?;
    }
    write_line(out, "degree", places.as_slice())
}

/// A label of the degrees' axis.
fn degree_tick(percent: u32) -> Tick
    requires { percent ≤ 100 }
{
    Tick {
        y: FULL - 100 * percent,
        sign: "",
        size: Fixed::of(u128::from(percent), 0),
    }
}

/// Whether the assortment at a place has a degree at a point of the curves, as cut or unsteered.
fn has_degrees(figures: &Figures<'_>, at: usize) -> bool {
    for point in figures.points.as_slice() {
        let degree = degrees_in(point.degrees.as_slice(), at).whole;
        let unsteered = degrees_in(point.unsteered.as_slice(), at).whole;
        if degree.or(unsteered).is_some() {
            return true;
        }
    }
    false
}

/// Writes the degree curves of the assortment at a place in their frame, and their keys.
fn write_degree_curves(
    alloc: Global,
    out: &mut String,
    figures: &Figures<'_>,
    at: usize,
) -> Result<(), Memory>
    requires some { 0 < figures.now.postings }
    requires exists { at < length figures.now.instruction.now.assortments }
{
    let ticks = [
        degree_tick(0),
        degree_tick(25),
        degree_tick(50),
        degree_tick(75),
        degree_tick(100),
    ];
    let frame = Frame {
        what: "Degree of apportionment",
        at,
        height: FULL,
        ticks: ticks.as_slice(),
    };
    open_chart(out, figures, &frame)?;
    write_degrees(alloc, out, figures, at)?;
    write_begins(out, figures, FULL)?;
    close_chart(out, figures)?;
    let counts = figures.counts.as_slice();
    let unsteered = figures.unsteered.as_slice();
    Ok(write!(
        out,
        "<p class=\"keys\"><span class=\"key\">{}as cut {}</span><span class=\"key\">{}unsteered {}</span></p>",
        Stroke("degree"),
        degree_text(degree_at(figures.instruction, figures.targets.as_slice(), counts, at)),
        Stroke("without"),
        degree_text(degree_at(
            figures.instruction,
            figures.targets.as_slice(),
            unsteered,
            at
        ))
    )?)
}

/// Writes how the degree of the assortment at an index, from 0, came about, as cut and unsteered. Refused as `Memory`
/// alone.
pub fn write_degree_chart(
    alloc: Global,
    out: &mut String,
    figures: &Figures<'_>,
    at: usize,
) -> Result<(), Memory>
    requires some { 0 < figures.now.postings }
    requires exists { at < length figures.now.instruction.now.assortments }
{
    write!(
        out,
        "<figure><figcaption>Degree of apportionment, %</figcaption>"
    )?;
    if has_degrees(figures, at) {
        write_degree_curves(alloc, out, figures, at)?;
    } else {
        write!(
            out,
            "<p class=\"none\">No log of this assortment was cut.</p>"
        )?;
    }
    Ok(write!(out, "</figure>")?)
}
