//! How prices went over the postings, of the classes whose logs are furthest from what is wanted.
ghost use Rattle.std.specs.Prelude.{◌<◌, ◌≤◌, ◌^◌, length};

use crate::charts::{
    Frame, Stroke, Tick, along, close_chart, open_chart, postings_of, write_begins,
};
use buck_page_figures::{Figures, number_at, part, sum_of};
use buck_page_text::{
    ClassText, Difference, Fixed, Grouped, Signed, change_of, class_text, half_up, limit_text,
};
use buck_record::Memory;

/// A class whose logs are not as many as are wanted at the number that was cut.
#[derive(Clone, Copy)]
struct Off {
    /// Its place among the classes of its assortment.
    at: usize,
    class: ClassText,
    base: u32,
    price: u32,
    /// How far its logs lie off, times the sum of the targets; below if they are too many.
    gap: Difference,
    /// How far its logs lie off, in tenths of a log.
    tenths: u128,
    ghost bought: { 0 < base },
}

/// Of some classes the two that are furthest off.
#[derive(Clone, Copy)]
struct Most {
    first: Option<Off>,
    second: Option<Off>,
}

/// Whether a class is further off than the one that there is, if there is one.
fn is_further(off: &Off, there: &Option<Off>) -> bool {
    match there {
        Some(other) => off.gap.size > other.gap.size,
        None => true,
    }
}

impl Most {
    /// The two that are furthest off of these and one more; of equals those that came first.
    fn with(self, off: Off) -> Most {
        if is_further(&off, &self.first) {
            Most {
                first: Some(off),
                second: self.first,
            }
        } else if is_further(&off, &self.second) {
            Most {
                first: self.first,
                second: Some(off),
            }
        } else {
            self
        }
    }
}

/// The classes whose prices are drawn: those that lack most logs, and those that have most too many.
#[derive(Clone, Copy)]
struct Drawn {
    lacking: Most,
    surplus: Most,
}

impl Drawn {
    /// Each with the style of its curve, in the order of the keys.
    fn all(&self) -> [(&'static str, Option<Off>); 4] {
        [
            ("up0", self.lacking.first),
            ("up1", self.lacking.second),
            ("down0", self.surplus.first),
            ("down1", self.surplus.second),
        ]
    }

    /// Whether there is none.
    fn is_empty(&self) -> bool {
        self.lacking.first.is_none() && self.surplus.first.is_none()
    }

    /// These and one more.
    fn with(self, off: Off) -> Drawn {
        if off.gap.below {
            Drawn {
                lacking: self.lacking,
                surplus: self.surplus.with(off),
            }
        } else {
            Drawn {
                lacking: self.lacking.with(off),
                surplus: self.surplus,
            }
        }
    }
}

/// How far what is wanted lies above what was cut, or below it.
fn gap_of(wanted: u128, cut: u128) -> Difference
    requires { (wanted < 2 ^ 96) × (cut < 2 ^ 96) }
    ensures { result.size < 2 ^ 96 }
{
    if cut > wanted {
        Difference {
            below: true,
            size: cut - wanted,
        }
    } else {
        Difference {
            below: false,
            size: wanted - cut,
        }
    }
}

/// The classes of the assortment at a place that are drawn: at most two that lack most logs, and two that have most too
/// many, of as great gaps the lower class first. A class that isn't bought has no price to draw.
fn drawn_in(figures: &Figures<'_>, at: usize) -> Drawn
    requires { at < length figures.now.instruction.now.assortments }
{
    let assortment = &figures.instruction.assortments()[at];
    let prices = part(figures.instruction, figures.prices, at);
    let targets = part(figures.instruction, figures.targets.as_slice(), at);
    let counts = part(figures.instruction, figures.counts.as_slice(), at);
    let wanted = u128::from(sum_of(targets));
    let cut = u128::from(sum_of(counts));
    let none = Most {
        first: None,
        second: None,
    };
    let mut drawn = Drawn {
        lacking: none,
        surplus: none,
    };
    for i in 0..assortment.classes() {
        let base = assortment.prices()[i];
        let target = u128::from(number_at(targets, i));
        let count = u128::from(number_at(counts, i));
        let gap = gap_of(target * cut, count * wanted);
        // If nothing is wanted no gap is above 0.
        if base > 0 && wanted > 0 && gap.size > 0 {
            drawn = drawn.with(Off {
                at: i,
                class: class_text(assortment, i),
                base,
                price: number_at(prices, i),
                gap,
                tenths: half_up(10 * gap.size, wanted),
            });
        }
    }
    drawn
}

/// Whether the price of a class of the assortment at a place stands off its base at a point of the curves.
fn has_moved(figures: &Figures<'_>, at: usize, off: &Off) -> bool
    requires { at < length figures.now.instruction.now.assortments }
{
    for point in figures.points.as_slice() {
        let prices = part(figures.instruction, point.prices, at);
        if number_at(prices, off.at) != off.base {
            return true;
        }
    }
    false
}

/// Whether a price that is drawn stands off its base at a point of the curves.
fn have_moved(figures: &Figures<'_>, at: usize, drawn: &Drawn) -> bool
    requires { at < length figures.now.instruction.now.assortments }
{
    for (_, off) in drawn.all() {
        if let Some(off) = off {
            if has_moved(figures, at, &off) {
                return true;
            }
        }
    }
    false
}

/// How far down a price curve stands that has this change, in a chart of this limit.
fn price_height(change: Difference, limit: u32) -> u32
    requires { limit ≤ 1000 }
    ensures { result ≤ 2000 }
{
    let size = change.size.min(u128::from(limit)) as u32;
    if change.below {
        limit + size
    } else {
        limit - size
    }
}

/// Writes the price curve of a class of the assortment at a place: stairs, with no step at a point without a change.
fn write_stairs(
    out: &mut String,
    style: &'static str,
    figures: &Figures<'_>,
    at: usize,
    off: &Off,
) -> Result<(), Memory>
    requires some { 0 < figures.now.postings }
    requires exists { at < length figures.now.instruction.now.assortments }
{
    let last = postings_of(figures);
    let limit = figures.instruction.limit();
    let mut height = limit;
    let mut x = 0;
    write!(out, "<path class=\"curve {style}\" d=\"M0,{limit}")?;
    for point in figures.points.as_slice() {
        x = along(point.after, last);
        let prices = part(figures.instruction, point.prices, at);
        let price = number_at(prices, off.at);
        let y = price_height(change_of(price, off.base), limit);
        if y != height {
            write!(out, "H{x}V{y}")?;
            height = y;
        }
    }
    Ok(write!(out, "H{x}\"/>")?)
}

/// Writes the key of a price curve.
fn write_price_key(out: &mut String, style: &'static str, off: &Off) -> Result<(), Memory> {
    let logs = Fixed::of(off.tenths, 1);
    let how = if off.gap.below { "too many" } else { "lacking" };
    Ok(write!(
        out,
        "<span class=\"key\">{}{}: {logs} {how}; {} &#8594; {} ({})</span>",
        Stroke(style),
        off.class,
        Grouped(u128::from(off.base)),
        Grouped(u128::from(off.price)),
        Signed::of(change_of(off.price, off.base), 1)
    )?)
}

/// Writes the price curves of the assortment at a place, and their keys.
fn write_price_curves(
    out: &mut String,
    figures: &Figures<'_>,
    at: usize,
    drawn: &Drawn,
) -> Result<(), Memory>
    requires some { 0 < figures.now.postings }
    requires exists { at < length figures.now.instruction.now.assortments }
    requires moving { 0 < figures.now.instruction.now.limit }
{
    let limit = figures.instruction.limit();
    let ticks = [
        Tick {
            y: 0,
            sign: "+",
            size: limit_text(limit),
        },
        Tick {
            y: limit,
            sign: "",
            size: limit_text(0),
        },
        Tick {
            y: 2 * limit,
            sign: "&#8722;",
            size: limit_text(limit),
        },
    ];
    let frame = Frame {
        what: "Prices",
        at,
        height: 2 * limit,
        ticks: ticks.as_slice(),
    };
    open_chart(out, figures, &frame)?;
    write_begins(out, figures, frame.height)?;
    for (style, off) in drawn.all() {
        if let Some(off) = off {
            write_stairs(out, style, figures, at, &off)?;
        }
    }
    close_chart(out, figures)?;
    write!(out, "<p class=\"keys\">")?;
    for (style, off) in drawn.all() {
        if let Some(off) = off {
            write_price_key(out, style, &off)?;
        }
    }
    Ok(write!(out, "</p>")?)
}

/// Writes why no price of the assortment at a place is drawn.
fn write_no_prices(out: &mut String, figures: &Figures<'_>, drawn: &Drawn) -> Result<(), Memory> {
    let why = if figures.instruction.limit() == 0 {
        "The instruction lets no price move."
    } else if drawn.is_empty() {
        "No class lacks logs or has too many."
    } else {
        "The prices of these classes did not move."
    };
    Ok(write!(out, "<p class=\"none\">{why}</p>")?)
}

/// Writes how the prices of the assortment at an index, from 0, moved, of the classes whose logs are furthest from
/// those wanted. Refused as `Memory` alone.
pub fn write_price_chart(out: &mut String, figures: &Figures<'_>, at: usize) -> Result<(), Memory>
    requires some { 0 < figures.now.postings }
    requires exists { at < length figures.now.instruction.now.assortments }
{
    write!(
        out,
        "<figure><figcaption>Prices of the classes furthest off their targets, change in %</figcaption>"
    )?;
    let drawn = drawn_in(figures, at);
    if figures.instruction.limit() > 0 && have_moved(figures, at, &drawn) {
        write_price_curves(out, figures, at, &drawn)?;
    } else {
        write_no_prices(out, figures, &drawn)?;
    }
    Ok(write!(out, "</figure>")?)
}
