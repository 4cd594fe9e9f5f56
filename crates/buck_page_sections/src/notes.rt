//! What the page's words mean.
use buck_page_figures::{Figures, MOST_POINTS};
use buck_page_text::{Several, limit_text};
use buck_record::Memory;

/// Writes what several journals are to each other.
fn write_several(out: &mut String, journals: usize) -> Result<(), Memory> {
    Ok(write!(
        out,
        "<dt>Journals</dt><dd>{journals} were replayed, each from base prices and the instruction&#8217;s targets; \
         logs and sums are added. A grey line in a chart marks the start of the next. Prices now and targets are those \
         at the end of the last, and depend on its logs alone: a class with too many logs in all may have a raised \
         price.</dd>"
    )?)
}

/// Writes what the words of prices and of costs mean.
fn write_prices(out: &mut String, figures: &Figures<'_>) -> Result<(), Memory> {
    let period = Several::of(u128::from(figures.instruction.period()), "stem");
    let limit = limit_text(figures.instruction.limit());
    Ok(write!(
        out,
        "<dt>Price in force</dt><dd>Prices are recalculated after every {period} and at each change of targets. If too \
         few logs of a class were cut, its price may rise, and if too many, it may fall, by {limit}&nbsp;% of the base \
         price at most.</dd>\
         <dt>Unsteered</dt><dd>Each stem was planned again at base prices, as if prices had never moved. The cost of \
         steering is the worth of those cuttings less that of the cuttings made, both at base prices. It is never \
         below 0.</dd>"
    )?)
}

/// Writes what the words of shares and of degrees mean, and those of wood.
fn write_shares(out: &mut String) -> Result<(), Memory> {
    Ok(write!(
        out,
        "<dt>Share</dt><dd>A class&#8217;s part of the logs of its assortment, to the nearest tenth of a percent. A \
         difference is that of the two shares as printed, in percentage points.</dd>\
         <dt>Wanted at this count</dt><dd>Targets are proportions. A class should have its target&#8217;s part of the \
         logs cut of its assortment. If it has fewer, it lacks logs; if it has more, it has too many.</dd>\
         <dt>Degree</dt><dd>The part of an assortment&#8217;s logs that lies within the wanted shares. The degree of \
         diameters takes each diameter row as one class. The degree of lengths takes each row as an assortment of its \
         own, and is the mean of the rows, weighted by their logs. Rows without a target have none.</dd>\
         <dt>Cost of grades</dt><dd>Each stem was also planned at base prices with every assortment taking every \
         grade. The cost of grades is the worth of those cuttings less the worth unsteered. It is never below 0.</dd>\
         <dt>Length left</dt><dd>Stem length that is in no log and no trim.</dd>\
         <dt>Volume</dt><dd>A log counts as a cylinder of its top diameter and length. Worth is in price units; sums \
         are exact, and printed to the nearest hundredth.</dd>"
    )?)
}

/// Writes the section of what the page's words mean. Refused as `Memory` alone.
pub fn write_notes(out: &mut String, figures: &Figures<'_>) -> Result<(), Memory> {
    write!(
        out,
        "\n<section class=\"notes\"><h2>How to read this page</h2><dl>\
         <dt>Posting</dt><dd>One stem cut, or one change of targets, in the order in which they came into force; \
         counted from 0.</dd>"
    )?;
    let journals = figures.journals.len();
    if journals > 1 {
        write_several(out, journals)?;
    }
    write_prices(out, figures)?;
    write_shares(out)?;
    write!(out, "<dt>Left out</dt><dd>")?;
    let postings = figures.postings;
    if postings > MOST_POINTS {
        write!(
            out,
            "The curves have {} points, one about every {} postings. ",
            figures.points.len(),
            postings / MOST_POINTS
        )?;
    }
    Ok(write!(
        out,
        "<code>buckfleet table</code> prints every posting, log and class.</dd></dl></section>"
    )?)
}
