//! Which stems are drawn, and why.
use buck_book_postings::{Entry, Posting};
use buck_page_figures::{Figures, Place, place_of, posting_at};
use buck_record::Memory;
use std::alloc::Global;

/// At most so many stems are drawn.
const MOST_STEMS: usize = 12;

/// A cut whose stem is drawn.
#[derive(Drop)]
pub(crate) struct Pick<'a> {
    /// Its position through all journals.
    position: usize,
    pub place: Place,
    pub entry: &'a Entry,
}

/// The cut at a position through all journals, if there is one.
fn pick_at<'a>(figures: &Figures<'a>, position: usize) -> Option<Pick<'a>> {
    let place = place_of(figures, position)?;
    match posting_at(figures, place) {
        Some(Posting::Cut(entry)) => Some(Pick {
            position,
            place,
            entry,
        }),
        _ => None,
    }
}

/// Picks the cut at a position through all journals, if there is one that isn't picked yet.
fn add_pick<'a>(
    picks: &mut Vec<Pick<'a>>,
    figures: &Figures<'a>,
    position: Option<usize>,
) -> Result<(), Memory> {
    let Some(position) = position else {
        return Ok(());
    };
    for pick in picks.as_slice() {
        if pick.position == position {
            return Ok(());
        }
    }
    if let Some(pick) = pick_at(figures, position) {
        if picks.len() < MOST_STEMS {
            picks.push(pick)?;
        }
    }
    Ok(())
}

/// The position of the first cut through all journals: the least of the harvesters' first.
fn first_cut(figures: &Figures<'_>) -> Option<usize> {
    let mut first: Option<usize> = None;
    for own in figures.harvesters.values() {
        first = match (first, own.first) {
            (Some(one), Some(other)) => Some(one.min(other)),
            (one, other) => one.or(other),
        };
    }
    first
}

/// Which stems are drawn: the first, the longest, the one whose steering cost most, then each harvester's first.
pub(crate) fn picked<'a>(alloc: Global, figures: &Figures<'a>) -> Result<Vec<Pick<'a>>, Memory> {
    let mut picks = Vec::new(alloc);
    for position in [first_cut(figures), figures.longest, figures.dearest] {
        add_pick(&mut picks, figures, position)?;
    }
    for own in figures.harvesters.values() {
        add_pick(&mut picks, figures, own.first)?;
    }
    Ok(picks)
}

/// Writes all reasons why a stem is drawn, one after the other.
pub(crate) fn write_reasons(
    out: &mut String,
    figures: &Figures<'_>,
    pick: &Pick<'_>,
) -> Result<(), Memory> {
    let position = Some(pick.position);
    let mut begun = false;
    for (one, why) in [
        (first_cut(figures), "first stem"),
        (figures.longest, "longest"),
        (figures.dearest, "one where steering cost most"),
    ] {
        if one == position {
            let the = if begun { "; the" } else { "The" };
            write!(out, "{the} {why}")?;
            begun = true;
        }
    }
    let entry = pick.entry;
    let harvester = entry.harvester;
    if let Some(own) = figures.harvesters.get(&harvester) {
        if own.first == position {
            let its = if begun { "; harvester" } else { "Harvester" };
            write!(out, "{its} {harvester}&#8217;s first")?;
        }
    }
    Ok(())
}
