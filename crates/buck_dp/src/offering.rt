//! What is done at one top: its value is settled, and its logs are offered to the points where they start.
ghost use Rattle.std.specs.Prelude.{◌≡◌, ℕ, ◌+◌, ◌-◌, ◌<◌, ◌≤◌, ◌++◌, All, List, length, OnOk, OnErr};
ghost use Rattle.buck_dp.specs.declared.offering.Cell.{Cell};
ghost use Rattle.buck_dp.specs.inner.Bid.{BidParts};
ghost use Rattle.buck_dp.specs.inner.Logs.{GroundParts};
ghost use Rattle.buck_dp.specs.inner.Searched.{AllFit, IsSearch, AreOffered, AreChosen, CanOffer, IsOffered};
ghost use Rattle.buck_dp.specs.declared.pricing.Candidate.{Candidate};
ghost use Rattle.buck_dp.specs.inner.Candidates.{cell_of, row_of, IsSmall};

use crate::bid::Bid;
use crate::pricing::Candidate;
use std::alloc::AllocError;
use std::ops::Range;

/// What a log of one length and trim brings at one top diameter. A row reaches from a top down to the start of the
/// longest log: `back` and `next` are indices in it, so that the search of most tops computes neither.
#[derive(Clone, Copy, Debug)]
pub struct Cell {
    pub bid: Bid,
    /// Length in steps of the module.
    pub steps: u32,
    /// Trim in mm, 0 to 200.
    pub trim: u32,
    /// Number of points from the top to the first at which the next log can start.
    pub rise: u32,
    /// Index of the point where the log starts, from 0 at the farthest that the row reaches.
    pub back: usize,
    /// Index of the point where the next log can start, from 0 at the farthest that the row reaches.
    pub next: usize,
}

/// The cell of a candidate at a diameter, in a row that reaches `far` points back.
#[inline(always)]
fn cell_at(candidate: Candidate, diameter: u32, far: usize) -> Cell
    requires small { IsSmall candidate }
    requires diameter { diameter ≤ 1500 }
    requires far { (candidate.term.steps ≤ far) × (far ≤ 4294967295) }
    ensures { result ≡ cell_of far diameter candidate }
{
    // A cell of 40 bytes instead of 24, for an inner loop of 11 instructions instead of 15.
    Cell {
        bid: candidate.bid(diameter),
        steps: candidate.term.steps,
        trim: candidate.term.trim,
        rise: candidate.term.rise,
        back: far - candidate.term.steps as usize,
        next: far + candidate.term.rise as usize,
    }
}

/// Puts the row of a candidate list at a diameter behind others. It reaches `far` points back.
pub fn put_row(
    cells: &mut Vec<Cell>,
    list: &[Candidate],
    diameter: u32,
    far: usize,
) -> Result<(), AllocError>
    requires list { All (λ q. IsSmall q × (q.term.steps ≤ far)) list.now }
    requires diameter { diameter ≤ 1500 }
    requires far { far ≤ 4294967295 }
    ensures put { OnOk result (cells.new.items ≡ cells.old.items ++ row_of far diameter list.now) }
    ensures left { OnErr result (cells.new.items ≡ cells.old.items) }
{
    cells.reserve(list.len())?;
    for candidate in list {
        cells.push_reserved(cell_at(*candidate, diameter, far));
    }
    Ok(())
}

/// Settles the last point before `past`: its value is what was offered to it, or that of the next point if this is
/// greater. The rank becomes the choice.
pub(crate) fn settle(values: &mut [Bid], choices: &mut [u32], past: usize)
    ghost p: { GroundParts }
    requires some { 0 < past }
    requires search { IsSearch p values.old choices.old past 0 }
    ensures { IsSearch p values.new choices.new (past - 1) (past - 1) }
{
    let point = past - 1;
    let value = values[point].max(values[point + 1]);
    choices[point] = value.rank();
    values[point] = value.without_rank();
}

/// Offers the bid of a log to the point where it starts, with what the point brings where the next one can start.
#[inline(always)]
fn offer_bid(values: &mut [Bid], start: usize, next: usize, bid: Bid)
    requires { CanOffer start next bid values.old }
    ensures { IsOffered start next bid values.old values.new }
{
    let rest = values[next];
    values[start] = values[start].max(bid.plus(rest));
}

/// Offers the cells of a row at a top to the points where their logs start: those of the lengths, in steps, whose trim
/// fits in the room in mm behind it.
#[inline(always)]
pub(crate) fn offer_some(
    values: &mut [Bid],
    top: usize,
    lengths: Range<usize>,
    room: u32,
    row: &[Cell],
)
    requires open { (p : GroundParts) × (choices : List ℕ) × (first : ℕ) × (stop : ℕ)
        × AreOffered p choices top first stop row.now 0 values.old
        × AreChosen p top first stop lengths.start lengths.«end» room row.now }
    ensures { (p : GroundParts) (choices : List ℕ) (first stop : ℕ)
        → AreOffered p choices top first stop row.now 0 values.old
        → AreChosen p top first stop lengths.start lengths.«end» room row.now
        → IsSearch p values.new choices top first }
{
    // Rows aren't sorted: an order that ended this loop at the first cell too long would save some five per cent, and
    // need a proof of its own.
    for cell in row {
        let steps = cell.steps as usize;
        if steps < lengths.end && lengths.start <= steps && cell.trim <= room {
            offer_bid(values, top - steps, top + cell.rise as usize, cell.bid);
        }
    }
}

/// Offers the cells of a row at the top `far` of values, which stand behind others, where their logs start.
fn offer_back(values: &mut [Bid], far: usize, row: &[Cell])
    requires open { (p : GroundParts) × (choices : List ℕ) × (front : List BidParts) × (first : ℕ)
        × (first ≤ length front) × AllFit p far (length front + far) row.now
        × AreOffered p choices (length front + far) first (length front + far) row.now 0 (front ++ values.old) }
    ensures { (p : GroundParts) (choices : List ℕ) (front : List BidParts) (first : ℕ)
        → first ≤ length front → AllFit p far (length front + far) row.now
        → AreOffered p choices (length front + far) first (length front + far) row.now 0 (front ++ values.old)
        → IsSearch p (front ++ values.new) choices (length front + far) first }
{
    for cell in row {
        offer_bid(values, cell.back, cell.next, cell.bid);
    }
}

/// Offers the cells of a row at a top, which fit behind it, to those points from `first` on where their logs start. The
/// row reaches `far` points back.
#[inline(always)]
pub(crate) fn offer_all(values: &mut [Bid], top: usize, first: usize, row: &[Cell], far: usize)
    requires open { (p : GroundParts) × (choices : List ℕ) × AreOffered p choices top first top row.now 0 values.old
        × AllFit p far top row.now }
    ensures { (p : GroundParts) (choices : List ℕ) → AreOffered p choices top first top row.now 0 values.old
        → AllFit p far top row.now → IsSearch p values.new choices top first }
{
    // The sum never saturates: `far` is a row's reach along a stem, which no condition here bounds.
    if top < first.saturating_add(far) {
        offer_some(values, top, 0..top - first + 1, u32::MAX, row);
        return;
    }
    let (_, reached) = values.split_at_mut(top - far);
    offer_back(reached, far, row);
}
