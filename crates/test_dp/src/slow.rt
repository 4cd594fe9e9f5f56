//! The first of the best cuttings by a plain search: every list of allowed logs is tried.
use crate::fixtures::log;
use buck_stem_shape::Stem;
use buck_value::{Log, Sheet, worth_if_allowed};
use std::alloc::{AllocError, Global};

/// A log that is allowed, the place in mm where it ends with its trim, and what it is worth.
pub type Piece = (Log, u32, u64);

/// What stands behind the last log of a list: only the same may follow it.
const NO_LOG: Log = Log {
    start: u32::MAX,
    length: 0,
    assortment: 0,
};

/// Every log that is allowed, in the order of starts, then of lengths, then of assortments, and at last none: starts and
/// lengths up to 1,600 mm, and four assortments of these trims in mm.
pub fn pieces_of(
    alloc: Global,
    sheet: &Sheet,
    trims: [u32; 4],
    stem: &Stem,
) -> Result<Vec<Piece>, AllocError> {
    let mut pieces = Vec::new(alloc);
    for n in 0..2244u32 {
        let assortment = n % 4;
        let found = log(n / 68 * 50, n / 4 % 17 * 100, assortment as u8);
        if let Some(worth) = worth_if_allowed(sheet, stem, &found) {
            let end = found.start + found.length;
            pieces.push((found, end.saturating_add(trims[assortment as usize]), worth))?;
        }
    }
    pieces.push((NO_LOG, u32::MAX, 0))?;
    Ok(pieces)
}

/// The first of the lists of at most three pieces that are worth the most, and what it is worth: a stem of up to 1,600 mm
/// has no longer one. Lists are tried in their order, in which one that goes on comes before its own prefix.
fn first_best(pieces: &[Piece]) -> ([Log; 3], u64) {
    let mut first = None;
    let mut most = 0;
    for a in pieces {
        for b in pieces {
            for c in pieces {
                let worth = a.2.saturating_add(b.2).saturating_add(c.2);
                let follow = a.1 <= b.0.start && b.1 <= c.0.start;
                if follow && (first.is_none() || most < worth) {
                    first = Some([a.0, b.0, c.0]);
                    most = worth;
                }
            }
        }
    }
    (first.unwrap_or([NO_LOG; 3]), most)
}

/// Whether logs that are worth this are the first of the best lists of some pieces.
pub fn are_first_best(pieces: &[Piece], logs: &[Log], worth: u64) -> bool {
    let (first, most) = first_best(pieces);
    let found = [
        *logs.get(0).unwrap_or(&NO_LOG),
        *logs.get(1).unwrap_or(&NO_LOG),
        *logs.get(2).unwrap_or(&NO_LOG),
    ];
    logs.len() <= 3 && worth == most && found == first
}
