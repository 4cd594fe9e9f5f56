//! A cut log by log, beside the best cutting of its stem at base prices.
ghost use Rattle.std.specs.Prelude.{◌≡◌, ◌<◌, ◌≤◌, All, IfOk, length, map};
ghost use Rattle.buck_apt_instruction.specs.Instruction.{classes};
ghost use Rattle.buck_value.specs.Allowed.{IsAllowed};
ghost use Rattle.buck_value.specs.Volume.{worth_at};
ghost use Rattle.buck_dp.specs.Best.{IsAdmissible, IsFirstBest};
ghost use Rattle.buck_book_postings.specs.History.{prices_at};
ghost use Rattle.buck_page_figures.specs.Pieces.{IsPiece, ArePieces, IsCut};

use crate::figures::{Cut, Piece, Place};
use buck_book_postings::Entry;
use buck_dp::{Planner, worth};
use buck_record::Memory;
use buck_stem_shape::Stem;
use buck_value::{Log, Sheet, valuation_of_allowed, volume_of};
use std::alloc::Global;

/// What a piece is worth in millionths of the price unit, by its price kind, its price and its volume in cm³.
fn worth_by(kind: u8, price: u32, cubic: u64) -> u64
    requires { cubic ≤ 100000000 }
    ensures { result ≡ worth_at kind price cubic }
{
    if kind == 1 {
        u64::from(price) * cubic
    } else {
        u64::from(price) * 1_000_000
    }
}

/// An allowed log as it was cut under some prices, one for each class.
fn piece_of(base: &Sheet, prices: &[u32], stem: &Stem, log: &Log) -> Piece
    requires allowed { IsAllowed base.now.instruction stem.now log.now }
    requires prices { length prices.now ≡ classes base.now.instruction }
    ensures { IsPiece base.now prices.now stem.now log.now result }
{
    let found = valuation_of_allowed(base, stem, log);
    let instruction = base.instruction();
    let index = instruction.index(found.class);
    let kind = instruction.assortments()[log.assortment as usize].price_kind();
    let volume = volume_of(found.top, log.length);
    let price = prices[index];
    Piece {
        log: *log,
        class: found.class,
        index,
        top: found.top,
        volume,
        price,
        worth: worth_by(kind, price, volume),
        base_price: base.price(found.class),
        base_worth: found.worth,
    }
}

/// Allowed logs as they were cut.
fn pieces_of(
    alloc: Global,
    base: &Sheet,
    prices: &[u32],
    stem: &Stem,
    logs: &[Log],
) -> Result<Vec<Piece>, Memory>
    requires allowed { All (λ g. IsAllowed base.now.instruction stem.now g) logs.now }
    requires prices { length prices.now ≡ classes base.now.instruction }
    ensures { IfOk result (λ pieces. ArePieces base.now prices.now stem.now logs.now pieces.items) }
{
    let mut pieces = Vec::with_capacity(alloc, logs.len())?;
    for log in logs {
        pieces.push(piece_of(base, prices, stem, log))?;
    }
    Ok(pieces)
}

/// A cut log by log, planned under these prices, beside the best cutting of its stem at base prices.
fn cut_under<'a>(
    alloc: Global,
    planner: &mut Planner,
    prices: &[u32],
    place: Place,
    entry: &'a Entry,
) -> Result<Cut<'a>, Memory>
    requires admissible { IsAdmissible planner.old entry.now.stem entry.now.logs }
    requires prices { length prices.now ≡ classes planner.old.instruction }
    ensures same { planner.new ≡ planner.old }
    ensures cut { IfOk result (IsCut planner.old prices.now entry.now) }
    ensures place { IfOk result (λ c. c.place ≡ place) }
{
    let (unsteered, best) = planner.best(alloc, &entry.stem)?;
    let base = planner.sheet();
    let pieces = pieces_of(
        alloc,
        base,
        prices,
        &entry.stem,
        entry.cutting.logs.as_slice(),
    )?;
    let at_base = worth(base, &entry.stem, &entry.cutting);
    Ok(Cut {
        place,
        entry,
        pieces,
        at_base,
        unsteered,
        best,
    })
}

/// A cut log by log, beside the best cutting of its stem at base prices. The planner plans at base prices, and `sheets`
/// are the prices of each version. Refused as `Memory` alone.
pub fn cut_of<'a>(
    alloc: Global,
    planner: &mut Planner,
    sheets: &[Vec<u32>],
    place: Place,
    entry: &'a Entry,
) -> Result<Cut<'a>, Memory>
    requires admissible { IsAdmissible planner.old entry.now.stem entry.now.logs }
    requires version { entry.now.version < length sheets.now }
    requires prices { length (prices_at (map (λ w. w.items) sheets.now) entry.now.version)
        ≡ classes planner.old.instruction }
    ensures same { planner.new ≡ planner.old }
    ensures cut { IfOk result (IsCut planner.old (prices_at (map (λ w. w.items) sheets.now) entry.now.version)
        entry.now) }
    ensures place { IfOk result (λ c. c.place ≡ place) }
{
    let prices = sheets[entry.version as usize].as_slice();
    cut_under(alloc, planner, prices, place, entry)
}

/// The logs of the best cutting at base prices of a cut's stem, at base prices. The planner is that of the cut. Refused
/// as `Memory` alone.
pub fn unsteered_pieces(
    alloc: Global,
    planner: &Planner,
    cut: &Cut<'_>,
) -> Result<Vec<Piece>, Memory>
    requires { IsFirstBest planner.now cut.now.entry.now.stem cut.now.unsteered.logs.items }
    ensures { IfOk result (λ pieces.
        ArePieces planner.now planner.now.prices cut.now.entry.now.stem cut.now.unsteered.logs.items pieces.items) }
{
    let base = planner.sheet();
    let prices = base.prices();
    let entry = cut.entry;
    pieces_of(
        alloc,
        base,
        prices,
        &entry.stem,
        cut.unsteered.logs.as_slice(),
    )
}
