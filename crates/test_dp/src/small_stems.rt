//! What planners cut of many small stems, one after the other, against the plain search.
ghost use Rattle.std.specs.Prelude.{◌<◌};

use crate::fixtures::sheet_with;
use crate::slow::{are_first_best, pieces_of};
use buck_dp::Planner;
use buck_stem_shape::Stem;
use buck_value::Sheet;
use fixture_samples::{stem_of, uniform_stem};
use std::sync::Arc;
use std::test::Fail;

/// An instruction, and the trims of its assortments in mm.
type Trimmed = (&'static str, [u32; 4]);

/// Two assortments by volume and one by the piece, with like prices and one class that isn't bought; and the same with
/// trims that are no multiples of the module.
const INSTRUCTIONS: [Trimmed; 2] = [
    (
        "1 2 APT~901 1 100~902 1 1~903 1 1000~910 1 3~
911 1 saw~912 1 1~913 1 1~914 1 1~915 1 100 200~915 2 400~
916 1 500 700~917 1 400 400 600 600~918 1 1 1 1 1~
911 1 pulp~912 1 1~913 1 1 2 3~914 1 1~915 1 50~915 2 500~
916 1 500 600 1200~917 1 400 0 300~918 1 1 1 1~
911 1 pole~912 1 1~913 1 1 3~914 1 2~915 1 80 150~915 2 300~
916 1 500 1000~917 1 4 8 5 9~918 1 1 1 1 1~
",
        [0; 4],
    ),
    (
        "1 2 APT~901 1 100~902 1 1~903 1 1000~910 1 3~
911 1 saw~912 1 1~913 1 1~914 1 1~915 1 100 200~915 2 400~
916 1 500 700~917 1 400 400 600 600~918 1 1 1 1 1~919 1 30~
911 1 pulp~912 1 1~913 1 1 2 3~914 1 1~915 1 50~915 2 500~
916 1 500 600 1200~917 1 400 0 300~918 1 1 1 1~919 1 130~
911 1 pole~912 1 1~913 1 1 3~914 1 2~915 1 80 150~915 2 300~
916 1 500 1000~917 1 4 8 5 9~918 1 1 1 1 1~
",
        [30, 130, 0, 0],
    ),
];

/// The base prices of both.
const PRICES: [u32; 11] = [400, 400, 600, 600, 400, 0, 300, 4, 8, 5, 9];

/// What a planner cuts: the places of two instructions, of which now one and now the other is taken; three factors, by one
/// of which, drawn, each base price is multiplied; from which seed on it cuts a stem for each, how many of them, and whether
/// it is renewed at every second one.
type Row = ([usize; 2], [u32; 3], u64, u64, bool);

const ROWS: [Row; 4] = [
    ([0; 2], [1; 3], 0, 36, false),
    ([1; 2], [1; 3], 300, 30, false),
    ([0; 2], [0; 3], 200, 10, false),
    ([0, 1], [0, 1, 2], 100, 60, true),
];

/// The first stems: a number of samples, and the one diameter that they have.
const UNIFORM: [(usize, u16); 6] = [
    (6, 250),
    (11, 250),
    (13, 250),
    (15, 90),
    (16, 160),
    (17, 450),
];

/// The next number of a row that looks like chance.
fn next(seed: u64) -> u64 {
    seed.wrapping_mul(6_364_136_223_846_793_005)
        .wrapping_add(1_442_695_040_888_963_407)
}

/// A number below `limit` of a seed.
fn below(seed: u64, limit: u64) -> u64
    requires { 0 < limit }
    ensures { result < limit }
{
    (seed >> 33) % limit
}

/// Samples of a seed that mostly taper, and the seed after them.
fn samples_of(seed: u64) -> ([u16; 17], u64) {
    let mut samples = [0u16; 17];
    let mut seed = next(seed);
    let butt = 120 + below(seed, 320);
    for i in 0..17usize {
        seed = next(seed);
        let taper = i as u64 * 12;
        samples[i] = (butt + below(seed, 15)).saturating_sub(taper) as u16;
    }
    (samples, next(seed))
}

/// A stem of 1,000 to 1,600 mm that mostly tapers, with up to two zones.
fn small_stem(rt: &HostRuntime, seed: u64) -> Result<Stem, Fail> {
    let (samples, seed) = samples_of(seed);
    let samples = samples.as_slice().get(..11 + below(seed, 7) as usize);
    let seed = next(seed);
    let first = below(seed, 900) as u32;
    let grade = 1 + below(next(seed), 3) as u8;
    let zones = [(first, grade), (first + 400, 1)];
    let zones = zones.as_slice().get(..below(next(next(seed)), 3) as usize);
    stem_of(rt.alloc(), samples.unwrap_or(&[]), zones.unwrap_or(&[]))
}

/// The stem of a seed.
fn stem_at(rt: &HostRuntime, seed: u64) -> Result<Stem, Fail> {
    match UNIFORM.get(seed as usize) {
        Some((count, diameter)) => uniform_stem(rt.alloc(), *count, *diameter),
        None => small_stem(rt, seed),
    }
}

/// Prices of a seed.
fn prices_of(factors: [u32; 3], seed: u64) -> [u32; 11] {
    let mut prices = PRICES;
    let mut seed = seed;
    for i in 0..11usize {
        seed = next(seed);
        prices[i] = PRICES[i].saturating_mul(factors[below(seed, 3) as usize]);
    }
    prices
}

/// Whether a planner gives the first of the best lists of logs, and its worth, at the stem of a seed.
fn agrees_at(
    rt: &HostRuntime,
    planner: &mut Planner,
    trims: [u32; 4],
    seed: u64,
) -> Result<bool, Fail> {
    let stem = stem_at(rt, seed)?;
    let pieces = pieces_of(rt.alloc(), planner.sheet(), trims, &stem)?;
    let (cutting, worth) = planner.best(rt.alloc(), &stem)?;
    Ok(are_first_best(pieces.as_slice(), cutting.logs.as_slice(), worth))
}

/// A sheet of a seed, and the trims of its assortments.
fn sheet_at(rt: &HostRuntime, row: Row, seed: u64) -> Result<(Arc<Sheet>, [u32; 4]), Fail> {
    let place = row.0[(seed / 2 % 2) as usize];
    let (text, trims) = INSTRUCTIONS[place % 2];
    let sheet = sheet_with(rt, text, &prices_of(row.1, seed))??;
    Ok((Arc::new(rt.alloc(), sheet)?, trims))
}

/// Whether a planner that is renewed, or not, agrees at the stem of a seed.
fn agrees_in(rt: &HostRuntime, planner: &mut Planner, row: Row, seed: u64) -> Result<bool, Fail> {
    let (sheet, trims) = sheet_at(rt, row, seed / 2)?;
    if row.4 && seed % 2 == 0 {
        planner.renew(rt.alloc(), sheet)?;
    }
    agrees_at(rt, planner, trims, seed)
}

/// Whether a planner agrees at all stems of a row.
fn agrees_along(rt: &HostRuntime, row: Row) -> Result<bool, Fail> {
    let (sheet, _) = sheet_at(rt, row, row.2 / 2)?;
    let mut planner = Planner::make(rt.alloc(), sheet)?;
    for more in 0..row.3 {
        if !agrees_in(rt, &mut planner, row, row.2.saturating_add(more))? {
            return Ok(false);
        }
    }
    Ok(true)
}

#[test]
fn first_of_the_best(rt: HostRuntime) -> Result<(), Fail> {
    for row in ROWS {
        assert!(rt; agrees_along(&rt, row)?);
    }
    Ok(())
}
