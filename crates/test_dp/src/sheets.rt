//! Sheets from their prices, and the classes of logs.
use crate::fixtures::{base_of, sheet_with};
use buck_value::{Sheet, SheetFault, class_of};
use fixture_samples::{MAX, SAW, uniform_stem};
use std::test::Fail;

/// The number of samples and the diameter of a stem, the start, the length and the assortment of a log, and its row and
/// its column, if it is allowed.
type Classed = (usize, u16, u32, u32, u8, Option<(u8, u8)>);

const CLASSES: [Classed; 15] = [
    (31, 200, 0, 3000, 0, Some((1, 0))),
    (31, 199, 0, 3000, 0, Some((0, 0))),
    (31, 100, 0, 3000, 0, Some((0, 0))),
    (31, 99, 0, 3000, 0, None),
    (31, 399, 0, 3000, 0, Some((1, 0))),
    (31, 400, 0, 3000, 0, None),
    (31, 200, 0, 3000, 1, None),
    (31, 200, 0, 3000, 255, None),
    (41, 200, 0, 4000, 0, Some((1, 1))),
    (41, 200, 50, 3000, 0, None),
    (41, 200, 1000, 3000, 0, Some((1, 0))),
    (41, 200, 1100, 3000, 0, None),
    (41, 200, 0, 3500, 0, None),
    (41, 200, 100, 4000, 0, None),
    (41, 200, 4_294_967_200, 4000, 0, None),
];

/// Whether a log has this class under the sheet.
fn is_classed(rt: &HostRuntime, sheet: &Sheet, row: Classed) -> Result<bool, Fail> {
    let (count, diameter, start, length, assortment, want) = row;
    let stem = uniform_stem(rt.alloc(), count, diameter)?;
    let class = class_of(sheet, &stem, start, assortment, length);
    Ok(class.map(|found| (found.row, found.column)) == want)
}

/// Whether the log of each row has its class.
fn are_classed(rt: &HostRuntime, sheet: &Sheet) -> Result<bool, Fail> {
    for row in CLASSES {
        if !is_classed(rt, sheet, row)? {
            return Ok(false);
        }
    }
    Ok(true)
}

#[test]
fn class_limits(rt: HostRuntime) -> Result<(), Fail> {
    let sheet = base_of(&rt, SAW)?;
    assert!(rt; are_classed(&rt, &sheet)?);
    Ok(())
}

/// The saw instruction, of which prices may shift by half.
const HALF: &str = "1 2 APT~901 1 100~902 1 1~903 1 500~910 1 1~
911 1 saw~912 1 1~913 1 1~914 1 1~915 1 100 200~915 2 400~
916 1 3000 4000~917 1 400 500 600 800~918 1 1 1 1 1~
";

/// The same with a first price of 3.
const CHEAP: &str = "1 2 APT~901 1 100~902 1 1~903 1 500~910 1 1~
911 1 saw~912 1 1~913 1 1~914 1 1~915 1 100 200~915 2 400~
916 1 3000 4000~917 1 3 500 600 800~918 1 1 1 1 1~
";

/// The same with poles, by the piece.
const POLES: &str = "1 2 APT~901 1 100~902 1 1~903 1 500~910 1 2~
911 1 saw~912 1 1~913 1 1~914 1 1~915 1 100 200~915 2 400~
916 1 3000 4000~917 1 400 500 600 800~918 1 1 1 1 1~
911 1 pole~912 1 1~913 1 1~914 1 2~915 1 100 200~915 2 400~
916 1 3000 4000~917 1 0 0 100 0~918 1 1 1 1 1~
";

/// Instructions: the prices of the saw may not shift.
const TEXTS: [&str; 5] = [SAW, HALF, CHEAP, POLES, MAX];

/// Prices fit, or aren't as many as classes, or that at this place is out of its span.
#[derive(Clone, Copy)]
enum Want {
    Fit,
    Count,
    At(usize),
}

/// The place of an instruction among these, how many prices there are, and the prices.
type Priced = (usize, usize, [u32; 8], Want);

const PRICES: [Priced; 20] = [
    (0, 4, [400, 500, 600, 800, 0, 0, 0, 0], Want::Fit),
    (0, 0, [0, 0, 0, 0, 0, 0, 0, 0], Want::Count),
    (0, 3, [401, 500, 600, 0, 0, 0, 0, 0], Want::Count),
    (0, 5, [400, 500, 600, 800, 1, 0, 0, 0], Want::Count),
    (0, 4, [401, 500, 600, 800, 0, 0, 0, 0], Want::At(0)),
    (0, 4, [400, 500, 601, 799, 0, 0, 0, 0], Want::At(2)),
    (1, 4, [200, 250, 300, 400, 0, 0, 0, 0], Want::Fit),
    (1, 4, [600, 750, 900, 1200, 0, 0, 0, 0], Want::Fit),
    (1, 4, [199, 500, 600, 800, 0, 0, 0, 0], Want::At(0)),
    (1, 4, [400, 751, 600, 800, 0, 0, 0, 0], Want::At(1)),
    (2, 4, [1, 500, 600, 800, 0, 0, 0, 0], Want::At(0)),
    (2, 4, [2, 500, 600, 800, 0, 0, 0, 0], Want::Fit),
    (2, 4, [4, 500, 600, 800, 0, 0, 0, 0], Want::Fit),
    (2, 4, [5, 500, 600, 800, 0, 0, 0, 0], Want::At(0)),
    (3, 8, [400, 500, 600, 800, 0, 1, 151, 0], Want::At(5)),
    (3, 8, [400, 500, 600, 800, 0, 0, 151, 0], Want::At(6)),
    (3, 8, [400, 500, 600, 800, 0, 0, 150, 0], Want::Fit),
    (4, 2, [0, 20_000_000, 0, 0, 0, 0, 0, 0], Want::Fit),
    (4, 2, [0, 20_000_001, 0, 0, 0, 0, 0, 0], Want::At(1)),
    (4, 2, [u32::MAX, 0, 0, 0, 0, 0, 0, 0], Want::At(0)),
];

/// Whether a row's prices are refused as it says, or not.
fn is_priced(rt: &HostRuntime, row: Priced) -> Result<bool, Fail> {
    let (place, count, prices, want) = row;
    let want = match want {
        Want::Fit => None,
        Want::Count => Some(SheetFault::Count),
        Want::At(at) => Some(SheetFault::Price { at }),
    };
    let prices = prices.as_slice().get(..count).unwrap_or(&[]);
    Ok(sheet_with(rt, TEXTS[place % 5], prices)?.err() == want)
}

/// The same of all rows.
fn are_priced(rt: &HostRuntime) -> Result<bool, Fail> {
    for row in PRICES {
        if !is_priced(rt, row)? {
            return Ok(false);
        }
    }
    Ok(true)
}

#[test]
fn prices_within_their_spans(rt: HostRuntime) -> Result<(), Fail> {
    assert!(rt; are_priced(&rt)?);
    Ok(())
}

/// Whether a fault has this text.
fn reads(rt: &HostRuntime, fault: SheetFault, want: &str) -> bool {
    match format!(in rt.alloc(); "{fault}") {
        Ok(text) => text.as_str() == want,
        Err(_) => false,
    }
}

#[test]
fn texts_of_faults(rt: HostRuntime) {
    assert!(rt;
        reads(
            &rt,
            SheetFault::Count,
            "there is not one price for each class"
        )
    );
    assert!(rt;
        reads(
            &rt,
            SheetFault::Price { at: 2 },
            "the price of class 2 is out of its span"
        )
    );
}
