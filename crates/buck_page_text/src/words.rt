//! Numbers and names as the words of a page.
//!
//! All arithmetic is in integers: a number is rounded once, when it is printed, a half upwards.
ghost use Rattle.std.specs.Prelude.{◌≡◌, ◌↔◌, IsTrue, ◌+◌, ◌-◌, ◌*◌, ◌/◌, ◌%◌, ◌<◌, ◌≤◌, ◌^◌, true, false, length};
ghost use Rattle.buck_apt_instruction.specs.Instruction.{classes_of};
ghost use Rattle.buck_page_text.specs.Words.{half_up, permille};

use buck_apt_instruction::Assortment;
use std::fmt;

/// Returns `n / d` to the nearest integer, a half upwards.
pub fn half_up(n: u128, d: u128) -> u128
    requires some { 0 < d }
    requires fits { (n < 2 ^ 125) × (d < 2 ^ 125) }
    ensures { result ≡ half_up n d }
{
    (2 * n + d) / (2 * d)
}

/// Returns a part of a whole, per mille, to the nearest, a half upwards.
pub fn permille(n: u128, whole: u128) -> u128
    requires some { 0 < whole }
    requires fits { (n < 2 ^ 112) × (whole < 2 ^ 125) }
    ensures { result ≡ permille n whole }
{
    half_up(1000 * n, whole)
}

/// The units of groups of three digits, from the greatest that 128 bits hold.
const UNITS: [u128; 13] = [
    1_000_000_000_000_000_000_000_000_000_000_000_000,
    1_000_000_000_000_000_000_000_000_000_000_000,
    1_000_000_000_000_000_000_000_000_000_000,
    1_000_000_000_000_000_000_000_000_000,
    1_000_000_000_000_000_000_000_000,
    1_000_000_000_000_000_000_000,
    1_000_000_000_000_000_000,
    1_000_000_000_000_000,
    1_000_000_000_000,
    1_000_000_000,
    1_000_000,
    1_000,
    1,
];

/// Any number, in groups of three digits, separated by a narrow space that no line breaks at.
#[derive(Clone, Copy)]
pub struct Grouped(pub u128);

impl fmt::Display for Grouped {
    fn fmt<W: fmt::Write>(&self, f: &mut fmt::Formatter<W>) -> fmt::Result {
        let mut begun = false;
        for unit in UNITS {
            let group = self.0 / unit % 1000;
            if begun {
                write!(f, "&#8239;{group:03}")?;
            } else if group > 0 || unit == 1 {
                write!(f, "{group}")?;
                begun = true;
            }
        }
        Ok(())
    }
}

/// A number with digits after the point.
#[derive(Clone, Copy)]
pub struct Fixed {
    /// The number in units, tenths, hundredths or thousandths, by `places`.
    pub n: u128,
    /// Number of digits after the point, 0 to 3; a greater one counts as 3.
    pub places: u8,
}

impl Fixed {
    /// Returns a number of as many places.
    pub fn of(n: u128, places: u8) -> Fixed {
        Fixed { n, places }
    }
}

impl fmt::Display for Fixed {
    fn fmt<W: fmt::Write>(&self, f: &mut fmt::Formatter<W>) -> fmt::Result {
        let n = self.n;
        match self.places {
            0 => write!(f, "{}", Grouped(n)),
            1 => write!(f, "{}.{}", Grouped(n / 10), n % 10),
            2 => write!(f, "{}.{:02}", Grouped(n / 100), n % 100),
            _ => write!(f, "{}.{:03}", Grouped(n / 1000), n % 1000),
        }
    }
}

/// A number if there is one, else a dash.
#[derive(Clone, Copy)]
pub struct Known(pub Option<Fixed>);

impl fmt::Display for Known {
    fn fmt<W: fmt::Write>(&self, f: &mut fmt::Formatter<W>) -> fmt::Result {
        match self.0 {
            Some(n) => write!(f, "{n}"),
            None => write!(f, "&#8211;"),
        }
    }
}

/// Returns a degree of apportionment in percent, from ten-thousandths.
pub fn degree_text(degree: Option<u32>) -> Known {
    match degree {
        Some(n) => Known(Some(Fixed::of(u128::from(n), 2))),
        None => Known(None),
    }
}

/// Returns a limit of prices in percent, from per mille: with a digit after the point only if it needs one.
pub fn limit_text(limit: u32) -> Fixed {
    let n = u128::from(limit);
    if n % 10 == 0 {
        Fixed::of(n / 10, 0)
    } else {
        Fixed::of(n, 1)
    }
}

/// Separates facts on a page.
pub const DOT: &str = "&nbsp;&#183; ";

/// Returns the tens of a number, to the nearest, a half upwards.
pub fn tens(n: u128) -> u128
    ensures { result ≡ half_up n 10 }
{
    n / 10 + n % 10 / 5
}

/// Ten-thousands of a number, to the nearest, a half upwards.
fn ten_thousands(n: u128) -> u128
    ensures { result ≡ half_up n 10000 }
{
    n / 10_000 + n % 10_000 / 5_000
}

/// A number of millionths to the nearest hundredth: money from millionths of the price unit, cubic metres from cm³.
#[derive(Clone, Copy)]
pub struct Millionths(pub u128);

impl fmt::Display for Millionths {
    fn fmt<W: fmt::Write>(&self, f: &mut fmt::Formatter<W>) -> fmt::Result {
        write!(f, "{}", Fixed::of(ten_thousands(self.0), 2))
    }
}

/// Hundreds of a number, to the nearest, a half upwards.
fn hundreds(n: u128) -> u128
    ensures { result ≡ half_up n 100 }
{
    n / 100 + n % 100 / 50
}

/// Metres to the nearest tenth, from mm.
#[derive(Clone, Copy)]
pub struct Metres(pub u128);

impl fmt::Display for Metres {
    fn fmt<W: fmt::Write>(&self, f: &mut fmt::Formatter<W>) -> fmt::Result {
        write!(f, "{}", Fixed::of(hundreds(self.0), 1))
    }
}

/// How far a number lies above another one, or below it.
#[derive(Clone, Copy)]
pub struct Difference {
    /// Whether the number lies below the other one.
    pub below: bool,
    /// How far, in the unit of both numbers.
    pub size: u128,
}

/// Returns how far `to` lies above `from`, or below it.
pub fn difference_of(from: u128, to: u128) -> Difference
    ensures above { from ≤ to → (result.below ≡ false) × (result.size ≡ to - from) }
    ensures below { to < from → (result.below ≡ true) × (result.size ≡ from - to) }
{
    if to < from {
        Difference {
            below: true,
            size: from - to,
        }
    } else {
        Difference {
            below: false,
            size: to - from,
        }
    }
}

/// Returns a price's change per mille of its base price, to the nearest, a half away from 0. One that rounds to 0 isn't
/// below.
pub fn change_of(price: u32, base: u32) -> Difference
    requires { 0 < base }
    ensures above { base ≤ price → (result.below ≡ false) × (result.size ≡ permille (price - base) base) }
    ensures below { price < base → (result.size ≡ permille (base - price) base)
        × (IsTrue result.below ↔ (0 < result.size)) }
{
    let size = permille(u128::from(price.abs_diff(base)), u128::from(base));
    Difference {
        below: price < base && size > 0,
        size,
    }
}

/// A difference with its sign; 0 has none.
#[derive(Clone, Copy)]
pub struct Signed {
    pub difference: Difference,
    /// Number of digits after the point, 0 to 3.
    pub places: u8,
}

impl Signed {
    /// Returns a difference with as many digits after the point.
    pub fn of(difference: Difference, places: u8) -> Signed {
        Signed { difference, places }
    }
}

impl fmt::Display for Signed {
    fn fmt<W: fmt::Write>(&self, f: &mut fmt::Formatter<W>) -> fmt::Result {
        let n = self.difference.size;
        let size = Fixed::of(n, self.places);
        if n == 0 {
            write!(f, "{size}")
        } else if self.difference.below {
            write!(f, "&#8722;{size}")
        } else {
            write!(f, "+{size}")
        }
    }
}

/// A number of things with their name: `1 log`, `2 logs`.
#[derive(Clone, Copy)]
pub struct Several {
    /// Number of things.
    pub n: u128,
    /// Their name in the singular.
    pub word: &'static str,
}

impl Several {
    /// Returns this number of things of this name.
    pub fn of(n: u128, word: &'static str) -> Several {
        Several { n, word }
    }
}

impl fmt::Display for Several {
    fn fmt<W: fmt::Write>(&self, f: &mut fmt::Formatter<W>) -> fmt::Result {
        let word = self.word;
        write!(f, "{}&nbsp;{word}", Grouped(self.n))?;
        if self.n != 1 {
            write!(f, "s")?;
        }
        Ok(())
    }
}

/// A place in a drawing, in percent of its whole with two decimals, rounded down.
#[derive(Clone, Copy)]
pub struct Percent(pub u128);

/// Returns the place of `n` in a drawing of this whole.
pub fn percent_at(n: u64, whole: u64) -> Percent
    requires { 0 < whole }
    ensures { result.0 ≡ n * 10000 / whole }
{
    Percent(u128::from(n) * 10_000 / u128::from(whole))
}

impl fmt::Display for Percent {
    fn fmt<W: fmt::Write>(&self, f: &mut fmt::Formatter<W>) -> fmt::Result {
        let p = self.0;
        write!(f, "{}.{:02}%", p / 100, p % 100)
    }
}

/// Returns the letter of the assortment at an index from 0: there are at most 16.
pub fn letter(at: usize) -> char
    ensures { result ≡ 65 + at % 16 }
{
    char::from(b'A' + (at % 16) as u8)
}

/// The colour and the letter of the assortment at an index, from 0: the key of all drawings.
#[derive(Clone, Copy)]
pub struct Chip(pub usize);

impl fmt::Display for Chip {
    fn fmt<W: fmt::Write>(&self, f: &mut fmt::Formatter<W>) -> fmt::Result {
        let at = self.0;
        write!(
            f,
            "<span class=\"chip\"><i class=\"a{at}\"></i>{}</span>",
            letter(at)
        )
    }
}

/// A length of an assortment in metres.
#[derive(Clone, Copy)]
pub struct Length {
    mm: u32,
    places: u8,
}

/// Returns a length in mm in metres, with as many decimals as the lengths of its assortment need, one to three.
pub fn length_text(mm: u32, lengths: &[u32]) -> Length {
    let places = if lengths.iter().all(|n| *n % 100 == 0) {
        1
    } else if lengths.iter().all(|n| *n % 10 == 0) {
        2
    } else {
        3
    };
    Length { mm, places }
}

impl fmt::Display for Length {
    fn fmt<W: fmt::Write>(&self, f: &mut fmt::Formatter<W>) -> fmt::Result {
        let mm = u128::from(self.mm);
        let places = self.places;
        let n = match places {
            1 => mm / 100,
            2 => mm / 10,
            _ => mm,
        };
        write!(f, "{}", Fixed { n, places })
    }
}

/// The top diameters of a row.
#[derive(Clone, Copy)]
pub struct Row {
    /// Lower limit in mm, which belongs to the row.
    pub from: u32,
    /// Diameter in mm at which the row ends: the next row's lower limit, or the upper diameter.
    pub below: u32,
}

/// Returns the top diameters of a row of an assortment.
pub fn row_of(assortment: &Assortment, row: usize) -> Row
    requires { row < length assortment.now.diameters }
{
    let limits = assortment.diameters();
    let below = match limits.get(row + 1) {
        Some(next) => *next,
        None => assortment.upper(),
    };
    Row {
        from: limits[row],
        below,
    }
}

impl fmt::Display for Row {
    fn fmt<W: fmt::Write>(&self, f: &mut fmt::Formatter<W>) -> fmt::Result {
        let from = self.from;
        let last = self.below.saturating_sub(1);
        if from < last {
            write!(f, "{from}&#8211;{last}")
        } else {
            write!(f, "{from}")
        }
    }
}

/// A class of an assortment: its top diameters and its length.
#[derive(Clone, Copy)]
pub struct ClassText {
    row: Row,
    length: Length,
}

/// Returns the class at an index of an assortment, from 0, row by row.
pub fn class_text(assortment: &Assortment, at: usize) -> ClassText
    requires { at < classes_of assortment.now }
{
    let lengths = assortment.lengths();
    ClassText {
        row: row_of(assortment, at / lengths.len()),
        length: length_text(lengths[at % lengths.len()], lengths),
    }
}

impl fmt::Display for ClassText {
    fn fmt<W: fmt::Write>(&self, f: &mut fmt::Formatter<W>) -> fmt::Result {
        write!(f, "{}&nbsp;mm &#215; {}&nbsp;m", self.row, self.length)
    }
}

/// The steps of an axis.
const STEPS: [u64; 19] = [
    1, 2, 5, 10, 20, 50, 100, 200, 500, 1_000, 2_000, 5_000, 10_000, 20_000, 50_000, 100_000,
    200_000, 500_000, 1_000_000,
];

/// Returns the least of 1, 2, 5, 10, 20, 50 .. that has at most 5 steps in a whole of up to 5,000,000.
pub fn tick_step(whole: u64) -> u64
    ensures { (1 ≤ result) × (result ≤ 1000000) }
{
    for step in STEPS {
        if whole <= step * 5 {
            return step;
        }
    }
    1_000_000
}
