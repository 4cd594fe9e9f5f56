//! Matrices of the classes of an assortment: a row for each lower limit of the top diameter, a column for each length.
ghost use Rattle.std.specs.Prelude.{◌≡◌, ◌<◌, ◌≤◌, ◌*◌, ◌^◌, length, max};
ghost use Rattle.std.specs.Int.{div_ceil};

use buck_apt_instruction::Assortment;
use buck_page_figures::{Figures, part, sum_of};
use buck_page_text::{
    Difference, Fixed, Grouped, Known, Several, Signed, change_of, difference_of, half_up,
    length_text, permille, row_of, tens,
};
use buck_record::Memory;
use std::fmt;

/// A matrix of more columns says one figure in a cell, and the rest in its title.
const WIDE: usize = 12;

/// Greatest number of columns of two matrices that stand side by side.
const BESIDE: usize = 4;

/// Greatest width in pixels that each of two matrices side by side may need.
const HALF: u64 = 480;

/// Which differences, in per mille, have which of the three shades: each from its step on.
#[derive(Clone, Copy)]
struct Steps {
    light: u128,
    middle: u128,
    dark: u128,
}

/// The steps of shares, given how many classes there are: a quarter, a half and the whole of the mean share, rounded
/// up.
fn share_steps(filled: u64) -> Steps
    requires { 0 < filled }
    ensures light { result.light ≡ max (div_ceil 250 filled) 1 }
    ensures middle { result.middle ≡ max (div_ceil 500 filled) 2 }
    ensures dark { result.dark ≡ max (div_ceil 1000 filled) 3 }
{
    let filled = u128::from(filled);
    Steps {
        light: 250u128.div_ceil(filled).max(1),
        middle: 500u128.div_ceil(filled).max(2),
        dark: 1000u128.div_ceil(filled).max(3),
    }
}

/// The steps of prices: a sixth, a third and two thirds of the limit, rounded up.
fn price_steps(limit: u32) -> Steps
    ensures light { result.light ≡ max (div_ceil limit 6) 1 }
    ensures middle { result.middle ≡ max (div_ceil limit 3) 2 }
    ensures dark { result.dark ≡ max (div_ceil (2 * limit) 3) 3 }
{
    let limit = u128::from(limit);
    Steps {
        light: limit.div_ceil(6).max(1),
        middle: limit.div_ceil(3).max(2),
        dark: (2 * limit).div_ceil(3).max(3),
    }
}

/// How a cell looks: that of a sum is set apart, and too few and too many have three shades each.
#[derive(Clone, Copy)]
enum Shade {
    Plain,
    Sum,
    TooFew(u8),
    TooMany(u8),
}

impl fmt::Display for Shade {
    fn fmt<W: fmt::Write>(&self, f: &mut fmt::Formatter<W>) -> fmt::Result {
        match self {
            Shade::Plain => Ok(()),
            Shade::Sum => write!(f, "sum"),
            Shade::TooFew(level) => write!(f, "u{level}"),
            Shade::TooMany(level) => write!(f, "o{level}"),
        }
    }
}

impl Steps {
    /// The shade of a difference by which too much is there, or too little.
    fn shade(&self, difference: Difference) -> Shade {
        let level = if difference.size < self.light {
            return Shade::Plain;
        } else if difference.size < self.middle {
            1
        } else if difference.size < self.dark {
            2
        } else {
            3
        };
        if difference.below {
            Shade::TooFew(level)
        } else {
            Shade::TooMany(level)
        }
    }
}

/// Writes one shade of a legend, and from which difference on it is used.
fn write_swatch(
    out: &mut String,
    shade: Shade,
    sign: &'static str,
    difference: Difference,
) -> Result<(), Memory> {
    Ok(write!(
        out,
        "<span class=\"swatch\"><i class=\"{shade}\"></i>{sign}&nbsp;{}</span>",
        Signed::of(difference, 1)
    )?)
}

/// Writes the shades of the differences that lie below, from the furthest to the nearest.
fn write_below(out: &mut String, steps: &Steps, turned: bool) -> Result<(), Memory> {
    for (level, size) in [(3, steps.dark), (2, steps.middle), (1, steps.light)] {
        let shade = if turned {
            Shade::TooMany(level)
        } else {
            Shade::TooFew(level)
        };
        write_swatch(out, shade, "&#8804;", Difference { below: true, size })?;
    }
    Ok(())
}

/// Writes the shades of the differences that lie above, from the nearest to the furthest.
fn write_above(out: &mut String, steps: &Steps, turned: bool) -> Result<(), Memory> {
    for (level, size) in [(1, steps.light), (2, steps.middle), (3, steps.dark)] {
        let shade = if turned {
            Shade::TooFew(level)
        } else {
            Shade::TooMany(level)
        };
        write_swatch(out, shade, "&#8805;", Difference { below: false, size })?;
    }
    Ok(())
}

/// Writes the legend of shares.
fn write_share_legend(out: &mut String, steps: &Steps) -> Result<(), Memory> {
    write!(out, "<p class=\"keys\">too few ")?;
    write_below(out, steps, false)?;
    write_above(out, steps, false)?;
    Ok(write!(out, " too many, in points</p>")?)
}

/// Writes the legend of prices, which are raised if too few logs were cut.
fn write_price_legend(out: &mut String, steps: &Steps) -> Result<(), Memory> {
    write!(out, "<p class=\"keys\">lowered ")?;
    write_below(out, steps, true)?;
    write_above(out, steps, true)?;
    Ok(write!(out, " raised, in %</p>")?)
}

/// A share in percent, from per mille.
fn share_text(share: Option<u128>) -> Known {
    match share {
        Some(n) => Known(Some(Fixed::of(n, 1))),
        None => Known(None),
    }
}

/// What was cut and what is wanted: some logs, of all that were cut of the assortment, and their target, of all its
/// targets.
#[derive(Clone, Copy)]
struct Shares {
    count: u64,
    cut: u64,
    target: u64,
    wanted: u64,
    ghost some: { 0 < wanted },
    ghost low: { (cut < 2 ^ 60) × (target < 2 ^ 60) },
}

impl Shares {
    /// The share of what was cut, in per mille, if anything was.
    fn of_cut(&self) -> Option<u128> {
        if self.cut == 0 {
            return None;
        }
        Some(permille(u128::from(self.count), u128::from(self.cut)))
    }

    /// The share of what is wanted, in per mille.
    fn of_wanted(&self) -> u128 {
        permille(u128::from(self.target), u128::from(self.wanted))
    }

    /// How many logs would have been wanted of as many as were cut.
    fn wanted_logs(&self) -> Fixed {
        let tenths = 10 * u128::from(self.target) * u128::from(self.cut);
        Fixed::of(half_up(tenths, u128::from(self.wanted)), 1)
    }
}

/// Writes a cell of shares, given its main figure.
fn write_cell<T: fmt::Display + Drop>(
    out: &mut String,
    shares: &Shares,
    shade: Shade,
    wide: bool,
    figure: T,
) -> Result<(), Memory> {
    let cut = share_text(shares.of_cut());
    let wanted = Fixed::of(shares.of_wanted(), 1);
    let count = Grouped(u128::from(shares.count));
    let logs = shares.wanted_logs();
    if wide {
        write!(
            out,
            "<td class=\"{shade}\" title=\"{cut} / {wanted} %; {count} / {logs} logs\">{figure}</td>"
        )?;
    } else {
        write!(
            out,
            "<td class=\"{shade}\"><b>{figure}</b><s>{cut} / {wanted}</s><s>{count} / {logs}</s></td>"
        )?;
    }
    Ok(())
}

/// Writes a cell of shares: how far that of what was cut lies from that of what is wanted, shaded by these steps; a
/// sum has none.
fn write_share(
    out: &mut String,
    shares: &Shares,
    steps: Option<Steps>,
    wide: bool,
) -> Result<(), Memory> {
    let unshaded = if steps.is_some() {
        Shade::Plain
    } else {
        Shade::Sum
    };
    let Some(cut) = shares.of_cut() else {
        return write_cell(out, shares, unshaded, wide, Known(None));
    };
    let difference = difference_of(shares.of_wanted(), cut);
    let shade = match steps {
        Some(steps) => steps.shade(difference),
        None => unshaded,
    };
    write_cell(out, shares, shade, wide, Signed::of(difference, 1))
}

/// How many digits a number has.
fn digits(n: u64) -> u64
    ensures { result ≤ 20 }
{
    let mut rest = n;
    for digits in 1..20u64 {
        if rest < 10 {
            return digits;
        }
        rest /= 10;
    }
    20
}

/// A matrix of the classes of an assortment that has a target.
#[derive(Drop)]
struct Matrix<'a> {
    assortment: &'a Assortment,
    targets: &'a [u32],
    counts: &'a [u32],
    prices: &'a [u32],
    wanted: u64,
    cut: u64,
    limit: u32,
    ghost some: { 0 < wanted },
    ghost low: { (cut < 2 ^ 60) × (length targets.now ≤ 1024) × (length counts.now ≤ 1024) },
}

impl Matrix<'_> {
    /// Whether it is a wide one.
    fn is_wide(&self) -> bool {
        self.assortment.lengths().len() > WIDE
    }

    /// The least width in pixels. A narrower window scrolls; paper takes the width that it has.
    fn least_width(&self) -> u64 {
        let cells = self.assortment.lengths().len() as u64 + 1;
        if self.is_wide() {
            84 + 28 * cells
        } else {
            84 + (36 + 14 * digits(self.cut)).max(72) * cells
        }
    }

    /// Whether it stands beside another one: if there are few columns, and half the page is wide enough.
    fn is_beside(&self) -> bool {
        self.assortment.lengths().len() <= BESIDE && self.least_width() <= HALF
    }

    /// What a cell of shares says of these logs.
    fn shares(&self, count: u64, target: u64) -> Shares
        requires { target < 2 ^ 60 }
    {
        Shares {
            count,
            cut: self.cut,
            target,
            wanted: self.wanted,
        }
    }
}

/// Writes the head of a matrix, down to its lengths, given what it shows and how to read it.
fn open_matrix(
    out: &mut String,
    matrix: &Matrix<'_>,
    what: &'static str,
    read: &'static str,
) -> Result<(), Memory> {
    let lengths = matrix.assortment.lengths();
    let tight = if lengths.len() > WIDE { " tight" } else { "" };
    let width = matrix.least_width();
    write!(
        out,
        "<figure><figcaption>{what} <small>{read}</small></figcaption><div class=\"scroll\">\
         <table class=\"matrix{tight}\" style=\"min-width:{width}px\"><thead><tr>\
         <th class=\"corner\" scope=\"col\">top&nbsp;mm&nbsp;/ m</th>"
    )?;
    for length in lengths {
        write!(
            out,
            "<th scope=\"col\">{}</th>",
            length_text(*length, lengths)
        )?;
    }
    Ok(())
}

/// The numbers of a row, of some that stand row by row; none if there are fewer.
fn row_in(numbers: &[u32], columns: usize, row: usize) -> &[u32]
    requires { 0 < columns }
{
    match numbers.chunks(columns).nth(row) {
        Some(part) => part,
        None => &[],
    }
}

/// A row or a column of the classes of an assortment.
#[derive(Clone, Copy)]
enum Line {
    Row(usize),
    Column(usize),
}

impl Line {
    /// Whether the class at a place of an assortment of so many columns stands in it.
    fn has(self, at: usize, columns: usize) -> bool
        requires { 0 < columns }
    {
        match self {
            Line::Row(row) => at / columns == row,
            Line::Column(column) => at % columns == column,
        }
    }
}

/// All numbers of a row or a column together, of some that stand row by row.
fn sum_in(numbers: &[u32], columns: usize, line: Line) -> u64
    requires some { 0 < columns }
    requires few { length numbers.now ≤ 1024 }
    ensures { result < 2 ^ 60 }
{
    let mut all = 0;
    for (at, number) in numbers.iter().enumerate() {
        if line.has(at, columns) {
            all += u64::from(*number);
        }
    }
    all
}

/// Number of classes that have a target or a log, and 1 if none has.
fn filled(targets: &[u32], counts: &[u32]) -> u64
    ensures { 0 < result }
{
    let some = targets
        .iter()
        .zip(counts.iter())
        .filter(|pair| *pair.0 > 0 || *pair.1 > 0)
        .count();
    (some as u64).max(1)
}

/// Writes a cell of a class that the mill doesn't buy.
fn write_shut(out: &mut String) -> Result<(), Memory> {
    Ok(write!(out, "<td class=\"shut\" title=\"not bought\">&#183;</td>")?)
}

/// Writes a row of shares, with that of all its classes at the end.
fn write_share_row(
    out: &mut String,
    matrix: &Matrix<'_>,
    steps: Steps,
    row: usize,
) -> Result<(), Memory>
    requires { row < length matrix.now.assortment.now.diameters }
{
    let columns = matrix.assortment.lengths().len();
    let wide = matrix.is_wide();
    let targets = row_in(matrix.targets, columns, row);
    let counts = row_in(matrix.counts, columns, row);
    let bases = row_in(matrix.assortment.prices(), columns, row);
    write!(
        out,
        "<tr><th scope=\"row\">{}</th>",
        row_of(matrix.assortment, row)
    )?;
    for ((target, count), base) in targets.iter().zip(counts.iter()).zip(bases.iter()) {
        if *base == 0 {
            write_shut(out)?;
        } else {
            let shares = matrix.shares(u64::from(*count), u64::from(*target));
            write_share(out, &shares, Some(steps), wide)?;
        }
    }
    let line = Line::Row(row);
    let shares = matrix.shares(
        sum_in(matrix.counts, columns, line),
        sum_in(matrix.targets, columns, line),
    );
    write_share(out, &shares, None, wide)?;
    Ok(write!(out, "</tr>")?)
}

/// Writes the row of all rows together.
fn write_share_foot(out: &mut String, matrix: &Matrix<'_>) -> Result<(), Memory> {
    let columns = matrix.assortment.lengths().len();
    let wide = matrix.is_wide();
    write!(out, "<tr><th scope=\"row\" class=\"sum\">all</th>")?;
    for column in 0..columns {
        let line = Line::Column(column);
        let count = sum_in(matrix.counts, columns, line);
        let target = sum_in(matrix.targets, columns, line);
        write_share(out, &matrix.shares(count, target), None, wide)?;
    }
    if wide {
        write!(out, "<td class=\"sum\"></td></tr>")?;
    } else {
        let logs = Several::of(u128::from(matrix.cut), "log");
        write!(out, "<td class=\"sum whole\"><s>{logs}</s></td></tr>")?;
    }
    Ok(())
}

/// Writes the matrix of shares: what was cut against what is wanted.
fn write_shares(out: &mut String, matrix: &Matrix<'_>) -> Result<(), Memory> {
    let read = if matrix.is_wide() {
        "points"
    } else {
        "points; cut / wanted, % and logs"
    };
    let steps = share_steps(filled(matrix.targets, matrix.counts));
    open_matrix(out, matrix, "Shares: cut against wanted", read)?;
    write!(
        out,
        "<th scope=\"col\" class=\"sum\">all</th></tr></thead><tbody>"
    )?;
    for row in 0..matrix.assortment.diameters().len() {
        write_share_row(out, matrix, steps, row)?;
    }
    write_share_foot(out, matrix)?;
    write!(out, "</tbody></table></div>")?;
    if matrix.cut == 0 {
        write!(
            out,
            "<p class=\"keys\">No log of this assortment was cut.</p>"
        )?;
    } else {
        write_share_legend(out, &steps)?;
    }
    Ok(write!(out, "</figure>")?)
}

/// Writes a cell of prices: the price now, its change and the base price.
fn write_price(
    out: &mut String,
    steps: &Steps,
    wide: bool,
    price: u32,
    base: u32,
) -> Result<(), Memory>
    requires { 0 < base }
{
    let change = change_of(price, base);
    let shade = steps.shade(Difference {
        below: !change.below,
        size: change.size,
    });
    let now = Grouped(u128::from(price));
    let before = Grouped(u128::from(base));
    if wide {
        let whole = Difference {
            below: change.below,
            size: tens(change.size),
        };
        write!(
            out,
            "<td class=\"{shade}\" title=\"{now}, base {before}\">{}</td>",
            Signed::of(whole, 0)
        )?;
    } else {
        write!(
            out,
            "<td class=\"{shade}\"><b>{now}</b><s>{}&nbsp;%</s><s>{before}</s></td>",
            Signed::of(change, 1)
        )?;
    }
    Ok(())
}

/// Writes a row of prices.
fn write_price_row(
    out: &mut String,
    matrix: &Matrix<'_>,
    steps: &Steps,
    row: usize,
) -> Result<(), Memory>
    requires { row < length matrix.now.assortment.now.diameters }
{
    let columns = matrix.assortment.lengths().len();
    let wide = matrix.is_wide();
    let prices = row_in(matrix.prices, columns, row);
    let bases = row_in(matrix.assortment.prices(), columns, row);
    write!(
        out,
        "<tr><th scope=\"row\">{}</th>",
        row_of(matrix.assortment, row)
    )?;
    for (price, base) in prices.iter().zip(bases.iter()) {
        if *base == 0 {
            write_shut(out)?;
        } else {
            write_price(out, steps, wide, *price, *base)?;
        }
    }
    Ok(write!(out, "<td class=\"sum\"></td></tr>")?)
}

/// How to read a matrix of prices.
fn price_reading(matrix: &Matrix<'_>) -> &'static str {
    if matrix.is_wide() {
        "change in %"
    } else if matrix.assortment.price_kind() == 1 {
        "per m&#179;: now, change, base"
    } else {
        "per piece: now, change, base"
    }
}

/// Writes the matrix of prices: those now against the base prices.
fn write_prices(out: &mut String, matrix: &Matrix<'_>) -> Result<(), Memory> {
    let steps = price_steps(matrix.limit);
    open_matrix(
        out,
        matrix,
        "Prices now against base",
        price_reading(matrix),
    )?;
    write!(out, "<td class=\"sum\"></td></tr></thead><tbody>")?;
    for row in 0..matrix.assortment.diameters().len() {
        write_price_row(out, matrix, &steps, row)?;
    }
    write!(out, "</tbody></table></div>")?;
    if matrix.limit > 0 {
        write_price_legend(out, &steps)?;
    }
    Ok(write!(out, "</figure>")?)
}

/// Writes the matrices of the assortment at an index, from 0, if it has a target: side by side if they are narrow, else
/// one under the other. Refused as `Memory` alone.
pub fn write_matrices(out: &mut String, figures: &Figures<'_>, at: usize) -> Result<(), Memory>
    requires exists { at < length figures.now.instruction.now.assortments }
{
    let targets = part(figures.instruction, figures.targets.as_slice(), at);
    let counts = part(figures.instruction, figures.counts.as_slice(), at);
    let wanted = sum_of(targets);
    if wanted == 0 {
        return Ok(());
    }
    let matrix = Matrix {
        assortment: &figures.instruction.assortments()[at],
        targets,
        counts,
        prices: part(figures.instruction, figures.prices, at),
        wanted,
        cut: sum_of(counts),
        limit: figures.instruction.limit(),
    };
    let one = if matrix.is_beside() { "" } else { " one" };
    write!(out, "<div class=\"matrices{one}\">")?;
    write_shares(out, &matrix)?;
    write_prices(out, &matrix)?;
    Ok(write!(out, "</div>")?)
}
