//! The figures of two runs side by side.
ghost use Rattle.std.specs.Prelude.{◌≡◌, ◌*◌, ◌<◌, ◌≤◌, ◌^◌, length};
ghost use Rattle.buck_book_postings.specs.declared.posting.TheConstants.{MOST_POSTINGS};

use crate::figure::{Figure, change_of, number, put_figure};
use buck_page_cells::{put_change, put_number};
use buck_page_figures::{Degrees, Figures, GradeFree, Sums, degrees_at};
use buck_page_text::{half_up, put_quoted};
use buck_record::Memory;
use std::alloc::Global;

/// The names of the columns.
const HEAD: &[u8] = b"of,number,figure,first,second,difference,name\n";

/// The figures of a journal, and what its stems would be worth without grades.
#[derive(Drop)]
pub(crate) struct Run<'a> {
    pub figures: Figures<'a>,
    pub free: GradeFree,
}

/// What a line is about.
#[derive(Clone, Copy)]
struct Subject<'a> {
    of: &'a [u8],
    number: Option<u128>,
    name: Option<&'a [u8]>,
}

/// The names of the figures of all.
const OF_ALL: [&[u8]; 11] = [
    b"stems",
    b"stem_mm",
    b"logs",
    b"logged_mm",
    b"volume_cm3",
    b"base_worth_millionths",
    b"unsteered_worth_millionths",
    b"grade_free_base_worth_millionths",
    b"cost_ten_thousandths",
    b"grade_cost_ten_thousandths",
    b"least_degree",
];

/// The names of the figures of an assortment.
const OF_ASSORTMENT: [&[u8]; 9] = [
    b"logs",
    b"unsteered_logs",
    b"volume_cm3",
    b"unsteered_volume_cm3",
    b"base_worth_millionths",
    b"degree",
    b"unsteered_degree",
    b"diameter_degree",
    b"length_degree",
];

/// The names of the figures of a harvester.
const OF_HARVESTER: [&[u8]; 7] = [
    b"stems",
    b"logs",
    b"logged_mm",
    b"volume_cm3",
    b"base_worth_millionths",
    b"cost_ten_thousandths",
    b"grade_cost_ten_thousandths",
];

/// A part of a whole in ten-thousandths, to the nearest; 0 of nothing.
fn rate_of(part: u128, whole: u128) -> u128
    requires { (part ≤ MOST_POSTINGS * 2 ^ 64) × (whole ≤ MOST_POSTINGS * 2 ^ 64) }
    ensures { result < 2 ^ 100 }
{
    if whole == 0 {
        return 0;
    }
    half_up(10_000 * part, whole)
}

/// What steering cost.
fn cost_rate(sums: &Sums) -> u128
    ensures { result < 2 ^ 100 }
{
    rate_of(sums.cost(), sums.best)
}

/// What grades cost. Without them no stem is worth less, so that the difference is never below 0.
fn grade_rate(sums: &Sums, free: u128) -> u128
    requires { free ≤ MOST_POSTINGS * 2 ^ 64 }
    ensures { result < 2 ^ 100 }
{
    rate_of(free.saturating_sub(sums.best), free)
}

/// A degree as a figure.
fn wide(degree: Option<u32>) -> Option<Figure> {
    match degree {
        Some(degree) => number(u128::from(degree)),
        None => None,
    }
}

/// The lesser of two degrees, or the only one.
fn lesser(one: Option<u32>, other: Option<u32>) -> Option<u32> {
    match (one, other) {
        (None, other) => other,
        (one, None) => one,
        (Some(one), Some(other)) => Some(one.min(other)),
    }
}

/// The degrees of the assortment at a place, as cut and unsteered.
fn degrees_of(figures: &Figures<'_>, at: usize) -> (Degrees, Degrees)
    requires { at < length figures.now.instruction.now.assortments }
{
    let instruction = figures.instruction;
    let targets = figures.targets.as_slice();
    let cut = degrees_at(instruction, targets, figures.counts.as_slice(), at);
    let unsteered = degrees_at(instruction, targets, figures.unsteered.as_slice(), at);
    (cut, unsteered)
}

/// The least degree of the assortments.
fn least_degree(figures: &Figures<'_>) -> Option<u32> {
    let mut least = None;
    for at in 0..figures.instruction.assortments().len() {
        let (cut, _) = degrees_of(figures, at);
        least = lesser(least, cut.whole);
    }
    least
}

/// The figures of all.
fn figures_of_all(run: &Run<'_>) -> [Option<Figure>; 11] {
    let sums = &run.figures.total;
    let free = run.free.total.worth;
    [
        number(u128::from(sums.stems)),
        number(sums.length),
        number(sums.logs),
        number(sums.logged),
        number(sums.volume),
        number(sums.at_base),
        number(sums.best),
        number(free),
        number(cost_rate(sums)),
        number(grade_rate(sums, free)),
        wide(least_degree(&run.figures)),
    ]
}

/// The figures of the assortment at a place.
fn figures_of_assortment(run: &Run<'_>, at: usize) -> [Option<Figure>; 9]
    requires { at < length run.now.figures.instruction.now.assortments }
{
    let figures = &run.figures;
    let cut = figures.assortments[at];
    let unsteered = figures.unsteered_assortments[at];
    let (degrees, base) = degrees_of(figures, at);
    [
        number(u128::from(cut.logs)),
        number(u128::from(unsteered.logs)),
        number(cut.volume),
        number(unsteered.volume),
        number(cut.at_base),
        wide(degrees.whole),
        wide(base.whole),
        wide(degrees.diameter),
        wide(degrees.length),
    ]
}

/// What a harvester's stems would be worth without grades.
fn own_free(free: &GradeFree, harvester: u32) -> u128
    ensures { result ≤ MOST_POSTINGS * 2 ^ 64 }
{
    match free.harvesters.get(&harvester) {
        Some(free) => free.worth,
        None => 0,
    }
}

/// The figures of a harvester, none if it has no posting.
fn figures_of_harvester(run: &Run<'_>, harvester: u32) -> [Option<Figure>; 7] {
    let Some(own) = run.figures.harvesters.get(&harvester) else {
        return [None; 7];
    };
    let sums = &own.sums;
    let free = own_free(&run.free, harvester);
    [
        number(u128::from(sums.stems)),
        number(sums.logs),
        number(sums.logged),
        number(sums.volume),
        number(sums.at_base),
        number(cost_rate(sums)),
        number(grade_rate(sums, free)),
    ]
}

/// Puts a name in quotes behind a comma, if there is one.
fn put_name(out: &mut Vec<u8>, name: Option<&[u8]>) -> Result<(), Memory> {
    out.push(b',')?;
    match name {
        Some(name) => put_quoted(out, name),
        None => Ok(()),
    }
}

/// Puts the line of a figure.
fn put_line(
    out: &mut Vec<u8>,
    subject: Subject<'_>,
    figure: &[u8],
    first: Option<Figure>,
    second: Option<Figure>,
) -> Result<(), Memory> {
    out.extend_from_slice(subject.of)?;
    put_number(out, subject.number)?;
    out.push(b',')?;
    out.extend_from_slice(figure)?;
    put_figure(out, first)?;
    put_figure(out, second)?;
    put_change(out, change_of(first, second))?;
    put_name(out, subject.name)?;
    out.push(b'\n')?;
    Ok(())
}

/// Puts the lines of figures of these names.
fn put_lines(
    out: &mut Vec<u8>,
    subject: Subject<'_>,
    names: &[&[u8]],
    first: &[Option<Figure>],
    second: &[Option<Figure>],
) -> Result<(), Memory>
    requires { (length first.now ≡ length names.now) × (length second.now ≡ length names.now) }
{
    for at in 0..names.len() {
        put_line(out, subject, names[at], first[at], second[at])?;
    }
    Ok(())
}

/// Puts the lines of the assortment at a place.
fn put_assortment(
    out: &mut Vec<u8>,
    first: &Run<'_>,
    second: &Run<'_>,
    at: usize,
) -> Result<(), Memory>
    requires first { at < length first.now.figures.instruction.now.assortments }
    requires second { at < length second.now.figures.instruction.now.assortments }
{
    let instruction = first.figures.instruction;
    let subject = Subject {
        of: b"assortment",
        number: Some(at as u128),
        name: Some(instruction.assortments()[at].name()),
    };
    let first = figures_of_assortment(first, at);
    let second = figures_of_assortment(second, at);
    put_lines(out, subject, &OF_ASSORTMENT, &first, &second)
}

/// Puts the lines of a harvester, if it has a posting in one of the runs.
fn put_harvester(
    out: &mut Vec<u8>,
    first: &Run<'_>,
    second: &Run<'_>,
    harvester: u32,
) -> Result<(), Memory> {
    let in_first = first.figures.harvesters.contains_key(&harvester);
    let in_second = second.figures.harvesters.contains_key(&harvester);
    if !in_first && !in_second {
        return Ok(());
    }
    let subject = Subject {
        of: b"harvester",
        number: Some(u128::from(harvester)),
        name: None,
    };
    let first = figures_of_harvester(first, harvester);
    let second = figures_of_harvester(second, harvester);
    put_lines(out, subject, &OF_HARVESTER, &first, &second)
}

/// The text of a comparison: a line of columns, and then a line for each figure of all, of each assortment, and of each
/// harvester of either run.
pub(crate) fn comparison_text(
    alloc: Global,
    first: &Run<'_>,
    second: &Run<'_>,
) -> Result<Vec<u8>, Memory>
    requires { length second.now.figures.instruction.now.assortments
        ≡ length first.now.figures.instruction.now.assortments }
{
    let mut out = Vec::new(alloc);
    out.extend_from_slice(HEAD)?;
    let subject = Subject {
        of: b"total",
        number: None,
        name: None,
    };
    let all = figures_of_all(first);
    put_lines(&mut out, subject, &OF_ALL, &all, &figures_of_all(second))?;
    let instruction = first.figures.instruction;
    for at in 0..instruction.assortments().len() {
        put_assortment(&mut out, first, second, at)?;
    }
    for harvester in 1..65 {
        put_harvester(&mut out, first, second, harvester)?;
    }
    Ok(out)
}
