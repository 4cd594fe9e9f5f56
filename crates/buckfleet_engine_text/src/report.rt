//! The report of a history.
ghost use Rattle.std.specs.Prelude.{◌≡◌, ◌++◌, IfOk, OnOk, sum_by, slice_get, Some};
ghost use Rattle.buckfleet_engine_text.specs.Report.{IsReport, posting_line, posting_lines, class_line, row_lines, class_lines, degree_line, assortment_lines, all_lines, cuts_in, logs_in, worth_in, totals_line, report_of};
ghost use Rattle.buckfleet_engine_text.specs.inner.Report.{IsClassIn};

use crate::bucking::{put_named_line, put_total};
use crate::fault::TextFault;
use buck_apt_instruction::{Assortment, Class, Instruction};
use buck_book_postings::{Parts, Posting, degree_at};
use buck_record::{Memory, put_line, put_numbers};
use std::alloc::Global;
use std::marker::Model;

/// How all classes stand at the end.
#[derive(Drop)]
pub struct Ending<'a> {
    pub instruction: &'a Instruction,
    /// How many logs of each class are wanted, by index.
    pub targets: &'a [u32],
    /// How many logs of each class were cut.
    pub counts: &'a [u32],
    /// The price of each class, in price units per m³ or per piece.
    pub prices: &'a [u32],
}

impl<'a> Model for Ending<'a> {
    ghost use Rattle.buckfleet_engine_text.specs.Report.{EndingParts};
    ghost use Rattle.buckfleet_engine_text.specs.inner.Report.{IsEnding};

    ghost Value = { EndingParts };

    ghost view = { λ e. record {
      instruction = e.instruction.now;
      targets = e.targets.now;
      counts = e.counts.now;
      prices = e.prices.now;
    } };

    ghost invariant = { λ e. IsEnding (record {
      instruction = e.instruction.now;
      targets = e.targets.now;
      counts = e.counts.now;
      prices = e.prices.now;
    }) };
}

/// Puts the line of a posting at a position, as [`report_of`] does. `Memory` if an allocation failed.
pub fn put_posting(out: &mut Vec<u8>, at: usize, posting: &Posting) -> Result<(), Memory>
    ensures { OnOk result (out.new.items ≡ out.old.items ++ posting_line at posting.now) }
{
    match posting {
        Posting::Cut(entry) => {
            let numbers = [
                at as u128,
                u128::from(entry.harvester),
                u128::from(entry.number),
                u128::from(entry.version),
                u128::from(entry.stem.number()),
                entry.cutting.logs.len() as u128,
                u128::from(entry.worth),
            ];
            put_line(out, b"ENTRY", &numbers)
        }
        Posting::Demand(demand) => {
            let numbers = [
                at as u128,
                u128::from(demand.harvester),
                u128::from(demand.number),
                u128::from(demand.version),
            ];
            put_line(out, b"DEMAND", &numbers)
        }
    }
}

/// Puts a line for each posting.
fn put_postings(out: &mut Vec<u8>, postings: &[Posting]) -> Result<(), Memory>
    ensures { OnOk result (out.new.items ≡ out.old.items ++ posting_lines 0 postings.now) }
{
    for at in 0..postings.len() {
        put_posting(out, at, &postings[at])?;
    }
    Ok(())
}

/// Puts the line of a class.
#[tactic(auto, unfolding(crate::specs::Report::class_line))]
fn put_class(
    out: &mut Vec<u8>,
    ending: &Ending,
    assortment: &Assortment,
    class: Class,
) -> Result<(), Memory>
    requires class { IsClassIn ending.now.instruction assortment.now class }
    ensures { OnOk result (out.new.items ≡ out.old.items ++ class_line ending.now assortment.now class) }
{
    let at = ending.instruction.index(class);
    let base = assortment.price(class.row as usize, class.column as usize);
    let numbers = [
        u128::from(class.assortment),
        u128::from(class.row),
        u128::from(class.column),
        u128::from(ending.targets[at]),
        u128::from(ending.counts[at]),
        u128::from(base),
        u128::from(ending.prices[at]),
    ];
    put_line(out, b"CLASS", &numbers)
}

/// Puts a line for each class of a row, from its first class on.
fn put_row(
    out: &mut Vec<u8>,
    ending: &Ending,
    assortment: &Assortment,
    first: Class,
) -> Result<(), Memory>
    requires class { IsClassIn ending.now.instruction assortment.now first }
    ensures { OnOk result (out.new.items
        ≡ out.old.items ++ row_lines ending.now assortment.now first.assortment first.row) }
{
    for column in 0..assortment.lengths().len() {
        let class = Class {
            column: column as u8,
            ..first
        };
        put_class(out, ending, assortment, class)?;
    }
    Ok(())
}

/// Puts a line for each class of the assortment at a place, row by row.
fn put_classes(
    out: &mut Vec<u8>,
    ending: &Ending,
    assortment: &Assortment,
    at: u8,
) -> Result<(), Memory>
    requires exists { slice_get ending.now.instruction.assortments at ≡ Some assortment.now }
    ensures { OnOk result (out.new.items ≡ out.old.items ++ class_lines ending.now assortment.now at) }
{
    for row in 0..assortment.diameters().len() {
        let first = Class {
            assortment: at,
            row: row as u8,
            column: 0,
        };
        put_row(out, ending, assortment, first)?;
    }
    Ok(())
}

/// Puts the line of the degree of the assortment at a place.
fn put_degree(out: &mut Vec<u8>, at: u8, degree: Option<u32>, name: &[u8]) -> Result<(), Memory>
    ensures { OnOk result (out.new.items ≡ out.old.items ++ degree_line at degree name.now) }
{
    let at = u128::from(at);
    match degree {
        Some(degree) => put_named_line(out, b"DEGREE", &[at, u128::from(degree)], name),
        None => {
            out.extend_from_slice(b"DEGREE")?;
            put_numbers(out, &[at])?;
            put_named_line(out, b" none", &[], name)
        }
    }
}

/// Puts the lines of the assortment at a place: those of its classes, then its degree.
#[tactic(auto, unfolding(crate::specs::Report::assortment_lines))]
fn put_assortment(
    out: &mut Vec<u8>,
    ending: &Ending,
    assortment: &Assortment,
    at: u8,
) -> Result<(), Memory>
    requires exists { slice_get ending.now.instruction.assortments at ≡ Some assortment.now }
    ensures { OnOk result (out.new.items ≡ out.old.items ++ assortment_lines ending.now at assortment.now) }
{
    put_classes(out, ending, assortment, at)?;
    let degree = degree_at(
        ending.instruction,
        ending.targets,
        ending.counts,
        at as usize,
    );
    put_degree(out, at, degree, assortment.name())
}

/// Puts the lines of all assortments.
fn put_assortments(out: &mut Vec<u8>, ending: &Ending) -> Result<(), Memory>
    ensures { OnOk result (out.new.items
        ≡ out.old.items ++ all_lines ending.now 0 ending.now.instruction.assortments) }
{
    let assortments = ending.instruction.assortments();
    for at in 0..assortments.len() {
        put_assortment(out, ending, &assortments[at], at as u8)?;
    }
    Ok(())
}

/// How many logs a posting has, and what they are worth.
fn logs_of(posting: &Posting) -> (u64, u64)
    ensures logs { result.0 ≡ logs_in posting.now }
    ensures worth { result.1 ≡ worth_in posting.now }
{
    match posting {
        Posting::Cut(entry) => (entry.cutting.logs.len() as u64, entry.worth),
        Posting::Demand(_) => (0, 0),
    }
}

/// How many cuts there are.
fn cuts_of(postings: &[Posting]) -> usize
    ensures { result ≡ sum_by cuts_in postings.now }
{
    let mut cuts = 0;
    for posting in postings {
        match posting {
            Posting::Cut(_) => cuts += 1,
            Posting::Demand(_) => {}
        }
    }
    cuts
}

/// Puts the line of the totals.
fn put_totals(out: &mut Vec<u8>, postings: &[Posting]) -> Result<(), Memory>
    ensures { OnOk result (out.new.items ≡ out.old.items ++ totals_line postings.now) }
{
    let mut logs = 0;
    let mut worth = 0;
    for posting in postings {
        let (number, value) = logs_of(posting);
        logs += u128::from(number);
        worth += u128::from(value);
    }
    put_total(out, cuts_of(postings), logs, worth)
}

/// The report of postings, by how all classes stand at their end.
pub fn report_with(
    alloc: Global,
    ending: &Ending,
    postings: &[Posting],
) -> Result<Vec<u8>, TextFault>
    ensures { IfOk result (λ text. text.items ≡ report_of postings.now ending.now) }
{
    let mut out = Vec::new(alloc);
    put_postings(&mut out, postings)?;
    put_assortments(&mut out, ending)?;
    put_totals(&mut out, postings)?;
    Ok(out)
}

/// The report of a history: what was cut and demanded, how each class stands at the end, and the totals.
///
/// ```text
/// ENTRY <position> <harvester> <number> <version> <stem number> <number of logs> <worth>
/// DEMAND <position> <harvester> <number> <version>
/// CLASS <assortment> <row> <column> <target> <count> <base price> <price in the last sheet>
/// DEGREE <assortment> <degree or none> <assortment name>
/// TOTAL <cuts> <logs> <worth>
/// ```
///
/// an `ENTRY` or a `DEMAND` line for each posting in the order of their commits, then for each assortment a `CLASS`
/// line for each of its classes, row by row, and its `DEGREE`, and the `TOTAL` once. Worths are in millionths of the
/// price unit, prices in price units, the degree in ten-thousandths. `Memory` if an allocation failed.
pub fn report_of(alloc: Global, parts: &Parts) -> Result<Vec<u8>, TextFault>
    ensures { IfOk result (λ text. IsReport parts.now text.items) }
{
    let ending = Ending {
        instruction: parts.instruction(),
        targets: parts.targets(),
        counts: parts.counts(),
        prices: parts.last_sheet().prices(),
    };
    report_with(alloc, &ending, parts.entries())
}
