//! The line of a run, from its journal.
ghost use Rattle.std.specs.Prelude.{◌≡◌, ◌++◌, ◌≤◌, IfOk, OnOk, length};
ghost use Rattle.buck_apt_instruction.specs.Instruction.{classes};
ghost use Rattle.buck_book_postings.specs.History.{IsLawful};
ghost use Rattle.buck_book_journal.specs.Journal.{history_of};
ghost use Rattle.buckfleet_trial_sweep.specs.Table.{IsLeast, IsLine, apart_of, cells, rate_of, volumes_of, wholes_of};
ghost use Rattle.buckfleet_trial_sweep.specs.inner.Lines.{AreAllDegrees, lesser, line_by, versions_of};
ghost use Rattle.buck_book_postings.specs.declared.posting.TheConstants.{MOST_POSTINGS};

use crate::table::put_cells;
use buck_apt_instruction::Instruction;
use buck_book_journal::Journal;
use buck_dp::Planner;
use buck_page_cells::put_number;
use buck_page_figures::{Degrees, Figures, Part, Sums, degrees_at, figures_of};
use buck_page_text::half_up;
use buck_record::Memory;
use buck_rule::NamedRule;
use buck_value::Sheet;
use std::alloc::Global;
use std::slice::from_ref;
use std::sync::Arc;

/// A number that is there, widened.
fn widened(number: Option<u32>) -> Option<u128>
    ensures { result ≡ number }
{
    number.map(u128::from)
}

/// The degrees of each assortment, given what is wanted and what was cut of each class.
fn degrees_of(
    alloc: Global,
    instruction: &Instruction,
    targets: &[u32],
    counts: &[u32],
) -> Result<Vec<Degrees>, Memory>
    requires targets { length targets.now ≡ classes instruction.now }
    requires counts { length counts.now ≡ classes instruction.now }
    ensures { IfOk result (λ degrees. AreAllDegrees instruction.now targets.now counts.now degrees.items) }
{
    let mut degrees = Vec::new(alloc);
    for at in 0..instruction.assortments().len() {
        degrees.push(degrees_at(instruction, targets, counts, at))?;
    }
    Ok(degrees)
}

/// The lesser of two degrees, or the only one.
fn lesser(one: Option<u128>, other: Option<u128>) -> Option<u128>
    ensures { result ≡ lesser one other }
{
    match (one, other) {
        (None, other) => other,
        (one, None) => one,
        (Some(one), Some(other)) => if one <= other { Some(one) } else { Some(other) },
    }
}

/// The least of the degrees that are there.
fn least_of(degrees: &[Degrees]) -> Option<u128>
    ensures { IsLeast (wholes_of degrees.now) result }
{
    let mut least = None;
    for degree in degrees {
        least = lesser(least, widened(degree.whole));
    }
    least
}

/// What steering cost of what the best cuttings at base prices are worth, in ten-thousandths, to the nearest; 0 if
/// they are worth nothing.
fn rate_of(sums: &Sums) -> u128
    ensures { result ≡ rate_of sums.now.best sums.now.at_base }
{
    if sums.best == 0 {
        return 0;
    }
    half_up(10_000 * sums.cost(), sums.best)
}

/// Puts the degree of each assortment.
fn put_wholes(out: &mut Vec<u8>, degrees: &[Degrees]) -> Result<(), Memory>
    ensures { OnOk result (out.new.items ≡ out.old.items ++ cells (wholes_of degrees.now)) }
{
    for degree in degrees {
        put_number(out, widened(degree.whole))?;
    }
    Ok(())
}

/// Puts the degrees of diameters and of lengths of each assortment.
fn put_apart(out: &mut Vec<u8>, degrees: &[Degrees]) -> Result<(), Memory>
    ensures { OnOk result (out.new.items ≡ out.old.items ++ cells (apart_of degrees.now)) }
{
    for degree in degrees {
        put_number(out, widened(degree.diameter))?;
        put_number(out, widened(degree.length))?;
    }
    Ok(())
}

/// Puts the volume of the logs of each assortment, as cut and of the best cuttings at base prices.
fn put_volumes(out: &mut Vec<u8>, cut: &[Part], unsteered: &[Part]) -> Result<(), Memory>
    requires { length unsteered.now ≡ length cut.now }
    ensures { OnOk result (out.new.items ≡ out.old.items ++ cells (volumes_of cut.now unsteered.now)) }
{
    for at in 0..cut.len() {
        put_number(out, Some(cut[at].volume))?;
        put_number(out, Some(unsteered[at].volume))?;
    }
    Ok(())
}

/// How many sheets the first journal has.
fn versions_of(figures: &Figures<'_>) -> u128
    ensures { result ≡ versions_of figures.now.journals.now }
{
    let first = &figures.journals[0];
    first.sheets.len() as u128
}

/// Puts the line of a run by a rule of this name, with the degrees of the assortments and the least of them.
fn put_line(
    out: &mut Vec<u8>,
    rule: NamedRule,
    figures: &Figures<'_>,
    degrees: &[Degrees],
    least: Option<u128>,
) -> Result<(), Memory>
    ensures { OnOk result (out.new.items ≡ out.old.items ++ line_by rule figures.now degrees.now least) }
{
    let instruction = figures.instruction;
    let total = &figures.total;
    out.extend_from_slice(rule.name().as_bytes())?;
    let period = u128::from(instruction.period());
    let limit = u128::from(instruction.limit());
    let versions = versions_of(figures);
    put_cells(out, &[Some(period), Some(limit), Some(versions)])?;
    put_wholes(out, degrees)?;
    let (at_base, best) = (Some(total.at_base), Some(total.best));
    let rate = Some(rate_of(total));
    put_cells(out, &[least, at_base, best, rate, Some(total.volume)])?;
    let cut = figures.assortments.as_slice();
    put_volumes(out, cut, figures.unsteered_assortments.as_slice())?;
    put_apart(out, degrees)?;
    out.extend_from_slice(b"\n")?;
    Ok(())
}

/// The line of a run by a rule of this name, from its journal.
pub(crate) fn line_of(
    alloc: Global,
    rule: NamedRule,
    instruction: &Arc<Instruction>,
    journal: &Journal,
) -> Result<Vec<u8>, Memory>
    requires few { length journal.now.entries ≤ MOST_POSTINGS }
    requires lawful { IsLawful (history_of instruction.now.value journal.now) }
    ensures { IfOk result (λ line. IsLine rule (history_of instruction.now.value journal.now) line.items) }
{
    let base = Sheet::base(alloc, instruction.clone()?)?;
    let mut planner = Planner::make(alloc, Arc::new(alloc, base)?)?;
    // The figures that a page shows, from the journal: sums made during the run would be a second definition.
    let figures = figures_of(alloc, &mut planner, instruction, from_ref(journal))?;
    let targets = figures.targets.as_slice();
    let counts = figures.counts.as_slice();
    let degrees = degrees_of(alloc, figures.instruction, targets, counts)?;
    let degrees = degrees.as_slice();
    let mut line = Vec::new(alloc);
    put_line(&mut line, rule, &figures, degrees, least_of(degrees))?;
    Ok(line)
}
