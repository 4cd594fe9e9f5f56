//! The figures of lawful journals, made in one walk over their postings.
ghost use Rattle.std.specs.Prelude.{◌≡◌, ◌+◌, ◌*◌, ◌<◌, ◌≤◌, All, IfOk, length, map, min};
ghost use Rattle.buck_apt_instruction.specs.Instruction.{classes};
ghost use Rattle.buck_book_postings.specs.History.{IsLawful, prices_at};
ghost use Rattle.buck_book_journal.specs.Journal.{history_of};
ghost use Rattle.buck_page_figures.specs.Figures.{base_sheet};
ghost use Rattle.buck_page_figures.specs.Journals.{postings_of};
ghost use Rattle.buck_page_figures.specs.Points.{point_after};
ghost use Rattle.buck_page_figures.specs.Shown.{AreFigures, IsShown};
ghost use Rattle.buck_page_figures.specs.inner.Course.{ArePassable, HasCourse};
ghost use Rattle.buck_page_figures.specs.inner.Making.{AreAllDegrees, IsPointOf, AreCurves};
ghost use Rattle.buck_book_postings.specs.declared.posting.TheConstants.{MOST_POSTINGS};

use crate::course::{Course, begin, go_on, pass_until};
use crate::degrees::{Degrees, degrees_at};
use crate::figures::{Figures, Point};
use buck_apt_instruction::Instruction;
use buck_book_journal::Journal;
use buck_dp::Planner;
use buck_record::Memory;
use std::alloc::Global;

/// Greatest number of points of the curves.
pub const MOST_POINTS: usize = 200;

/// How many of some postings come before the point of a number, from 1.
fn point_after(postings: usize, number: usize) -> usize
    requires { (postings ≤ MOST_POSTINGS) × (number ≤ 200) }
    ensures { result ≡ point_after postings number }
{
    if postings <= MOST_POINTS {
        number
    } else {
        number * postings / MOST_POINTS
    }
}

/// How many postings some journals have together.
fn number_of(journals: &[Journal]) -> usize
    requires { length (postings_of journals.now) ≤ MOST_POSTINGS }
    ensures { result ≡ length (postings_of journals.now) }
{
    let mut number = 0;
    for journal in journals {
        number += journal.entries.len();
    }
    number
}

/// The degrees of each assortment, given what is wanted and what was cut of each class.
fn degrees_of(
    alloc: Global,
    instruction: &Instruction,
    targets: &[u32],
    counts: &[u32],
) -> Result<Vec<Degrees>, Memory>
    requires targets { length targets.now ≡ classes instruction.now }
    requires counts { length counts.now ≡ classes instruction.now }
    ensures { IfOk result (λ degrees. AreAllDegrees instruction.now targets.now counts.now degrees.items) }
{
    let mut degrees = Vec::new(alloc);
    for at in 0..instruction.assortments().len() {
        degrees.push(degrees_at(instruction, targets, counts, at))?;
    }
    Ok(degrees)
}

/// The prices of a version, of some sheets; none if it isn't among them.
fn prices_in(sheets: &[Vec<u32>], version: u32) -> &[u32]
    ensures { result.now ≡ prices_at (map (λ w. w.items) sheets.now) version }
{
    match sheets.get(version as usize) {
        Some(prices) => prices.as_slice(),
        None => &[],
    }
}

/// The point at which a way stands, after so many demands before the last point.
fn point_of<'a>(
    alloc: Global,
    instruction: &Instruction,
    journals: &'a [Journal],
    course: &Course<'_>,
    demands: u64,
) -> Result<Point<'a>, Memory>
    requires few { length (postings_of journals.now) ≤ MOST_POSTINGS }
    requires course { HasCourse instruction.now journals.now course.now }
    ensures { IfOk result (IsPointOf instruction.now journals.now course.now demands) }
{
    let targets = course.targets.as_slice();
    let tally = &course.account.tally;
    let version = course.walk.version();
    let journal = &journals[course.journal];
    Ok(Point {
        after: course.before + course.walk.at(),
        journal: course.journal,
        version,
        prices: prices_in(journal.sheets.as_slice(), version),
        degrees: degrees_of(alloc, instruction, targets, tally.counts.as_slice())?,
        unsteered: degrees_of(alloc, instruction, targets, tally.unsteered.as_slice())?,
        demand: demands < tally.total.demands,
    })
}

/// The way past all postings, and the points of the curves on it. The planner plans at base prices.
fn walk_all<'a>(
    alloc: Global,
    planner: &mut Planner,
    instruction: &'a Instruction,
    journals: &'a [Journal],
) -> Result<(Course<'a>, Vec<Point<'a>>), Memory>
    requires base { planner.old ≡ base_sheet instruction.now }
    requires some { 0 < length journals.now }
    requires few { length (postings_of journals.now) ≤ MOST_POSTINGS }
    requires passable { ArePassable instruction.now (postings_of journals.now) }
    ensures same { planner.new ≡ planner.old }
    ensures curves { IfOk result (λ r.
        AreCurves instruction.now journals.now (min (length (postings_of journals.now)) 200) r.0 r.1.items) }
    ensures last { IfOk result (λ r. r.0.journal + 1 ≡ length journals.now) }
{
    let last = number_of(journals);
    let mut course = begin(alloc, planner, instruction, journals)?;
    let mut points = Vec::new(alloc);
    for number in 0..last.min(MOST_POINTS) {
        let demands = course.account.tally.total.demands;
        let after = point_after(last, number + 1);
        course = pass_until(alloc, planner, course, instruction, journals, after)?;
        points.push(point_of(alloc, instruction, journals, &course, demands)?)?;
    }
    let course = go_on(alloc, course, instruction, journals)?;
    Ok((course, points))
}

/// The figures of journals of at most 1,000,000 postings together that are each lawful for an instruction. The planner
/// plans at base prices. Refused as `Memory` alone.
///
/// The postings are walked over once, journal after journal, and each stem that was cut is planned once more, at base
/// prices. Each journal begins with base prices and with the instruction's targets; what was cut goes on.
pub fn figures_of<'a>(
    alloc: Global,
    planner: &mut Planner,
    instruction: &'a Instruction,
    journals: &'a [Journal],
) -> Result<Figures<'a>, Memory>
    requires base { planner.old ≡ base_sheet instruction.now }
    requires some { 0 < length journals.now }
    requires few { length (postings_of journals.now) ≤ MOST_POSTINGS }
    requires lawful { All (λ j. IsLawful (history_of instruction.now j)) journals.now }
    ensures same { planner.new ≡ planner.old }
    ensures figures { IfOk result (AreFigures instruction.now journals.now) }
    ensures shown { IfOk result (λ f. IsShown f planner.old) }
{
    let _valid = instruction.assortments();
    let (course, points) = walk_all(alloc, planner, instruction, journals)?;
    let last = &journals[course.journal];
    let prices = prices_in(last.sheets.as_slice(), course.walk.version());
    let Course {
        account,
        targets,
        ..
    } = course;
    let tally = account.tally;
    Ok(Figures {
        instruction,
        journals,
        postings: number_of(journals),
        counts: tally.counts,
        unsteered: tally.unsteered,
        targets,
        prices,
        total: tally.total,
        harvesters: tally.owns,
        assortments: account.parts,
        unsteered_assortments: account.unsteered_parts,
        points,
        longest: account.longest.at,
        dearest: account.dearest.at,
    })
}
