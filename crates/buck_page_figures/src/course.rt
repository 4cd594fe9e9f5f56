//! A way through the postings of some journals, with all that they come to.
ghost use Rattle.std.specs.Prelude.{◌≡◌, ◌+◌, ◌*◌, ◌<◌, ◌≤◌, ◌⊎◌, [], ◌∷◌, IfOk, length};
ghost use Rattle.buck_apt_instruction.specs.Instruction.{classes};
ghost use Rattle.buck_book_postings.specs.Posting.{opening_targets, targets_after};
ghost use Rattle.buck_page_figures.specs.Figures.{base_sheet};
ghost use Rattle.buck_page_figures.specs.Journals.{postings_of};
ghost use Rattle.buck_page_figures.specs.inner.Course.{ArePassable, IsCourse, IsFurther, IsOver, HasCourse};
ghost use Rattle.buck_book_postings.specs.declared.posting.TheConstants.{MOST_POSTINGS};

use crate::account::{Account, account_posting, no_account};
use buck_apt_instruction::Instruction;
use buck_book_journal::Journal;
use buck_book_postings::{Posting, Walk};
use buck_dp::Planner;
use buck_record::Memory;
use std::alloc::Global;
use std::sync::Arc;

/// How far a way through the postings of some journals has come.
#[derive(Drop)]
pub(crate) struct Course<'a> {
    /// The journal in which it stands, and how many postings those before it have.
    pub journal: usize,
    pub before: usize,
    /// The way through that journal.
    pub walk: Walk<'a>,
    /// The sums of the postings that were passed, through all journals.
    pub account: Account,
    /// The targets in force.
    pub targets: Arc<Vec<u32>>,
}

/// The instruction's targets, class by class.
fn opening_targets(alloc: Global, instruction: &Instruction) -> Result<Vec<u32>, Memory>
    ensures targets { IfOk result (λ targets. targets.items ≡ opening_targets instruction.now) }
    ensures number { IfOk result (λ targets. length targets.items ≡ classes instruction.now) }
{
    let mut targets = Vec::new(alloc);
    for assortment in instruction.assortments() {
        targets.extend_from_slice(assortment.targets())?;
    }
    Ok(targets)
}

/// The targets in force after one posting more.
fn targets_then(targets: Arc<Vec<u32>>, posting: &Posting) -> Result<Arc<Vec<u32>>, Memory>
    ensures { IfOk result (λ then. then.value.items ≡ targets_after targets.value.items (posting.now ∷ [])) }
{
    match posting {
        Posting::Cut(_) => Ok(targets),
        Posting::Demand(demand) => Ok(demand.targets.clone()?),
    }
}

/// The way before the first posting of some journals. The planner plans at base prices.
pub(crate) fn begin<'a>(
    alloc: Global,
    planner: &Planner,
    instruction: &'a Instruction,
    journals: &'a [Journal],
) -> Result<Course<'a>, Memory>
    requires instruction { planner.now.instruction ≡ instruction.now }
    requires some { 0 < length journals.now }
    requires few { length (postings_of journals.now) ≤ MOST_POSTINGS }
    ensures { IfOk result (IsCourse instruction.now journals.now 0 []) }
{
    let targets = opening_targets(alloc, instruction)?;
    let first = &journals[0];
    Ok(Course {
        journal: 0,
        before: 0,
        walk: Walk::opening(alloc, instruction, first.entries.as_slice())?,
        account: no_account(alloc, planner.sheet())?,
        targets: Arc::new(alloc, targets)?,
    })
}

/// The way from the end of a journal to the opening of the next.
fn go_over<'a>(
    alloc: Global,
    course: Course<'a>,
    instruction: &'a Instruction,
    journals: &'a [Journal],
) -> Result<Course<'a>, Memory>
    requires few { length (postings_of journals.now) ≤ MOST_POSTINGS }
    requires course { HasCourse instruction.now journals.now course }
    requires end { course.walk.at ≡ length course.walk.postings }
    requires more { course.journal + 1 < length journals.now }
    ensures over { IfOk result (IsOver instruction.now journals.now course.entry) }
    ensures next { IfOk result (λ c. c.journal ≡ course.entry.journal + 1) }
{
    let Course {
        journal,
        before,
        walk,
        account,
        ..
    } = course;
    let targets = opening_targets(alloc, instruction)?;
    let next = &journals[journal + 1];
    Ok(Course {
        journal: journal + 1,
        before: before + walk.at(),
        walk: Walk::opening(alloc, instruction, next.entries.as_slice())?,
        account,
        targets: Arc::new(alloc, targets)?,
    })
}

/// The way to the next posting, over the ends of journals; if there is none, to the end of the last journal.
pub(crate) fn go_on<'a>(
    alloc: Global,
    course: Course<'a>,
    instruction: &'a Instruction,
    journals: &'a [Journal],
) -> Result<Course<'a>, Memory>
    requires few { length (postings_of journals.now) ≤ MOST_POSTINGS }
    requires course { HasCourse instruction.now journals.now course }
    ensures over { IfOk result (IsOver instruction.now journals.now course.entry) }
    ensures next { IfOk result (λ c. c.walk.at < length c.walk.postings ⊎ (c.journal + 1 ≡ length journals.now)) }
{
    let mut course = course;
    for _ in course.journal + 1..journals.len() {
        if course.walk.next().is_some() {
            return Ok(course);
        }
        course = go_over(alloc, course, instruction, journals)?;
    }
    Ok(course)
}

/// The way past one posting more. The planner plans at base prices.
fn pass_one<'a>(
    alloc: Global,
    planner: &mut Planner,
    course: Course<'a>,
    instruction: &'a Instruction,
    journals: &'a [Journal],
) -> Result<Course<'a>, Memory>
    requires base { planner.old ≡ base_sheet instruction.now }
    requires few { length (postings_of journals.now) ≤ MOST_POSTINGS }
    requires passable { ArePassable instruction.now (postings_of journals.now) }
    requires course { HasCourse instruction.now journals.now course }
    requires more { course.before + course.walk.at < length (postings_of journals.now) }
    ensures same { planner.new ≡ planner.old }
    ensures begun { IfOk result (λ c. 0 < c.walk.at) }
    ensures further { IfOk result (IsFurther instruction.now journals.now (course.entry.before + course.entry.walk.at)
        course.entry (course.entry.before + course.entry.walk.at + 1)) }
{
    let Course {
        journal,
        before,
        walk,
        mut account,
        targets,
    } = go_on(alloc, course, instruction, journals)?;
    let Some(posting) = walk.next() else {
        unreachable!()
    };
    account_posting(alloc, &mut account, planner, before + walk.at(), posting)?;
    let targets = targets_then(targets, posting)?;
    let walk = walk.pass(planner.sheet(), posting)?;
    Ok(Course {
        journal,
        before,
        walk,
        account,
        targets,
    })
}

/// The way up to a place. The planner plans at base prices.
pub(crate) fn pass_until<'a>(
    alloc: Global,
    planner: &mut Planner,
    course: Course<'a>,
    instruction: &'a Instruction,
    journals: &'a [Journal],
    until: usize,
) -> Result<Course<'a>, Memory>
    requires base { planner.old ≡ base_sheet instruction.now }
    requires few { length (postings_of journals.now) ≤ MOST_POSTINGS }
    requires passable { ArePassable instruction.now (postings_of journals.now) }
    requires course { HasCourse instruction.now journals.now course }
    requires until { (course.before + course.walk.at < until) × (until ≤ length (postings_of journals.now)) }
    ensures same { planner.new ≡ planner.old }
    ensures begun { IfOk result (λ c. 0 < c.walk.at) }
    ensures further { IfOk result (IsFurther instruction.now journals.now (course.entry.before + course.entry.walk.at)
        course.entry until) }
{
    let mut course = course;
    for _ in course.before + course.walk.at()..until {
        course = pass_one(alloc, planner, course, instruction, journals)?;
    }
    Ok(course)
}
