//! What a wish costs: its runs, with its target moved, beside those with all wishes.
ghost use Rattle.std.specs.Prelude.{◌≡◌, ◌<◌, ◌≤◌, ◌++◌, IfErr, IfOk, List, OnOk, Some, length, slice_get, ℕ};
ghost use Rattle.std.specs.List.{AllZip};
ghost use Rattle.buck_apt_instruction.specs.Instruction.{AssortmentParts, classes, classes_of};
ghost use Rattle.buck_book_postings.specs.Degree.{part_of};
ghost use Rattle.buck_book_postings.specs.Posting.{opening_targets};
ghost use Rattle.buckfleet_trial_sweep.specs.Runs.{IsStop};
ghost use Rattle.buckfleet_trial_wishes.specs.Wishes.{IsWishAt, worth_in};
ghost use Rattle.buckfleet_trial_wishes.specs.WishLine.{AreGains, IsChangeOf, IsWishLine, below_of, both, changes_in, class_cells, degree_cells, gains_in, outcome_cells, target_cells, worth_cells};
ghost use Rattle.buckfleet_trial_wishes.specs.inner.Asking.{IsAsking, IsToldOf};

use crate::asking::Asking;
use crate::moved::moved_targets;
use crate::outcome::{Outcome, Runs};
use buck_apt_instruction::Assortment;
use buck_page_cells::{Change, put_change, put_number, put_numbers, put_spread, spread_of};
use buck_page_figures::{number_at, part, sum_of};
use buck_page_text::put_quoted;
use buck_record::Memory;
use buckfleet_engine_files::EngineFault;
use itoa::Buffer;
use std::alloc::Global;
use std::sync::Arc;

/// A class whose target is another than its share unsteered.
#[derive(Clone, Copy)]
pub(crate) struct Wish {
    pub assortment: usize,
    /// The place among the classes of its assortment.
    pub class: usize,
}

/// A line, and by what it is put in order: what the runs of the wish cut, if there are draws in these.
#[derive(Drop)]
pub(crate) struct Told {
    pub wish: Wish,
    pub worth: u128,
    pub line: Vec<u8>,
}

/// A number before and after, if there are both.
fn change_of(before: Option<u32>, after: Option<u32>) -> Option<Change>
    ensures { IsChangeOf (both before after) result }
{
    match (before, after) {
        (Some(before), Some(after)) => Some(Change {
            from: u128::from(before),
            to: u128::from(after),
        }),
        _ => None,
    }
}

/// What a run gains beside another.
fn gain_of(whole: &Outcome, run: &Outcome) -> Change
    ensures from { result.from ≡ whole.now.at_base }
    ensures to { result.to ≡ run.now.at_base }
{
    Change {
        from: whole.at_base,
        to: run.at_base,
    }
}

/// What runs gain beside others in the same orders.
fn gains_of(
    alloc: Global,
    wholes: &[Outcome],
    runs: &[Outcome],
) -> Result<Vec<Option<Change>>, Memory>
    requires { length runs.now ≡ length wholes.now }
    ensures { IfOk result (λ gains. AllZip IsChangeOf (gains_in wholes.now runs.now) gains.items) }
{
    let mut gains = Vec::new(alloc);
    for k in 0..wholes.len() {
        gains.push(Some(gain_of(&wholes[k], &runs[k])))?;
    }
    Ok(gains)
}

/// By how much the degree of the assortment at a place changes in each.
fn changes_of(
    alloc: Global,
    wholes: &[Outcome],
    runs: &[Outcome],
    at: usize,
) -> Result<Vec<Option<Change>>, Memory>
    requires { length runs.now ≡ length wholes.now }
    ensures { IfOk result (λ changes. AllZip IsChangeOf (changes_in at wholes.now runs.now) changes.items) }
{
    let mut changes = Vec::new(alloc);
    for k in 0..wholes.len() {
        changes.push(change_of(wholes[k].degree(at), runs[k].degree(at)))?;
    }
    Ok(changes)
}

/// What the runs cut: in the draws, or, if there are none, in the files' own order.
fn worth_of(runs: &Runs) -> u128
    requires { length runs.now.drawn.items ≤ 65535 }
    ensures { result ≡ worth_in runs.now.own runs.now.drawn.items }
{
    if runs.drawn.is_empty() {
        return runs.own.at_base;
    }
    let mut all = 0u128;
    for run in runs.drawn.as_slice() {
        all += run.at_base;
    }
    all
}

/// The exclusive upper diameter of a row in mm.
fn below_of(assortment: &Assortment, row: usize) -> u32
    requires { row < 1024 }
    ensures { result ≡ below_of assortment.now row }
{
    match assortment.diameters().get(row + 1) {
        Some(lower) => *lower,
        None => assortment.upper(),
    }
}

/// Puts which class a wish is about.
fn put_class(out: &mut Vec<u8>, assortment: &Assortment, wish: Wish) -> Result<(), Memory>
    requires { wish.class < classes_of assortment.now }
    ensures { OnOk result (out.new.items ≡ out.old.items ++ class_cells assortment.now wish) }
{
    let columns = assortment.lengths().len();
    let row = wish.class / columns;
    let column = wish.class % columns;
    let mut buffer = Buffer::new();
    out.extend_from_slice(buffer.format(wish.assortment).as_bytes())?;
    put_numbers(
        out,
        &[
            row as u128,
            column as u128,
            u128::from(number_at(assortment.diameters(), row)),
            u128::from(below_of(assortment, row)),
            u128::from(number_at(assortment.lengths(), column)),
        ],
    )
}

/// Puts what is wanted of the class, what it has unsteered, and its target as it was moved.
fn put_targets(out: &mut Vec<u8>, asking: &Asking, moved: &[u32], wish: Wish) -> Result<(), Memory>
    requires asking { IsAsking asking.now }
    requires moved { length moved.now ≡ classes asking.now.instruction.value }
    requires exists { wish.assortment < length asking.now.instruction.value.assortments }
    ensures { OnOk result ((a : AssortmentParts)
        → slice_get asking.now.instruction.value.assortments wish.assortment ≡ Some a
        → out.new.items ≡ out.old.items ++ target_cells
        (part_of asking.now.instruction.value a wish.assortment (opening_targets asking.now.instruction.value))
        (part_of asking.now.instruction.value a wish.assortment asking.now.unsteered.items)
        (part_of asking.now.instruction.value a wish.assortment moved.now) wish.class) }
{
    let asked = asking.asked(wish.assortment);
    let moved = part(&asking.instruction, moved, wish.assortment);
    put_numbers(
        out,
        &[
            u128::from(number_at(asked.targets, wish.class)),
            u128::from(asked.wanted),
            u128::from(number_at(asked.unsteered, wish.class)),
            u128::from(asked.cut),
            u128::from(number_at(moved, wish.class)),
            u128::from(sum_of(moved)),
        ],
    )
}

/// A degree as a number of a cell.
fn wide(degree: Option<u32>) -> Option<u128>
    ensures { result ≡ degree }
{
    match degree {
        Some(degree) => Some(u128::from(degree)),
        None => None,
    }
}

/// Puts what a run cut, and what it gains beside another.
pub(crate) fn put_worth(out: &mut Vec<u8>, whole: &Outcome, run: &Outcome) -> Result<(), Memory>
    ensures { OnOk result (out.new.items ≡ out.old.items ++ worth_cells whole.now run.now) }
{
    put_number(out, Some(run.at_base))?;
    put_change(out, Some(gain_of(whole, run)))
}

/// Puts a degree, and how far it is from another.
pub(crate) fn put_degree(
    out: &mut Vec<u8>,
    before: Option<u32>,
    after: Option<u32>,
) -> Result<(), Memory>
    ensures { OnOk result (out.new.items ≡ out.old.items ++ degree_cells before after) }
{
    put_number(out, wide(after))?;
    put_change(out, change_of(before, after))
}

/// Puts what a run came to beside another, with the degree of the assortment at a place.
fn put_outcome(out: &mut Vec<u8>, whole: &Outcome, run: &Outcome, at: usize) -> Result<(), Memory>
    ensures { OnOk result (out.new.items ≡ out.old.items ++ outcome_cells whole.now run.now at) }
{
    put_worth(out, whole, run)?;
    put_degree(out, whole.degree(at), run.degree(at))?;
    put_degree(out, whole.least, run.least)
}

/// Puts what the draws came to beside others in the same orders, if there are some.
fn put_gains(
    alloc: Global,
    out: &mut Vec<u8>,
    wholes: &[Outcome],
    runs: &[Outcome],
    at: usize,
) -> Result<(), Memory>
    requires same { length runs.now ≡ length wholes.now }
    requires few { length wholes.now ≤ 65535 }
    ensures { OnOk result ((gains : List ℕ) × AreGains at wholes.now runs.now gains
        × (out.new.items ≡ out.old.items ++ gains)) }
{
    if runs.is_empty() {
        return Ok(());
    }
    let gains = gains_of(alloc, wholes, runs)?;
    put_spread(out, spread_of(gains.as_slice()))?;
    let changes = changes_of(alloc, wholes, runs, at)?;
    put_spread(out, spread_of(changes.as_slice()))
}

/// The line of a wish.
fn line_of(
    alloc: Global,
    asking: &Asking,
    wish: Wish,
    moved: &[u32],
    whole: &Runs,
    runs: &Runs,
) -> Result<Vec<u8>, Memory>
    requires asking { IsAsking asking.now }
    requires moved { length moved.now ≡ classes asking.now.instruction.value }
    requires wish { IsWishAt asking.now.instruction.value asking.now.unsteered.items wish.assortment wish.class }
    requires same { length runs.now.drawn.items ≡ length whole.now.drawn.items }
    requires few { length whole.now.drawn.items ≤ 65535 }
    ensures { IfOk result (λ line. IsWishLine asking.now.instruction.value asking.now.unsteered.items moved.now
        whole.now runs.now wish line.items) }
{
    let at = wish.assortment;
    let assortment = &asking.instruction.assortments()[at];
    let mut line = Vec::new(alloc);
    put_class(&mut line, assortment, wish)?;
    put_targets(&mut line, asking, moved, wish)?;
    put_outcome(&mut line, &whole.own, &runs.own, at)?;
    line.push(b',')?;
    put_quoted(&mut line, assortment.name())?;
    put_gains(
        alloc,
        &mut line,
        whole.drawn.as_slice(),
        runs.drawn.as_slice(),
        at,
    )?;
    line.push(b'\n')?;
    Ok(line)
}

/// Makes the runs of a wish, and tells it beside the runs with all wishes.
pub(crate) fn tell_wish(
    alloc: Global,
    asking: &Asking,
    whole: &Runs,
    wish: Wish,
) -> Result<Told, EngineFault>
    requires asking { IsAsking asking.now }
    requires whole { length whole.now.drawn.items ≡ length asking.now.starts.items }
    requires wish { IsWishAt asking.now.instruction.value asking.now.unsteered.items wish.assortment wish.class }
    ensures ok { IfOk result (IsToldOf asking.now whole.now wish) }
    ensures stop { IfErr result (IsStop asking.now.input.lists.items) }
{
    let moved = moved_targets(
        alloc,
        &asking.instruction,
        asking.targets.as_slice(),
        asking.unsteered.as_slice(),
        wish.assortment,
        wish.class,
    )?;
    let moved = moved.as_slice();
    let instruction = Arc::new(alloc, asking.instruction.with_targets(alloc, moved)?)?;
    let runs = asking.runs(alloc, &instruction)?;
    Ok(Told {
        wish,
        worth: worth_of(&runs),
        line: line_of(alloc, asking, wish, moved, whole, &runs)?,
    })
}
