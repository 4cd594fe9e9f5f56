//! The search of a stem from the top end down, one top at a time, and for each the logs with it, range by range.
ghost use Rattle.std.specs.Prelude.{◌≡◌, ℕ, ◌+◌, ◌*◌, ◌<◌, ◌≤◌, ◌-◌, IfOk, OnOk};
ghost use Rattle.buck_stem_shape.specs.Stem.{IsStem, stem_length};
ghost use Rattle.buck_stem_shape.specs.points.Profile.{IsMaskBetween};
ghost use Rattle.buck_dp.specs.inner.Logs.{GroundParts, points_of};
ghost use Rattle.buck_dp.specs.inner.StemGrid.{IsGrid, IsCacheOf, IsPlan, IsEven, HaveRanges, IsNearest, IsRangeTo};

use crate::assortment_sets::NumberedSet;
use crate::bid::Bid;
use crate::offering::{offer_all, offer_some, settle};
use crate::sheet_cache::SheetCache;
use buck_record::Memory;
use buck_stem_shape::{Grades, Profile, Stem};
use buck_value::Sheet;
use std::alloc::Global;

/// Greatest trim, in mm.
const MOST_TRIM: u32 = 200;

/// A stem at its points, the multiples of the module.
#[derive(Clone, Copy)]
pub struct StemGrid<'a> {
    // The sheet isn't here: a search can't lend its own cache's sheet while it adds rows to the cache.
    pub stem: &'a Stem,
    pub profile: &'a Profile<'a>,
    /// Index of a point, from 0: every trim fits behind each top before it.
    pub fit: usize,
}

/// A range of starts from which the same assortments take the wood up to a top.
#[derive(Clone, Copy)]
pub struct StartRange {
    /// Index of the first point of the range, from 0. It ends where the one before it in a list begins.
    pub first: usize,
    pub set: NumberedSet,
}

/// The search of one stem after another under the sheet of a cache, with its lists.
#[derive(Drop)]
pub struct Search {
    pub cache: SheetCache,
    /// The ranges of the starts that the next tops have, the nearest first.
    pub ranges: Vec<StartRange>,
    /// For each point the worth of the best from there on.
    pub values: Vec<Bid>,
    /// For each point the rank of the log that starts there in the best from there on, 0 to 1,023; 0 if none does.
    pub choices: Vec<u32>,
}

/// The point before which each trim fits behind a top.
pub fn fit_of(sheet: &Sheet, stem: &Stem) -> usize
    ensures fit { (t : ℕ) → t < result → t * sheet.now.instruction.module + 200 ≤ stem_length stem.now.samples }
    ensures sound { IsStem stem.now }
{
    (stem.length().saturating_sub(MOST_TRIM) / sheet.instruction().module()) as usize
}

/// The starts before a point that have the grades of the last of them, and who takes their wood up to a top. `grades`
/// are those from the last of them up to the top.
fn run_before(
    grid: StemGrid<'_>,
    cache: &mut SheetCache,
    stop: usize,
    grades: u8,
) -> Result<StartRange, Memory>
    ghost p: { GroundParts }
    requires grid { IsGrid p grid }
    requires order { (0 < stop) × (stop < points_of p) }
    requires cache { IsCacheOf p cache.old }
    ensures cache { IsCacheOf p cache.new }
    ensures first { IfOk result (λ range. range.first < stop) }
    ensures even { IfOk result (λ range. IsEven grid.entry.profile.now range.first (stop - 1)) }
    ensures range { IfOk result (λ range. (top : ℕ) → stop ≤ top → top < points_of p
        → IsMaskBetween grid.entry.profile.now (stop - 1) top grades
        → IsRangeTo p top stop range × IsMaskBetween grid.entry.profile.now range.first top grades) }
{
    let first = grid.profile.run_start(stop - 1);
    let set = cache.set_of(grid.stem.species(), Grades::of(grades))?;
    Ok(StartRange { first, set })
}

impl Search {
    /// Finds the ranges of the starts of logs with the tops before `past` that lie behind the steps of one run: from
    /// the nearest range on. No log starts before the last range. Tells the first step of the run.
    fn find_ranges(&mut self, grid: StemGrid<'_>, past: usize) -> Result<usize, Memory>
        ghost p: { GroundParts }
        requires plan { IsPlan p grid self.old past }
        requires past { 1 < past }
        ensures cache { IsCacheOf p self.new.cache }
        ensures first { IfOk result (λ first. first + 1 < past) }
        ensures plan { IfOk result (λ _. IsPlan p grid.entry self.new past) }
        ensures ranges { IfOk result (λ first. HaveRanges p (first + 1) past self.new.ranges.items) }
    {
        let top = past - 1;
        let cache = &mut self.cache;
        let ranges = &mut self.ranges;
        ranges.clear();
        let mut grades = grid.profile.grades(top - 1, top);
        let mut range = run_before(grid, cache, top, grades)?;
        let first = range.first;
        // The lowest top is `first + 1`: no log of these tops starts before `low`.
        let low = (first + 1).saturating_sub(cache.types().most_steps);
        while range.first > low {
            // More grades give wood no taker: no log starts here or before, and the range isn't listed.
            if range.set.takers.is_empty() {
                return Ok(first);
            }
            grades = grid.profile.grades_from(range.first - 1, grades);
            let next = run_before(grid, cache, range.first, grades)?;
            if next.set.takers == range.set.takers {
                range.first = next.first;
            } else {
                ranges.push(range)?;
                range = next;
            }
        }
        ranges.push(range)?;
        Ok(first)
    }

    /// Settles the tops before `past` down to `last`, and offers their logs, which all start in the nearest range and
    /// fit.
    #[inline(never)]
    fn settle_near(
        &mut self,
        alloc: Global,
        grid: StemGrid<'_>,
        near: StartRange,
        past: usize,
        last: usize,
    ) -> Result<(), Memory>
        ghost p: { GroundParts }
        requires plan { IsPlan p grid self.old past }
        requires order { last ≤ past }
        requires near { (t : ℕ) → last ≤ t → t < past → IsNearest p grid near t }
        ensures cache { IsCacheOf p self.new.cache }
        ensures plan { OnOk result (IsPlan p grid.entry self.new last) }
        ensures ranges { self.new.ranges ≡ self.old.ranges }
    {
        let diameters = grid.profile.diameters();
        let cache = &mut self.cache;
        let far = cache.types().most_steps;
        // Tops of one diameter share a row. The loop over them holds slices alone, which stay in registers.
        let values = self.values.as_mut_slice();
        let choices = self.choices.as_mut_slice();
        let mut top = past;
        while top > last {
            let diameter = diameters[top - 1];
            let row = cache.row(alloc, near.set, diameter)?;
            let cells = cache.cells(row);
            loop {
                settle(values, choices, top);
                top -= 1;
                offer_all(values, top, near.first, cells, far);
                if top == last || diameters[top - 1] != diameter {
                    break;
                }
            }
        }
        Ok(())
    }

    /// Settles the tops before `past` down to `last`, and offers the logs with these range by range.
    #[tactic(auto, using(crate::proofs::GridLemmas::point_reached))]
    fn settle_ranges(
        &mut self,
        alloc: Global,
        grid: StemGrid<'_>,
        past: usize,
        last: usize,
    ) -> Result<(), Memory>
        ghost p: { GroundParts }
        requires plan { IsPlan p grid self.old past }
        requires order { last ≤ past }
        requires ranges { HaveRanges p last past self.old.ranges.items }
        ensures cache { IsCacheOf p self.new.cache }
        ensures plan { OnOk result (IsPlan p grid.entry self.new last) }
        ensures ranges { self.new.ranges ≡ self.old.ranges }
    {
        let diameters = grid.profile.diameters();
        let cache = &mut self.cache;
        let module = cache.sheet().instruction().module();
        let least = cache.types().least_steps;
        let length = grid.stem.length();
        let ranges = self.ranges.as_slice();
        let values = self.values.as_mut_slice();
        let choices = self.choices.as_mut_slice();
        let mut top = past;
        while top > last {
            settle(values, choices, top);
            top -= 1;
            let room = length - top as u32 * module;
            let mut stop = top;
            for range in ranges {
                // If even the first start of a range is too near for the shortest log, none starts there. To try each
                // cell instead takes up to eleven times as long with 100 zones. A row for each range would be up to a
                // third faster there, but a twentieth slower for other stems.
                if top - range.first >= least {
                    // From a row even for the first stem of a sheet: to offer logs straight from a candidate list would
                    // be more code.
                    let row = cache.row(alloc, range.set, diameters[top])?;
                    let lengths = top - stop + 1..top - range.first + 1;
                    offer_some(values, top, lengths, room, cache.cells(row));
                }
                stop = range.first;
            }
        }
        Ok(())
    }

    /// [`settle_ranges`](Search::settle_ranges), if there are tops to settle. Most stretches of a run have none, and to
    /// begin with one costs a hundredth of a plan.
    #[inline(always)]
    fn settle_stretch(
        &mut self,
        alloc: Global,
        grid: StemGrid<'_>,
        past: usize,
        last: usize,
    ) -> Result<(), Memory>
        ghost p: { GroundParts }
        requires plan { IsPlan p grid self.old past }
        requires order { last ≤ past }
        requires ranges { HaveRanges p last past self.old.ranges.items }
        ensures cache { IsCacheOf p self.new.cache }
        ensures plan { OnOk result (IsPlan p grid.entry self.new last) }
        ensures ranges { self.new.ranges ≡ self.old.ranges }
    {
        if past == last {
            return Ok(());
        }
        self.settle_ranges(alloc, grid, past, last)
    }

    /// Settles the tops behind the steps of one run, those before `past`. Tells the first of them.
    fn settle_run(
        &mut self,
        alloc: Global,
        grid: StemGrid<'_>,
        past: usize,
    ) -> Result<usize, Memory>
        ghost p: { GroundParts }
        requires plan { IsPlan p grid self.old past }
        requires past { 1 < past }
        ensures cache { IsCacheOf p self.new.cache }
        ensures run { IfOk result (λ last. IsPlan p grid.entry self.new last × (0 < last) × (last < past)) }
    {
        let first = self.find_ranges(grid, past)?;
        let last = first + 1;
        let number = self.ranges.len();
        if number == 0 {
            self.settle_ranges(alloc, grid, past, last)?;
            return Ok(last);
        }
        let near = self.ranges[0];
        // From the top `least` on there are logs, and from `full` on all of them start in the nearest range. Both are
        // far below where the sums would saturate, which spares a condition on how many steps a log type has.
        let types = self.cache.types();
        let far = self.ranges[number - 1].first;
        let least = far.saturating_add(types.least_steps);
        let full = if number == 1 {
            least
        } else {
            near.first.saturating_add(types.most_steps)
        };
        let fitting = past.min(grid.fit).max(last);
        let nearest = fitting.min(full).max(last);
        let some = nearest.min(least).max(last);
        // From the top down: tops behind which a trim may not fit, tops whose logs all start in the nearest range, tops
        // whose logs start in several, and tops without logs, which want no ranges. With two stretches `buck` is a
        // fifth slower at a module of 10 mm, for 190 lines less; with one loop it is slower still.
        self.settle_stretch(alloc, grid, past, fitting)?;
        self.settle_near(alloc, grid, near, fitting, nearest)?;
        self.settle_stretch(alloc, grid, nearest, some)?;
        self.ranges.clear();
        self.settle_stretch(alloc, grid, some, last)?;
        Ok(last)
    }

    /// Searches a stem from the top end, behind its last point, down to the butt, whatever the lists hold. Refused as
    /// `Memory` alone.
    pub fn search(&mut self, alloc: Global, grid: StemGrid<'_>) -> Result<(), Memory>
        ghost p: { GroundParts }
        requires grid { IsGrid p grid }
        requires cache { IsCacheOf p self.old.cache }
        ensures cache { IsCacheOf p self.new.cache }
        ensures plan { OnOk result (IsPlan p grid.entry self.new 0) }
    {
        let points = grid.profile.points();
        self.values.clear();
        self.values.resize(points + 1, Bid::none())?;
        self.choices.resize(points + 1, 0)?;
        self.choices[points] = 0;
        let mut top = points;
        while top > 1 {
            top = self.settle_run(alloc, grid, top)?;
        }
        self.ranges.clear();
        self.settle_ranges(alloc, grid, top, 0)
    }
}
