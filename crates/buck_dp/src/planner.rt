//! Planners, and the best cutting of a stem.
ghost use Rattle.std.specs.Prelude.{◌≡◌, ◌≤◌, IfOk, IfErr, OnOk};
ghost use Rattle.buck_value.specs.Sheet.{IsSheet, SheetParts};
ghost use Rattle.buck_dp.specs.Best.{IsFirstBest, cutting_worth};
ghost use Rattle.buck_dp.specs.inner.Logs.{GroundParts};
ghost use Rattle.buck_dp.specs.inner.StemGrid.{IsGrid, IsCacheOf};

use crate::cutting::Cutting;
use crate::following::follow;
use crate::planning::{Search, StemGrid, fit_of};
use crate::sheet_cache::SheetCache;
use buck_record::Memory;
use buck_stem_shape::{Profile, ProfileLists, Stem};
use buck_value::Sheet;
use std::alloc::Global;
use std::marker::Model;
use std::sync::Arc;

/// Plans stem after stem under one sheet. It keeps what it has found of the sheet, so that each stem is planned faster
/// than by [`best`](crate::best), with the same answer.
#[derive(Drop)]
pub struct Planner {
    inner: Box<Inner>,
}

/// What a planner keeps from stem to stem: its search, and the lists of a profile.
#[derive(Drop)]
struct Inner {
    search: Search,
    lists: ProfileLists,
}

impl Model for Planner {
    ghost use Rattle.buck_value.specs.Sheet.{SheetParts};

    ghost Value = { SheetParts };

    ghost view = { λ p. p.inner.value.search.cache.sheet };
}

/// The first of the best cuttings of a stem at its points, and its worth.
fn cut_on_grid(
    alloc: Global,
    search: &mut Search,
    grid: StemGrid<'_>,
) -> Result<(Cutting, u64), Memory>
    ghost p: { GroundParts }
    requires grid { IsGrid p grid }
    requires cache { IsCacheOf p search.old.cache }
    ensures cache { IsCacheOf p search.new.cache }
    ensures first { IfOk result (λ found. IsFirstBest p.sheet p.stem found.0.logs.items) }
    ensures worth { IfOk result (λ found. found.1 ≡ cutting_worth p.sheet p.stem found.0.logs.items) }
{
    search.search(alloc, grid)?;
    let (logs, worth) = follow(alloc, grid, search)?;
    Ok((Cutting { logs }, worth))
}

/// The first of the best cuttings of a stem, and its worth.
#[tactic(auto, using(crate::proofs::Lists::cut_bounded))]
fn cut(alloc: Global, inner: &mut Inner, stem: &Stem) -> Result<(Cutting, u64), Memory>
    ensures same { inner.new.search.cache.sheet ≡ inner.old.search.cache.sheet }
    ensures first { IfOk result (λ found. IsFirstBest inner.old.search.cache.sheet stem.now found.0.logs.items) }
    ensures worth { IfOk result (λ found.
        found.1 ≡ cutting_worth inner.old.search.cache.sheet stem.now found.0.logs.items) }
    ensures high { IfOk result (λ found. found.1 ≤ 2800000000000000) }
    ensures valid { IsSheet inner.old.search.cache.sheet }
{
    let search = &mut inner.search;
    search.cache.clear_if_worn();
    let sheet = search.cache.sheet();
    let fit = fit_of(sheet, stem);
    // In lists that are kept from stem to stem: new ones would be up to a fifteenth of a plan's cost.
    let profile = Profile::make_in(&mut inner.lists, stem, sheet.instruction().module())?;
    let grid = StemGrid {
        stem,
        profile: &profile,
        fit,
    };
    cut_on_grid(alloc, search, grid)
}

/// The first of the best cuttings of a stem under a sheet, and its worth in millionths of the price unit.
///
/// The cutting is admissible, no admissible list of logs is worth more, and it comes before every other such one: at
/// the first difference stands the lower start, then the shorter log, then the lower assortment, and a list that goes
/// on comes before its own prefix. So a log worth nothing is cut if it is allowed. If no log is allowed, the cutting is
/// empty and worth 0. `Memory` if a list couldn't grow: a copy of the prices, the candidate lists, the values of the
/// points, and the logs. Stem after stem is planned faster by a [`Planner`](crate::Planner).
///
/// Bucking as a longest path, solved by dynamic programming over the places of a stem: M. Näsberg, "Mathematical
/// Programming Models for Optimal Log Bucking", Linköping, 1985.
pub fn best(alloc: Global, sheet: &Sheet, stem: &Stem) -> Result<(Cutting, u64), Memory>
    ensures first { IfOk result (λ found. IsFirstBest sheet.now stem.now found.0.logs.items) }
    ensures worth { IfOk result (λ found. found.1 ≡ cutting_worth sheet.now stem.now found.0.logs.items) }
{
    let sheet = Arc::new(alloc, sheet.copy(alloc)?)?;
    Planner::make(alloc, sheet)?.best(alloc, stem)
}

impl Planner {
    /// A planner under a sheet. Refused as `Memory` alone.
    pub fn make(alloc: Global, sheet: Arc<Sheet>) -> Result<Planner, Memory>
        ensures { IfOk result (λ p. p ≡ sheet.value) }
    {
        let search = Search {
            cache: SheetCache::of(alloc, sheet)?,
            ranges: Vec::new(alloc),
            values: Vec::new(alloc),
            choices: Vec::new(alloc),
        };
        let lists = ProfileLists::new(alloc);
        let inner = Box::new(alloc, Inner { search, lists })?;
        Ok(Planner { inner })
    }

    /// The sheet under which it plans.
    pub fn sheet(&self) -> &Arc<Sheet>
        ensures { result.now.value ≡ self.now }
    {
        self.inner.search.cache.sheet()
    }

    /// The first of the best cuttings of a stem under its sheet, and its worth in millionths of the price unit, as
    /// [`best`](crate::best) gives them. Refused as `Memory` alone; it can plan again then.
    pub fn best(&mut self, alloc: Global, stem: &Stem) -> Result<(Cutting, u64), Memory>
        ensures same { self.new ≡ self.old }
        ensures first { IfOk result (λ found. IsFirstBest self.old stem.now found.0.logs.items) }
        ensures worth { IfOk result (λ found. found.1 ≡ cutting_worth self.old stem.now found.0.logs.items) }
        ensures high { IfOk result (λ found. found.1 ≤ 2800000000000000) }
        ensures valid { IsSheet self.old }
    {
        cut(alloc, &mut self.inner, stem)
    }

    /// Plans under another sheet from now on. Refused as `Memory` alone: it then plans under the sheet as before. What
    /// depends on the instruction alone is kept if both have the same.
    pub fn renew(&mut self, alloc: Global, sheet: Arc<Sheet>) -> Result<(), Memory>
        ensures renewed { OnOk result (self.new ≡ sheet.value) }
        ensures left { IfErr result (λ _. self.new ≡ self.old) }
    {
        if !sheet.instruction().same(self.sheet().instruction()) {
            *self = Planner::make(alloc, sheet)?;
            return Ok(());
        }
        self.inner.search.cache.renew(sheet);
        Ok(())
    }
}
