//! A stem at the points where a log may start or end.
ghost use Rattle.std.specs.Prelude.{◌≡◌, ℕ, ◌+◌, ◌-◌, ◌*◌, ◌<◌, ◌≤◌, IfOk, OnOk, length, slice_index};
ghost use Rattle.buck_stem_shape.specs.Stem.{IsStem, diameter_at};
ghost use Rattle.buck_stem_shape.specs.points.Profile.{profile_of, points_of, IsMaskBetween};
ghost use Rattle.buck_stem_shape.specs.inner.ProfileTables.{AreTables};
ghost use Rattle.buck_stem_shape.specs.inner.Runs.{ShowMask};

use crate::points::diameters::put_diameters;
use crate::points::runs::{Step, put_steps};
use crate::stem::Stem;
use buck_record::Memory;
use std::alloc::{AllocError, Global};
use std::marker::Model;

/// The diameters and the grades of a stem at the multiples of a module, its points, in tables.
#[derive(Drop)]
pub struct Profile<'a> {
    stem: &'a Stem,
    /// The module in mm.
    step: u32,
    tables: Tables<'a>,
}

impl<'a> Model for Profile<'a> {
    ghost use Rattle.buck_stem_shape.specs.points.Profile.{ProfileParts, profile_of};
    ghost use Rattle.buck_stem_shape.specs.inner.ProfileTables.{AreTables, lists_of};

    ghost Value = { ProfileParts };

    ghost view = { λ p. profile_of p.stem.now p.step };

    ghost invariant = { λ p. AreTables (profile_of p.stem.now p.step) (lists_of p.tables) };
}

/// The lists of a profile: its own, or those of a caller.
#[derive(Drop)]
enum Tables<'a> {
    Own(ProfileLists),
    Lent(&'a ProfileLists),
}

/// The lists of a profile, to be kept from stem to stem. What they hold of the stem before is of no account.
#[derive(Drop)]
pub struct ProfileLists {
    diameters: Vec<u32>,
    steps: Vec<Step>,
}

impl ProfileLists {
    /// Empty lists. It takes no memory.
    pub fn new(alloc: Global) -> ProfileLists {
        ProfileLists {
            diameters: Vec::new(alloc),
            steps: Vec::new(alloc),
        }
    }
}

/// Puts the tables of a stem in the place of others.
fn put_tables(lists: &mut ProfileLists, stem: &Stem, step: u32) -> Result<(), AllocError>
    requires { (10 ≤ step) × (step ≤ 1000) }
    ensures { OnOk result (AreTables (profile_of stem.now step) lists.new) }
{
    put_diameters(&mut lists.diameters, stem, step)?;
    put_steps(&mut lists.steps, stem, step)
}

impl<'a> Profile<'a> {
    /// The tables of a stem at the multiples of a module of `step` mm, 10 to 1,000. It borrows the stem, and its lists
    /// are its own. Refused as `Memory` alone.
    pub fn make(alloc: Global, stem: &'a Stem, step: u32) -> Result<Profile<'a>, Memory>
        requires { (10 ≤ step) × (step ≤ 1000) }
        ensures { IfOk result (λ p. p ≡ profile_of stem.now step) }
    {
        let mut lists = ProfileLists::new(alloc);
        put_tables(&mut lists, stem, step)?;
        let tables = Tables::Own(lists);
        Ok(Profile { stem, step, tables })
    }

    /// [`make`](Profile::make) in lists of the caller's, which it borrows too. What they hold before is of no account,
    /// be it of another stem or of a call that was refused.
    pub fn make_in(
        lists: &'a mut ProfileLists,
        stem: &'a Stem,
        step: u32,
    ) -> Result<Profile<'a>, Memory>
        requires { (10 ≤ step) × (step ≤ 1000) }
        ensures { IfOk result (λ p. p ≡ profile_of stem.now step) }
    {
        put_tables(lists, stem, step)?;
        let tables = Tables::Lent(lists);
        Ok(Profile { stem, step, tables })
    }

    /// Its lists, whoever owns them.
    fn lists(&self) -> &ProfileLists
        ensures { AreTables self.now result.now }
    {
        match &self.tables {
            Tables::Own(lists) => lists,
            Tables::Lent(lists) => lists,
        }
    }

    /// The diameters in mm at the points.
    pub fn diameters(&self) -> &[u32]
        ensures number { length result.now ≡ points_of self.now }
        ensures right { (i : ℕ) → i < points_of self.now
            → slice_index result.now i ≡ diameter_at self.now.stem.samples (i * self.now.module) }
        ensures high { (i : ℕ) → i < points_of self.now → slice_index result.now i ≤ 1500 }
    {
        self.lists().diameters.as_slice()
    }

    /// How many points there are, the butt among them.
    pub fn points(&self) -> usize
        ensures number { result ≡ points_of self.now }
        ensures valid { IsStem self.now.stem }
        ensures module_range { (10 ≤ self.now.module) × (self.now.module ≤ 1000) }
    {
        self.lists().diameters.len()
    }

    /// The diameter in mm at point `i`, that is at `i * step` mm from the butt.
    pub fn diameter(&self, i: usize) -> u32
        requires { i < points_of self.now }
        ensures diameter { result ≡ diameter_at self.now.stem.samples (i * self.now.module) }
        ensures high { result ≤ 1500 }
    {
        self.diameters()[i]
    }

    /// Step `i`.
    fn step(&self, i: usize) -> Step
        requires { i + 1 < points_of self.now }
        ensures low { result.first ≤ i }
        ensures right { ShowMask self.now.stem.zones self.now.module result.first (i + 1) result.mask }
    {
        self.lists().steps[i]
    }

    /// The grades from point `i` on, if those from the next point on, up to whichever point, are `grades`: bit g - 1
    /// for grade g.
    pub fn grades_from(&self, i: usize, grades: u8) -> u8
        requires { i + 1 < points_of self.now }
        ensures { (j : ℕ) → i < j → j < points_of self.now → IsMaskBetween self.now (i + 1) j grades
            → IsMaskBetween self.now i j result }
    {
        self.step(i).mask | grades
    }

    /// The grades from point `i` up to point `j`: bit g - 1 for grade g. They are found run by run.
    pub fn grades(&self, i: usize, j: usize) -> u8
        requires { (i ≤ j) × (j < points_of self.now) }
        ensures { IsMaskBetween self.now i j result }
    {
        // A table over pairs of runs answers in constant time, which no caller needs, and takes half of a profile's
        // time at 100 zones.
        let mut grades = 0;
        let mut from = j;
        while from > i {
            grades = self.grades_from(from - 1, grades);
            from = self.run_start(from - 1).max(i);
        }
        grades
    }

    /// A point from which on each step up to step `i` has the grades of step `i`: the first of its run.
    pub fn run_start(&self, i: usize) -> usize
        requires { i + 1 < points_of self.now }
        ensures low { result ≤ i }
        ensures same { (j mask : ℕ) → i < j → j < points_of self.now → IsMaskBetween self.now i j mask
            → (k : ℕ) → result ≤ k → k ≤ i → IsMaskBetween self.now k j mask }
        ensures even { (one : ℕ) × ((k : ℕ) → result ≤ k → k ≤ i → IsMaskBetween self.now k (k + 1) one) }
    {
        self.step(i).first as usize
    }
}
