//! Assortments.
ghost use Rattle.std.specs.Prelude.{◌≡◌, ◌+◌, ◌*◌, ◌<◌, ◌≤◌, ◌↔◌, IsTrue, IfOk, All, length, slice_index, sum};
ghost use Rattle.buck_apt_instruction.specs.Instruction.{IsAssortment, classes_of};
ghost use Rattle.buck_apt_instruction.specs.Changed.{with_lists};
ghost use Rattle.buck_apt_instruction.specs.inner.Change.{changed};
ghost use Rattle.buck_apt_instruction.specs.Draft.{assortment_of, IsReadyDraft};

use crate::draft::{Draft, only};
use buck_record::Memory;
use std::alloc::{AllocError, Global};
use std::marker::Model;

/// One kind of log that a mill takes, with its classes: a row for each lower limit of the top diameter,
/// a column for each length. It is within the limits of the instruction file's table.
#[derive(Debug, Drop)]
pub struct Assortment {
    name: Vec<u8>,
    species: u8,
    grades: Vec<u8>,
    price_kind: u8,
    diameters: Vec<u32>,
    upper: u32,
    lengths: Vec<u32>,
    prices: Vec<u32>,
    targets: Vec<u32>,
    trim: u32,
}

impl Model for Assortment {
    ghost use Rattle.buck_apt_instruction.specs.Instruction.{AssortmentParts, IsAssortment};

    ghost Value = { AssortmentParts };

    ghost view = { λ a. record {
      name = a.name.items;
      species = a.species;
      grades = a.grades.items;
      price_kind = a.price_kind;
      diameters = a.diameters.items;
      upper = a.upper;
      lengths = a.lengths.items;
      prices = a.prices.items;
      targets = a.targets.items;
      trim = a.trim;
    } };

    ghost invariant = { λ a. IsAssortment (view a) };
}

/// What a copy has in the place of its original's own.
#[derive(Clone, Copy)]
pub(crate) enum Change {
    /// Nothing.
    Nothing,
    /// Every grade.
    Grades,
    /// Base prices, one for each class.
    Prices,
    /// Targets, one for each class.
    Targets,
}

/// All grades that wood may have.
const ALL_GRADES: [u8; 8] = [1, 2, 3, 4, 5, 6, 7, 8];

/// Numbers below 256 as bytes.
fn as_bytes(alloc: Global, numbers: &[u32]) -> Result<Vec<u8>, AllocError>
    requires { All (λ n. n < 256) numbers.now }
    ensures { IfOk result (λ bytes. bytes.items ≡ numbers.now) }
{
    let mut bytes = Vec::with_capacity(alloc, numbers.len())?;
    for n in numbers {
        bytes.push_reserved(*n as u8);
    }
    Ok(bytes)
}

impl Assortment {
    /// The assortment that a draft says, whose lists it takes over.
    pub(crate) fn of(alloc: Global, draft: Draft) -> Result<Assortment, AllocError>
        requires { IsReadyDraft draft }
        ensures { IfOk result (λ a. a ≡ assortment_of draft) }
    {
        Ok(Assortment {
            grades: as_bytes(alloc, draft.grades.as_slice())?,
            name: draft.name.into_vec(),
            species: only(draft.species) as u8,
            price_kind: only(draft.price_kind) as u8,
            trim: only(draft.trim),
            diameters: draft.diameters.into_vec(),
            upper: only(draft.upper),
            lengths: draft.lengths.into_vec(),
            prices: draft.prices.into_vec(),
            targets: draft.targets.into_vec(),
        })
    }

    /// The name, 1 to 32 bytes as they stand in the file.
    pub fn name(&self) -> &[u8]
        ensures { result.now ≡ self.now.name }
    {
        self.name.as_slice()
    }

    /// The species, 1 to 255.
    pub fn species(&self) -> u8
        ensures { result ≡ self.now.species }
    {
        self.species
    }

    /// The grades that a log may have, each 1 to 8, rising.
    pub fn grades(&self) -> &[u8]
        ensures { result.now ≡ self.now.grades }
    {
        self.grades.as_slice()
    }

    /// The price kind: 1 per m³, 2 per piece.
    pub fn price_kind(&self) -> u8
        ensures { result ≡ self.now.price_kind }
    {
        self.price_kind
    }

    /// The lower limit of each row in mm, 0 to 1,500, strictly rising.
    pub fn diameters(&self) -> &[u32]
        ensures limits { result.now ≡ self.now.diameters }
        ensures valid { IsAssortment self.now }
    {
        self.diameters.as_slice()
    }

    /// The exclusive upper diameter in mm, 1 to 2,000: above each lower limit.
    pub fn upper(&self) -> u32
        ensures { result ≡ self.now.upper }
    {
        self.upper
    }

    /// The length of each column in mm, trim excluded, 500 to 30,000, strictly rising.
    pub fn lengths(&self) -> &[u32]
        ensures lengths { result.now ≡ self.now.lengths }
        ensures valid { IsAssortment self.now }
    {
        self.lengths.as_slice()
    }

    /// The base prices in price units per m³ or per piece, 0 to 10,000,000: row by row. 0 is not bought.
    pub fn prices(&self) -> &[u32]
        ensures { result.now ≡ self.now.prices }
    {
        self.prices.as_slice()
    }

    /// The targets in logs, 0 to 1,000,000: row by row.
    pub fn targets(&self) -> &[u32]
        ensures { result.now ≡ self.now.targets }
    {
        self.targets.as_slice()
    }

    /// The trim allowance in mm, 0 to 200: what a log takes up beyond its length, for which nobody pays.
    pub fn trim(&self) -> u32
        ensures trim { result ≡ self.now.trim }
        ensures valid { IsAssortment self.now }
    {
        self.trim
    }

    /// How many classes it has, 1 to 1,024.
    pub fn classes(&self) -> usize
        ensures number { result ≡ classes_of self.now }
        ensures small { result ≤ 1024 }
        ensures valid { IsAssortment self.now }
    {
        self.prices.len()
    }

    /// The base price of a class in price units per m³ or per piece, by its row and its column, both from 0.
    pub fn price(&self, row: usize, column: usize) -> u32
        requires row { row < length self.now.diameters }
        requires column { column < length self.now.lengths }
        ensures { result ≡ slice_index self.now.prices (row * length self.now.lengths + column) }
    {
        self.prices[row * self.lengths.len() + column]
    }

    /// The target of a class in logs, by its row and its column, both from 0.
    pub fn target(&self, row: usize, column: usize) -> u32
        requires row { row < length self.now.diameters }
        requires column { column < length self.now.lengths }
        ensures { result ≡ slice_index self.now.targets (row * length self.now.lengths + column) }
    {
        self.targets[row * self.lengths.len() + column]
    }

    /// All targets together, in logs: at most 1,000,000,000.
    pub fn targets_sum(&self) -> u64
        ensures sum { result ≡ sum self.now.targets }
        ensures small { result ≤ 1000000000 }
    {
        let sum: u128 = self.targets.iter().map(|n| u128::from(*n)).sum();
        sum as u64
    }

    /// Whether all parts are equal.
    pub fn same(&self, other: &Assortment) -> bool
        ensures { IsTrue result ↔ (self.now ≡ other.now) }
    {
        self.name == other.name
            && self.species == other.species
            && self.grades == other.grades
            && self.price_kind == other.price_kind
            && self.diameters == other.diameters
            && self.upper == other.upper
            && self.lengths == other.lengths
            && self.prices == other.prices
            && self.targets == other.targets
            && self.trim == other.trim
    }

    /// The assortment with a change, for which these are its numbers, with lists of its own.
    pub(crate) fn changed(
        &self,
        alloc: Global,
        change: Change,
        numbers: &[u32],
    ) -> Result<Assortment, Memory>
        requires { IsAssortment (changed change numbers.now self.now) }
        ensures { IfOk result (λ a. a ≡ changed change numbers.now self.now) }
    {
        let grades = self.grades();
        let prices = self.prices();
        let targets = self.targets();
        match change {
            Change::Nothing => self.with_lists(alloc, grades, prices, targets),
            Change::Grades => self.with_lists(alloc, ALL_GRADES.as_slice(), prices, targets),
            Change::Prices => self.with_lists(alloc, grades, numbers, targets),
            Change::Targets => self.with_lists(alloc, grades, prices, numbers),
        }
    }

    /// The assortment with these grades, base prices and targets.
    fn with_lists(
        &self,
        alloc: Global,
        grades: &[u8],
        prices: &[u32],
        targets: &[u32],
    ) -> Result<Assortment, Memory>
        requires { IsAssortment (with_lists grades.now prices.now targets.now self.now) }
        ensures { IfOk result (λ a. a ≡ with_lists grades.now prices.now targets.now self.now) }
    {
        let name = Vec::from_slice(alloc, self.name.as_slice())?;
        let grades = Vec::from_slice(alloc, grades)?;
        let diameters = Vec::from_slice(alloc, self.diameters.as_slice())?;
        let lengths = Vec::from_slice(alloc, self.lengths.as_slice())?;
        let prices = Vec::from_slice(alloc, prices)?;
        let targets = Vec::from_slice(alloc, targets)?;
        Ok(Assortment {
            name,
            species: self.species,
            grades,
            price_kind: self.price_kind,
            diameters,
            upper: self.upper,
            lengths,
            prices,
            targets,
            trim: self.trim,
        })
    }
}
