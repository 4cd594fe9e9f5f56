//! A sheet, and what is kept of it from stem to stem: candidate lists, and rows drawn from them.
ghost use Rattle.std.specs.Prelude.{◌≡◌, ℕ, ◌<◌, ◌≤◌, IfOk, IfSome, length};
ghost use Rattle.buck_value.specs.Sheet.{IsSheet};
ghost use Rattle.buck_dp.specs.inner.Logs.{AreTakersOf};
ghost use Rattle.buck_dp.specs.declared.assortment_sets.AssortmentSet.{AssortmentSet};
ghost use Rattle.buck_dp.specs.inner.Candidates.{IsRow};
ghost use Rattle.buck_dp.specs.inner.SheetCache.{IsCache, HasSame, IsRowAt, IsListAt};

use crate::assortment_sets::{AssortmentSet, NumberedSet, WoodEntry, set_of};
use crate::log_types::LogTypes;
use crate::offering::{Cell, put_row};
use crate::pricing::{Candidate, ListKey, Term, band_around, put_list, terms_of};
use buck_apt_instruction::Instruction;
use buck_record::Memory;
use buck_stem_shape::Grades;
use buck_value::Sheet;
use std::alloc::{AllocError, Global};
use std::marker::Model;
use std::sync::Arc;

/// Number of terms in all lists above which these are dropped: 6.2 MB, the lists of 504 bands of 512 log types.
const TERMS: usize = 258_048;

/// Number of candidates in all lists above which these are dropped: 0.5 MB.
const CANDIDATES: usize = 16_384;

/// Number of cells above which all rows are dropped: 1.5 MB.
const CELLS: usize = 36_352;

/// Number of rows above which all rows are dropped: 0.4 MB.
const ROWS: usize = 16_384;

/// Number of kinds of wood from which on all that was found is dropped before the next stem.
const KINDS: usize = 64;

/// Number of top diameters, 0 to 1,500 mm in whole mm.
const DIAMETERS: usize = 1_501;

/// Where the row of some takers at a diameter stands in the list of all cells.
#[derive(Clone, Copy, Debug)]
pub struct RowEntry {
    pub takers: AssortmentSet,
    /// The top diameter in mm, 0 to 1,500.
    pub diameter: u32,
    /// Index of the row's first cell in the list, from 0.
    pub from: usize,
    /// Number of the row's cells.
    pub number: usize,
}

/// What is listed for a band: the candidates of some takers under a sheet, or the terms of every assortment.
#[derive(Drop)]
pub struct CandidateList<T> {
    pub key: ListKey,
    pub list: Vec<T>,
}

/// A sheet, the log types of its instruction, and what was found of these so far: who takes which kinds of wood, how
/// logs are priced, which depends on the instruction alone, the candidates of the sheet, the cells of the rows, and the
/// place of each row. Notes give that place by a slot for each set of takers and diameter. They are only hints, and
/// need not be dropped with the rows.
#[derive(Drop)]
pub struct SheetCache {
    sheet: Arc<Sheet>,
    types: LogTypes,
    kinds: Vec<WoodEntry>,
    // Apart from the candidates, because a new sheet changes prices alone, and one list for all takers of a band. Terms
    // of each set of takers are a tenth cheaper after a new sheet at 100 mm, but twice as dear through 500 bands.
    terms: Vec<CandidateList<Term>>,
    candidates: Vec<CandidateList<Candidate>>,
    cells: Vec<Cell>,
    entries: Vec<RowEntry>,
    notes: Vec<usize>,
}

impl Model for SheetCache {
    ghost use Rattle.buck_dp.specs.inner.SheetCache.{CacheParts, cache_of, IsCache};

    ghost Value = { CacheParts };

    ghost view = { λ m.
        cache_of m.sheet.value m.types m.kinds.items m.terms.items m.candidates.items m.cells.items m.entries.items };

    ghost invariant = { λ m. IsCache
        (cache_of m.sheet.value m.types m.kinds.items m.terms.items m.candidates.items m.cells.items m.entries.items) };
}

/// Where the list of some takers for a diameter stands among others.
#[tactic(auto, using(std::proofs::lemmas::Option::get_or_from_slice_get))]
fn find_list<T>(lists: &[CandidateList<T>], takers: AssortmentSet, diameter: u32) -> Option<usize>
    ensures { IfSome result (IsListAt lists.now takers diameter) }
{
    for place in 0..lists.len() {
        let key = lists[place].key;
        if key.takers == takers && key.band.thinnest <= diameter && diameter < key.band.past {
            return Some(place);
        }
    }
    None
}

/// Notes a place at a slot. Refused only if an allocation failed.
fn note(notes: &mut Vec<usize>, slot: usize, place: usize) -> Result<(), AllocError>
    requires { slot ≤ 1000000000 }
{
    if slot >= notes.len() {
        notes.resize(slot + 1, 0)?;
    }
    notes[slot] = place;
    Ok(())
}

impl SheetCache {
    /// The cache of a sheet, before anything is asked for. Refused as `Memory` alone.
    pub fn of(alloc: Global, sheet: Arc<Sheet>) -> Result<SheetCache, Memory>
        ensures { IfOk result (λ m. m.sheet ≡ sheet.value) }
    {
        let types = LogTypes::of(alloc, sheet.instruction())?;
        Ok(SheetCache {
            sheet,
            types,
            kinds: Vec::new(alloc),
            terms: Vec::new(alloc),
            candidates: Vec::new(alloc),
            cells: Vec::new(alloc),
            entries: Vec::new(alloc),
            notes: Vec::new(alloc),
        })
    }

    /// The sheet.
    pub fn sheet(&self) -> &Arc<Sheet>
        ensures sheet { result.now.value ≡ self.now.sheet }
        ensures right { IsCache self.now }
    {
        &self.sheet
    }

    /// The log types of its instruction.
    pub fn types(&self) -> &LogTypes
        ensures { result.now ≡ self.now.types }
    {
        &self.types
    }

    /// Drops all that was found if too many kinds of wood were met.
    pub fn clear_if_worn(&mut self)
        ensures { HasSame self.old self.new }
    {
        // A kind may take 12 kB of notes, and each question about wood goes through all kinds that were met.
        if self.kinds.len() >= KINDS {
            self.kinds.clear();
            self.terms.clear();
            self.candidates.clear();
            self.cells.clear();
            self.entries.clear();
        }
    }

    /// Takes another sheet of the same instruction, and drops what depends on prices.
    pub fn renew(&mut self, sheet: Arc<Sheet>)
        requires valid { IsSheet sheet.value }
        requires same { sheet.value.instruction ≡ self.old.sheet.instruction }
        ensures { self.new.sheet ≡ sheet.value }
    {
        // The notes stay. An index that had to be right would be dropped with the entries, and proved.
        self.candidates.clear();
        self.cells.clear();
        self.entries.clear();
        self.sheet = sheet;
    }

    /// Drops lists if there are too many, of a term or a candidate for each log type, and rows if there are too many.
    fn clear_if_full(&mut self)
        ensures { HasSame self.old self.new }
    {
        // Every instruction has a log type; no clause says so, and the division wants it.
        let types = self.types.list.len().max(1);
        if self.terms.len() > TERMS / types {
            self.terms.clear();
        } else if self.candidates.len() > CANDIDATES / types {
            self.candidates.clear();
        } else if self.cells.len() > CELLS || self.entries.len() > ROWS {
            self.cells.clear();
            self.entries.clear();
        }
    }

    /// The assortments that take wood of a species and of some grades. Refused only if an allocation failed.
    pub fn set_of(&mut self, species: u8, grades: Grades) -> Result<NumberedSet, AllocError>
        ensures same { HasSame self.old self.new }
        ensures takers { IfOk result (λ g. AreTakersOf self.old.sheet.instruction species grades g.takers) }
    {
        set_of(&mut self.kinds, &self.sheet, species, grades)
    }

    /// Where the terms for a diameter stand. They are found first if they aren't there yet.
    fn terms_at(&mut self, alloc: Global, diameter: u32) -> Result<usize, Memory>
        requires { diameter ≤ 1500 }
        ensures same { HasSame self.old self.new }
        ensures place { IfOk result (λ n. (takers : AssortmentSet) × IsListAt self.new.terms takers diameter n) }
    {
        let takers = AssortmentSet::every();
        if let Some(place) = find_list(self.terms.as_slice(), takers, diameter) {
            return Ok(place);
        }
        let instruction: &Instruction = self.sheet.instruction();
        let band = band_around(instruction, diameter);
        let key = ListKey { takers, band };
        let list = terms_of(alloc, instruction, self.types.list.as_slice(), band)?;
        let place = self.terms.len();
        self.terms.push(CandidateList { key, list })?;
        Ok(place)
    }

    /// Where the candidates of some takers for a diameter stand. They are made first if they aren't there yet.
    fn candidates_at(
        &mut self,
        alloc: Global,
        takers: AssortmentSet,
        diameter: u32,
    ) -> Result<usize, Memory>
        requires { diameter ≤ 1500 }
        ensures same { HasSame self.old self.new }
        ensures place { IfOk result (IsListAt self.new.candidates takers diameter) }
    {
        if let Some(place) = find_list(self.candidates.as_slice(), takers, diameter) {
            return Ok(place);
        }
        let at = self.terms_at(alloc, diameter)?;
        let terms = &self.terms[at];
        let band = terms.key.band;
        let key = ListKey { takers, band };
        let mut list = Vec::with_capacity(alloc, terms.list.len())?;
        put_list(&mut list, &self.sheet, terms.list.as_slice(), key)?;
        let place = self.candidates.len();
        self.candidates.push(CandidateList { key, list })?;
        Ok(place)
    }

    /// Draws the row of a set of takers at a diameter, noted at a slot. Tells the place of its entry.
    #[inline(never)]
    fn draw(
        &mut self,
        alloc: Global,
        set: NumberedSet,
        diameter: u32,
        slot: usize,
    ) -> Result<usize, Memory>
        requires diameter { diameter ≤ 1500 }
        requires slot { slot ≤ 1000000000 }
        ensures same { HasSame self.old self.new }
        ensures row { IfOk result (IsRowAt self.new.entries set.takers diameter) }
    {
        self.clear_if_full();
        let at = self.candidates_at(alloc, set.takers, diameter)?;
        // If memory runs out below, the note names no entry or another row's: `find` looks at whose row it is.
        let place = self.entries.len();
        note(&mut self.notes, slot, place)?;
        // Room for the entry first, so that no cells are left without one.
        self.entries.reserve(1)?;
        let candidates = self.candidates[at].list.as_slice();
        let entry = RowEntry {
            takers: set.takers,
            diameter,
            from: self.cells.len(),
            number: candidates.len(),
        };
        put_row(&mut self.cells, candidates, diameter, self.types.most_steps)?;
        self.entries.push_reserved(entry);
        Ok(place)
    }

    /// The place of the entry of the row of some takers at a diameter that was noted at a slot. A note is only a hint:
    /// the entry tells whose its row is.
    #[inline(always)]
    fn find(&self, takers: AssortmentSet, diameter: u32, slot: usize) -> Option<usize>
        ensures { IfSome result (IsRowAt self.now.entries takers diameter) }
    {
        let place = *self.notes.get(slot)?;
        let entry = *self.entries.get(place)?;
        if entry.takers != takers || entry.diameter != diameter {
            return None;
        }
        Some(place)
    }

    /// The place of the entry of the row of a set of takers at a diameter in mm. The row is drawn if it isn't there.
    /// Refused as `Memory` alone.
    #[inline(always)]
    pub fn row(&mut self, alloc: Global, set: NumberedSet, diameter: u32) -> Result<usize, Memory>
        requires { diameter ≤ 1500 }
        ensures same { HasSame self.old self.new }
        ensures row { IfOk result (IsRowAt self.new.entries set.takers diameter) }
    {
        let slot = usize::from(set.number) * DIAMETERS + diameter as usize;
        if let Some(place) = self.find(set.takers, diameter, slot) {
            return Ok(place);
        }
        self.draw(alloc, set, diameter, slot)
    }

    /// The cells of the row whose entry stands at a place.
    #[inline(always)]
    pub fn cells(&self, place: usize) -> &[Cell]
        requires { place < length self.now.entries }
        ensures { (takers : AssortmentSet) (d : ℕ) → IsRowAt self.now.entries takers d place
            → IsRow self.now.sheet self.now.types.list.items takers d self.now.types.most_steps result.now }
    {
        let entry = self.entries[place];
        &self.cells[entry.from..entry.from + entry.number]
    }
}
