//! Price sheets.
ghost use Rattle.std.specs.Prelude.{◌≡◌, ◌≤◌, ◌↔◌, IsTrue, IfOk, IfErr, IfSome, IfNone, OnOk, length, EachIndex};
ghost use Rattle.buck_apt_instruction.specs.Instruction.{IsInstruction, IsClass, classes};
ghost use Rattle.buck_value.specs.Sheet.{IsSheet, IsInSpan, IsPriceAt, IsSheetFault, base_prices, sheet_of, price_of};

use crate::fault::SheetFault;
use buck_apt_instruction::{Assortment, Class, Instruction};
use buck_record::Memory;
use std::alloc::{AllocError, Global};
use std::marker::Model;
use std::sync::Arc;

/// Highest price in force, in price units per m³ or per piece: twice the highest base price.
pub const HIGHEST_PRICE: u32 = 20_000_000;

/// The prices in force from a version on: one for each class of the instruction, each within its span. The span of a
/// class goes down and up from its base price by that price times the instruction's limit per mille, rounded down.
#[derive(Drop)]
pub struct Sheet {
    version: u32,
    instruction: Arc<Instruction>,
    prices: Vec<u32>,
}

impl Model for Sheet {
    ghost use Rattle.buck_value.specs.Sheet.{SheetParts, IsSheet, sheet_of};

    ghost Value = { SheetParts };

    ghost view = { λ s. sheet_of s.version s.instruction.value s.prices.items };

    ghost invariant = { λ s. IsSheet (sheet_of s.version s.instruction.value s.prices.items) };
}

/// The base prices, class by class.
fn base_prices_of(alloc: Global, instruction: &Instruction) -> Result<Vec<u32>, AllocError>
    ensures prices { IfOk result (λ prices. prices.items ≡ base_prices instruction.now) }
    ensures valid { IsInstruction instruction.now }
{
    let mut prices = Vec::new(alloc);
    for assortment in instruction.assortments() {
        prices.extend_from_slice(assortment.prices())?;
    }
    Ok(prices)
}

/// Whether a price lies within the span of its base price.
fn is_in_span(limit: u32, base: u32, price: u32) -> bool
    requires limit { limit ≤ 1000 }
    requires base { base ≤ 10000000 }
    ensures { IsTrue result ↔ IsInSpan limit base price }
{
    let span = (u64::from(base) * u64::from(limit) / 1000) as u32;
    base - span <= price && price <= base + span
}

impl Sheet {
    /// The sheet of version 0: each class has its base price. `Memory` if no list of the prices could be made.
    #[tactic(auto, using(crate::proofs::Prices::base_sheet))]
    pub fn base(alloc: Global, instruction: Arc<Instruction>) -> Result<Sheet, Memory>
        ensures { IfOk result (λ s.
            s ≡ sheet_of 0 instruction.value (base_prices instruction.value)) }
    {
        let prices = base_prices_of(alloc, &instruction)?;
        Ok(Sheet {
            version: 0,
            instruction,
            prices,
        })
    }

    /// Copies the sheet, for a caller that keeps one: with prices of its own, and the instruction shared. Refused as
    /// `Memory` alone.
    pub fn copy(&self, alloc: Global) -> Result<Sheet, Memory>
        ensures { IfOk result (λ s. s ≡ self.now) }
    {
        let prices = Vec::from_slice(alloc, self.prices.as_slice())?;
        Ok(Sheet {
            version: self.version,
            instruction: self.instruction.clone()?,
            prices,
        })
    }

    /// The sheet of these prices, one for each class, assortment by assortment and row by row. Refused as `Count` if
    /// there are more or fewer, else as `Price` with the least place of a price outside its span, both ends of which
    /// are inside. It takes no memory; the prices are dropped if they are refused.
    pub fn with_prices(
        instruction: Arc<Instruction>,
        version: u32,
        prices: Vec<u32>,
    ) -> Result<Sheet, SheetFault>
        ensures made { IfOk result (λ s. s ≡ sheet_of version instruction.value prices.items) }
        ensures valid { OnOk result (IsSheet (sheet_of version instruction.value prices.items)) }
        ensures refused { IfErr result (IsSheetFault instruction.value prices.items) }
    {
        if prices.len() != instruction.classes() {
            return Err(SheetFault::Count);
        }
        match first_outside(&instruction, prices.as_slice()) {
            Some(at) => Err(SheetFault::Price { at }),
            None => Ok(Sheet {
                version,
                instruction,
                prices,
            }),
        }
    }

    /// The version: how many sheets came before.
    pub fn version(&self) -> u32
        ensures version { result ≡ self.now.version }
        ensures valid { IsSheet self.now }
    {
        self.version
    }

    /// The instruction whose classes are priced.
    pub fn instruction(&self) -> &Arc<Instruction>
        ensures instruction { result.now.value ≡ self.now.instruction }
        ensures valid { IsSheet self.now }
    {
        &self.instruction
    }

    /// The price in force of each class, in price units per m³ or per piece: assortment by assortment and row by row.
    pub fn prices(&self) -> &[u32]
        ensures prices { result.now ≡ self.now.prices }
        ensures valid { IsSheet self.now }
    {
        self.prices.as_slice()
    }

    /// The price in force of a class of the instruction, in price units per m³ or per piece by its assortment's price
    /// kind: at most 20,000,000.
    pub fn price(&self, class: Class) -> u32
        requires { IsClass self.now.instruction class }
        ensures price { result ≡ price_of self.now class }
    {
        self.prices[self.instruction.index(class)]
    }

    /// Whether version, prices and instruction are all equal: all parts of the instruction, not where it is stored.
    pub fn same(&self, other: &Sheet) -> bool
        ensures { IsTrue result ↔ (self.now ≡ other.now) }
    {
        other.version == self.version
            && self.prices == other.prices
            && self.instruction.same(&other.instruction)
    }
}

/// The least place of a price outside its span, if there is one price for each class.
#[tactic(auto, using(crate::proofs::Prices::going_over))]
fn first_outside(instruction: &Instruction, prices: &[u32]) -> Option<usize>
    requires { length prices.now ≡ classes instruction.now }
    ensures found { IfSome result (λ at.
        IsSheetFault instruction.now prices.now (SheetFault.Price at)) }
    ensures none { IfNone result (EachIndex prices.now (IsPriceAt instruction.now prices.now)) }
{
    let limit = instruction.limit();
    let mut at = 0;
    for assortment in instruction.assortments() {
        let bases = assortment.prices();
        for k in 0..bases.len() {
            if !is_in_span(limit, bases[k], prices[at + k]) {
                return Some(at + k);
            }
        }
        at += bases.len();
    }
    None
}
