//! Sheets, classes and worths.
ghost use Rattle.std.specs.Prelude.{length, ◌<◌};
ghost use Rattle.buck_apt.specs.Instruction.{IsClass};
ghost use Rattle.buck_value.specs.Allowed.{IsAllowed};
ghost use Rattle.buck_value.specs.Prepared.{lengths_of, points_of};

use buck_apt::{Class, Instruction};
use buck_stem::Stem;
use buck_value::{Log, Memory, Prepared, Sheet, SheetFault};
use std::alloc::Global;
use std::sync::Arc;

/// `buck_value::Sheet`: `base` and `with_prices`.
pub fn sheets(
    alloc: Global,
    instruction: Arc<Instruction>,
    other: Arc<Instruction>,
    version: u32,
    prices: Vec<u32>,
) -> (Result<Sheet, Memory>, Result<Sheet, SheetFault>) {
    let base = Sheet::base(alloc, instruction);
    let priced = Sheet::with_prices(other, version, prices);
    (base, priced)
}

/// `buck_value::Sheet`: `version`, `price` and `same`.
pub fn sheet(sheet: &Sheet, class: Class, other: &Sheet)
    requires { IsClass sheet.now.instruction class }
{
    let _version: u32 = sheet.version();
    let _price: u32 = sheet.price(class);
    let _is_same: bool = sheet.same(other);
}

/// `buck_value`: `class_of` and `log_worth`.
pub fn log(sheet: &Sheet, stem: &Stem, log: &Log)
    requires { IsAllowed sheet.now.instruction stem.now log.now }
{
    let (start, assortment, length): (u32, u8, u32) = (log.start, log.assortment, log.length);
    let _class: Option<Class> = buck_value::class_of(sheet, stem, start, assortment, length);
    let _worth: u64 = buck_value::log_worth(sheet, stem, log);
}

/// `buck_value::Prepared::make`.
pub fn prepared_make<'s, 't>(
    alloc: Global,
    sheet: &'s Sheet,
    stem: &'t Stem,
) -> Result<Prepared<'s, 't>, Memory> {
    Prepared::make(alloc, sheet, stem)
}

/// `buck_value::Prepared`: `class` and `worth`.
pub fn prepared<'s, 't>(prepared: &Prepared<'s, 't>, i: usize, assortment: usize, column: usize)
    requires i { i < points_of prepared.now }
    requires assortment { assortment < length prepared.now.sheet.instruction.assortments }
    requires column { column < length (lengths_of prepared.now assortment) }
{
    let _class: Option<Class> = prepared.class(i, assortment, column);
    let _worth: Option<u64> = prepared.worth(i, assortment, column);
}
