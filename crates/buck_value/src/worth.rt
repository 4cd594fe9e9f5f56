//! Which logs are allowed, their classes and their worth.
//!
//! A log is allowed if its assortment is there and is of the stem's species, it starts at a multiple of the module,
//! its length is one of the assortment's, it ends within the stem together with the assortment's trim allowance, each
//! grade along its length is one of the assortment's, its top diameter is at or above the first lower limit and below
//! the upper diameter, and the base price of its class isn't 0. Its row is the last whose lower limit is at most its
//! top diameter, its column the place of its length.
ghost use Rattle.std.specs.Prelude.{◌≡◌, ◌*◌, ◌<◌, ◌≤◌, ◌%◌, ◌==◌, Some, IfSome, IfNone, slice_get, length, position};
ghost use Rattle.buck_apt_instruction.specs.Instruction.{IsAssortment, IsClass, IsOnModule};
ghost use Rattle.buck_stem_shape.specs.Stem.{IsStem, stem_length, diameter_at};
ghost use Rattle.buck_stem_shape.specs.points.Profile.{IsMask, profile_of};
ghost use Rattle.buck_value.specs.Sheet.{IsSheet, price_of};
ghost use Rattle.buck_value.specs.Allowed.{IsAllowed, Allows, IsBought, log_of, top_diameter, row_at, class_in, class_of, kind_in, worth_of};
ghost use Rattle.buck_value.specs.Volume.{volume, worth_at};
ghost use Rattle.buck_value.specs.declared.sheet.TheConstants.{HIGHEST_PRICE};

use crate::log::Log;
use crate::sheet::Sheet;
use crate::wood::takes;
use buck_apt_instruction::{Assortment, Class};
use buck_stem_shape::{Grades, Profile, Stem};

/// The volume in cm³ of a cylinder, rounded down, from its diameter and its length in mm. A quarter of pi is 0.7854.
pub fn volume_of(diameter: u32, length: u32) -> u64
    requires diameter { diameter ≤ 2000 }
    requires length { length ≤ 30000 }
    ensures value { result ≡ volume diameter length }
    ensures high { result ≤ 3142 * length }
{
    let d = u64::from(diameter);
    let l = u64::from(length);
    d * d * l * 7854 / 10_000_000
}

/// The worth of a piece in millionths of the price unit, by its price kind, its price and its volume in cm³.
pub fn worth_of_piece(kind: u8, price: u32, cubic: u64) -> u64
    requires price { price ≤ HIGHEST_PRICE }
    requires cubic { cubic ≤ 100000000 }
    ensures { result ≡ worth_at kind price cubic }
{
    if kind == 1 {
        u64::from(price) * cubic
    } else {
        u64::from(price) * 1_000_000
    }
}

/// The row, from 0, of a top diameter in mm: the last whose lower limit is at most it, or the first.
#[tactic(auto, using(crate::proofs::Rows::row_found))]
pub fn row_of(assortment: &Assortment, diameter: u32) -> usize
    ensures row { result ≡ row_at assortment.now diameter }
    ensures within { result < length assortment.now.diameters }
{
    let limits = assortment.diameters();
    let mut row = limits.len() - 1;
    while row > 0 && diameter < limits[row] {
        row -= 1;
    }
    row
}

/// The row, from 0, in which an assortment buys logs of a column with this top diameter in mm, or `None` if it is below
/// its first lower limit or not below its upper diameter, or if the base price of their class is 0.
pub fn bought_row(assortment: &Assortment, column: usize, diameter: u32) -> Option<usize>
    requires { column < length assortment.now.lengths }
    ensures row { IfSome result (λ row. row ≡ row_at assortment.now diameter) }
    ensures within { IfSome result (λ row. row < length assortment.now.diameters) }
    ensures bought { IfSome result (λ _. IsBought assortment.now column diameter) }
    ensures none { IfNone result (IsBought assortment.now column diameter → ⊥) }
    ensures valid { IsAssortment assortment.now }
{
    // The test of a log and the planner's price lists both ask here, so they can't differ.
    if diameter < assortment.diameters()[0] || assortment.upper() <= diameter {
        return None;
    }
    let row = row_of(assortment, diameter);
    if assortment.price(row, column) == 0 {
        return None;
    }
    Some(row)
}

/// The column, from 0, of a length in mm, if the assortment has it.
pub fn column_of(assortment: &Assortment, length: u32) -> Option<usize>
    ensures { result ≡ position (λ x. x == length) assortment.now.lengths }
{
    assortment.lengths().iter().position(|l| *l == length)
}

/// The wood of a stem from one place to another, in mm from the butt: its grades, and the diameter in mm where it ends.
/// They are read from the stem's tables for a module if there are any.
#[tactic(auto, using(crate::proofs::Classes::whole_steps))]
fn wood_between(
    step: u32,
    stem: &Stem,
    tables: Option<&Profile<'_>>,
    start: u32,
    end: u32,
) -> (Grades, u32)
    requires step { 0 < step }
    requires tables { IfSome tables (λ q. q.now ≡ profile_of stem.now step) }
    requires places { (start % step ≡ 0) × (end % step ≡ 0) }
    requires within { (start ≤ end) × (end ≤ stem_length stem.now.samples) }
    ensures grades { IsMask stem.now.zones start end result.0 }
    ensures top { result.1 ≡ diameter_at stem.now.samples end }
{
    match tables {
        None => (
            Grades::of(stem.grades_between(start, end)),
            stem.diameter_at(end),
        ),
        Some(tables) => {
            let i = (start / step) as usize;
            let j = (end / step) as usize;
            (Grades::of(tables.grades(i, j)), tables.diameter(j))
        }
    }
}

/// The class and the top diameter in mm of a log that is allowed.
#[derive(Clone, Copy)]
pub(crate) struct Measured {
    pub(crate) class: Class,
    pub(crate) top: u32,
}

/// The class and the top diameter of a log of an assortment, or `None` if that doesn't allow it. They are read from
/// the stem's tables if there are any.
#[tactic(auto, using(crate::proofs::Classes::column_none))]
fn measure_in(
    step: u32,
    assortment: &Assortment,
    stem: &Stem,
    tables: Option<&Profile<'_>>,
    log: &Log,
) -> Option<Measured>
    requires step { 0 < step }
    requires lengths { IsOnModule step assortment.now }
    requires tables { IfSome tables (λ q. q.now ≡ profile_of stem.now step) }
    ensures allowed { IfSome result (λ _. Allows step assortment.now stem.now log.now) }
    ensures class { IfSome result (λ m. m.class ≡ class_in (Some assortment.now) stem.now log.now) }
    ensures top { IfSome result (λ m. m.top ≡ top_diameter stem.now log.now) }
    ensures none { IfNone result (Allows step assortment.now stem.now log.now → ⊥) }
    ensures stem { IfSome result (λ _. IsStem stem.now) }
{
    if log.start % step != 0 {
        return None;
    }
    let column = column_of(assortment, log.length)?;
    let end = u64::from(log.start) + u64::from(log.length) + u64::from(assortment.trim());
    if end > u64::from(stem.length()) {
        return None;
    }
    let (grades, top) = wood_between(step, stem, tables, log.start, log.start + log.length);
    if !takes(assortment, stem.species(), grades) {
        return None;
    }
    let row = bought_row(assortment, column, top)?;
    let class = Class {
        assortment: log.assortment,
        row: row as u8,
        column: column as u8,
    };
    Some(Measured { class, top })
}

/// The class and the top diameter of a log, or `None` if it isn't allowed, from the stem's tables for the sheet's
/// module if there are any.
pub(crate) fn measure(
    sheet: &Sheet,
    stem: &Stem,
    tables: Option<&Profile<'_>>,
    log: &Log,
) -> Option<Measured>
    requires { IfSome tables (λ q. q.now ≡ profile_of stem.now sheet.now.instruction.«module») }
    ensures allowed { IfSome result (λ _. IsAllowed sheet.now.instruction stem.now log.now) }
    ensures class { IfSome result (λ m. m.class ≡ class_of sheet.now.instruction stem.now log.now) }
    ensures top { IfSome result (λ m. m.top ≡ top_diameter stem.now log.now) }
    ensures none { IfNone result (IsAllowed sheet.now.instruction stem.now log.now → ⊥) }
    ensures valid { IsSheet sheet.now }
    ensures stem { IfSome result (λ _. IsStem stem.now) }
{
    let instruction = sheet.instruction();
    let assortment = instruction.assortments().get(log.assortment as usize)?;
    measure_in(instruction.module(), assortment, stem, tables, log)
}

/// The class of the log that starts `start` mm from the butt, is `length` mm long and of the assortment at this place,
/// counted from 0; `None` if that log isn't allowed. The base prices have a part in it, the prices in force have
/// none. Any numbers may be asked for; it takes no memory.
#[tactic(auto, using(crate::proofs::Classes::class_is_class))]
pub fn class_of(
    sheet: &Sheet,
    stem: &Stem,
    start: u32,
    assortment: u8,
    length: u32,
) -> Option<Class>
    ensures allowed { IfSome result (λ _.
        IsAllowed sheet.now.instruction stem.now (log_of start length assortment)) }
    ensures class { IfSome result (λ c.
        c ≡ class_of sheet.now.instruction stem.now (log_of start length assortment)) }
    ensures exists { IfSome result (λ c. IsClass sheet.now.instruction c) }
    ensures none { IfNone result
        (IsAllowed sheet.now.instruction stem.now (log_of start length assortment) → ⊥) }
    ensures stem { IfSome result (λ _. IsStem stem.now) }
{
    let log = Log {
        start,
        length,
        assortment,
    };
    Some(measure(sheet, stem, None, &log)?.class)
}

/// What a log of a class, a top diameter and a length in mm is worth.
#[tactic(auto, using(crate::proofs::Classes::pricing))]
pub(crate) fn worth_in_class(sheet: &Sheet, class: Class, top: u32, length: u32) -> u64
    requires class { IsClass sheet.now.instruction class }
    requires top { top ≤ 2000 }
    requires length { length ≤ 30000 }
    ensures { result ≡ worth_at (kind_in (slice_get sheet.now.instruction.assortments class.assortment))
        (price_of sheet.now class) (volume top length) }
{
    let all = sheet.instruction().assortments();
    let kind = all[class.assortment as usize].price_kind();
    worth_of_piece(kind, sheet.price(class), volume_of(top, length))
}

/// The class, the top diameter and the worth of a log that is allowed.
#[derive(Clone, Copy, Debug, PartialEq, Eq)]
pub struct Valuation {
    pub class: Class,
    /// The diameter in mm where its length ends.
    pub top: u32,
    /// Worth in millionths of the price unit.
    pub worth: u64,
}

/// Gives the worth of a log under a sheet, in millionths of the price unit, or `None` if it isn't allowed; see
/// [`class_of`] and [`log_worth`]. Any log may be asked for. It takes no memory.
#[tactic(auto, using(crate::proofs::Classes::valuing))]
pub fn worth_if_allowed(sheet: &Sheet, stem: &Stem, log: &Log) -> Option<u64>
    ensures allowed { IfSome result (λ _. IsAllowed sheet.now.instruction stem.now log.now) }
    ensures worth { IfSome result (λ w. w ≡ worth_of sheet.now stem.now log.now) }
    ensures none { IfNone result (IsAllowed sheet.now.instruction stem.now log.now → ⊥) }
    ensures valid { IsSheet sheet.now }
    ensures stem { IfSome result (λ _. IsStem stem.now) }
{
    let found = measure(sheet, stem, None, log)?;
    Some(worth_in_class(sheet, found.class, found.top, log.length))
}

/// The class, the top diameter and the worth of a log that is allowed under a sheet. It takes no memory.
#[tactic(auto, using(crate::proofs::Classes::valuing))]
pub fn valuation_of_allowed(sheet: &Sheet, stem: &Stem, log: &Log) -> Valuation
    requires { IsAllowed sheet.now.instruction stem.now log.now }
    ensures class { result.class ≡ class_of sheet.now.instruction stem.now log.now }
    ensures top { result.top ≡ top_diameter stem.now log.now }
    ensures worth { result.worth ≡ worth_of sheet.now stem.now log.now }
    ensures valid { IsSheet sheet.now }
    ensures stem { IsStem stem.now }
{
    // `length` brings that the stem is within its limits: so the sum below fits, and the clause `stem` holds.
    prove!(log.start <= stem.length());
    let top = stem.diameter_at(log.start + log.length);
    let assortment = &sheet.instruction().assortments()[log.assortment as usize];
    let class = Class {
        assortment: log.assortment,
        row: row_of(assortment, top) as u8,
        column: column_of(assortment, log.length).unwrap() as u8,
    };
    let worth = worth_in_class(sheet, class, top, log.length);
    Valuation { class, top, worth }
}

/// Gives the worth of an allowed log under a sheet, in millionths of the price unit: the price in force of its class,
/// times its volume in cm³ if the price is per cubic metre, times 1,000,000 if it is per piece. The volume is that of
/// the cylinder of its top diameter and its length, rounded down. It takes no memory.
pub fn log_worth(sheet: &Sheet, stem: &Stem, log: &Log) -> u64
    requires { IsAllowed sheet.now.instruction stem.now log.now }
    ensures worth { result ≡ worth_of sheet.now stem.now log.now }
    ensures valid { IsSheet sheet.now }
    ensures stem { IsStem stem.now }
{
    valuation_of_allowed(sheet, stem, log).worth
}
