//! Wrong answers about sheets, about which logs are allowed, and about their classes and worths.
ghost use Rattle.std.specs.Prelude.{◌≡◌, ◌≢◌, ◌+◌, ◌*◌, ◌<◌, ◌≤◌, ◌%◌, [], ◌∷◌, length, slice_index, slice_get, Some, Contains};
ghost use Rattle.std.specs.Int.{bit_at};
ghost use Rattle.std.specs.Option.{option_map};
ghost use Rattle.buck_apt_instruction.specs.Instruction.{IsClass, classes, index_of};
ghost use Rattle.buck_stem_shape.specs.Stem.{stem_length, diameter_at, grade_at, HasGradesOf};
ghost use Rattle.buck_value.specs.Sheet.{IsPriceAt, base_prices, price_of, span};
ghost use Rattle.buck_value.specs.Allowed.{IsAllowed, top_of, end_of, top_diameter, row_at, column_of, worth_of};
ghost use Rattle.buck_value.specs.Prepared.{points_of, lengths_of, log_at};
ghost use Rattle.wrong_best.specs.Logs.{ItsAssortment, AreOfTwoRows, worth_with_length};

use buck_apt_instruction::{Assortment, Class, Instruction};
use buck_record::Memory;
use buck_stem_shape::{Grades, Stem};
use buck_value::{
    Log, Prepared, Sheet, bought_row, class_of, log_worth, row_of, takes, valuation_of_allowed,
    volume_of, worth_if_allowed, worth_of_piece,
};
use std::alloc::Global;
use std::sync::Arc;

/// The sheet of the base prices is given version 1.
pub fn base_sheet_of_version_1(alloc: Global, instruction: Arc<Instruction>) -> Result<(), Memory> {
    let sheet = Sheet::base(alloc, instruction)?;
    let right = sheet.version();
    let wrong = 1;
    prove!(right != wrong);
    Ok(())
}

/// Fewer prices than classes make a sheet.
pub fn with_prices_counts_short(instruction: Arc<Instruction>, prices: Vec<u32>)
    requires { length prices.items < classes instruction.value }
{
    let made = Sheet::with_prices(instruction, 1, prices);
    let right = made.is_ok();
    let wrong = true;
    prove!(right != wrong);
}

/// A price one above the upper end of its span makes a sheet.
pub fn with_prices_too_wide_above(instruction: Arc<Instruction>, prices: Vec<u32>)
    requires some { 0 < length prices.items }
    requires above { slice_index prices.items 0 ≡ slice_index (base_prices instruction.value) 0
        + span instruction.value.limit (slice_index (base_prices instruction.value) 0) + 1 }
{
    let made = Sheet::with_prices(instruction, 1, prices);
    let right = made.is_ok();
    let wrong = true;
    prove!(right != wrong);
}

/// A price of a further class isn't looked at.
pub fn price_of_the_first_assortment(instruction: Arc<Instruction>, prices: Vec<u32>, place: usize)
    requires place { place < length prices.items }
    requires outside { IsPriceAt instruction.value prices.items place → ⊥ }
{
    let made = Sheet::with_prices(instruction, 1, prices);
    let right = made.is_ok();
    let wrong = true;
    prove!(right != wrong);
}

/// A copy has the base prices.
pub fn copy_at_base_prices(alloc: Global, sheet: &Sheet, class: Class, wrong: u32)
    requires class { IsClass sheet.now.instruction class }
    requires wrong { wrong ≡ slice_index (base_prices sheet.now.instruction) (index_of sheet.now.instruction class) }
    requires moved { wrong ≢ price_of sheet.now class }
{
    let Ok(copy) = sheet.copy(alloc) else {
        return;
    };
    let right = copy.price(class);
    prove!(right != wrong);
}

/// Two sheets with the same prices are said to be the same, though their instructions differ.
pub fn same_without_instruction(one: &Sheet, two: &Sheet)
    requires { one.now.instruction ≢ two.now.instruction }
{
    let right = one.same(two);
    let wrong = true;
    prove!(right != wrong);
}

/// The base price is returned in the place of the price in force.
pub fn worth_by_base_price(sheet: &Sheet, class: Class, wrong: u32)
    requires class { IsClass sheet.now.instruction class }
    requires wrong { wrong ≡ slice_index (base_prices sheet.now.instruction) (index_of sheet.now.instruction class) }
    requires moved { wrong ≢ price_of sheet.now class }
{
    let right = sheet.price(class);
    prove!(right != wrong);
}

/// The volume is rounded up.
pub fn volume_rounded_up() {
    let right = volume_of(190, 4000);
    let wrong = 113_412;
    prove!(right != wrong);
}

/// A piece is priced by its volume.
pub fn piece_by_volume() {
    let right = worth_of_piece(2, 600, 250_000);
    let wrong = 600 * 250_000;
    prove!(right != wrong);
}

/// A diameter on a row's lower limit is given the row below.
pub fn row_one_too_low(assortment: &Assortment)
    requires { assortment.now.diameters ≡ 100 ∷ 200 ∷ [] }
{
    let right = row_of(assortment, 200);
    let wrong = 0;
    prove!(right != wrong);
}

/// Logs are bought up to the upper diameter, that diameter among them.
pub fn bought_at_the_upper_diameter(assortment: &Assortment, column: usize)
    requires { column < length assortment.now.lengths }
{
    let right = bought_row(assortment, column, assortment.upper()).is_some();
    let wrong = true;
    prove!(right != wrong);
}

/// An assortment takes wood of another species.
pub fn takes_any_species(assortment: &Assortment, species: u8, grades: Grades)
    requires { assortment.now.species ≢ species }
{
    let right = takes(assortment, species, grades);
    let wrong = true;
    prove!(right != wrong);
}

/// An assortment takes wood that has a grade beside its own.
pub fn takes_any_grade(assortment: &Assortment, species: u8, grades: Grades)
    requires wood { bit_at grades 2 ≡ 1 }
    requires other { Contains assortment.now.grades 3 → ⊥ }
{
    let right = takes(assortment, species, grades);
    let wrong = true;
    prove!(right != wrong);
}

/// A log of an assortment of another species is let in.
pub fn species_not_compared(sheet: &Sheet, stem: &Stem, log: &Log)
    requires { ItsAssortment sheet.now log.now (λ a. a.species ≢ stem.now.species) }
{
    let right = worth_if_allowed(sheet, stem, log).is_some();
    let wrong = true;
    prove!(right != wrong);
}

/// A log is let in that starts between two multiples of the module.
pub fn start_off_the_module(sheet: &Sheet, stem: &Stem, log: &Log)
    requires { log.now.start % sheet.now.instruction.«module» ≢ 0 }
{
    let right = worth_if_allowed(sheet, stem, log).is_some();
    let wrong = true;
    prove!(right != wrong);
}

/// A log is let in whose length the assortment doesn't have.
pub fn any_length_let_in(sheet: &Sheet, stem: &Stem, log: &Log)
    requires { ItsAssortment sheet.now log.now (λ a. Contains a.lengths log.now.length → ⊥) }
{
    let right = worth_if_allowed(sheet, stem, log).is_some();
    let wrong = true;
    prove!(right != wrong);
}

/// A log is let in that ends past the end of the stem.
pub fn log_past_the_end(sheet: &Sheet, stem: &Stem, log: &Log)
    requires { stem_length stem.now.samples < top_of log.now }
{
    let right = worth_if_allowed(sheet, stem, log).is_some();
    let wrong = true;
    prove!(right != wrong);
}

/// A log is let in whose trim lies past the end of the stem.
pub fn measure_in_without_trim(sheet: &Sheet, stem: &Stem, log: &Log)
    requires { stem_length stem.now.samples < end_of sheet.now.instruction log.now }
{
    let right = worth_if_allowed(sheet, stem, log).is_some();
    let wrong = true;
    prove!(right != wrong);
}

/// The grade where a log starts is taken for that of its whole length.
pub fn grade_at_start_alone(sheet: &Sheet, stem: &Stem, log: &Log)
    requires start { ItsAssortment sheet.now log.now (λ a. Contains a.grades (grade_at stem.now.zones log.now.start)) }
    requires whole { ItsAssortment sheet.now log.now (λ a.
        HasGradesOf stem.now.zones log.now.start (top_of log.now) a.grades → ⊥) }
{
    let right = worth_if_allowed(sheet, stem, log).is_some();
    let wrong = true;
    prove!(right != wrong);
}

/// A log is let in whose top is thinner than the first lower limit.
pub fn lowest_limit_not_looked_at(sheet: &Sheet, stem: &Stem, log: &Log)
    requires { ItsAssortment sheet.now log.now (λ a. top_diameter stem.now log.now < slice_index a.diameters 0) }
{
    let right = worth_if_allowed(sheet, stem, log).is_some();
    let wrong = true;
    prove!(right != wrong);
}

/// A log is let in whose top is at the upper diameter.
pub fn upper_diameter_let_in(sheet: &Sheet, stem: &Stem, log: &Log)
    requires { ItsAssortment sheet.now log.now (λ a. a.upper ≡ top_diameter stem.now log.now) }
{
    let right = worth_if_allowed(sheet, stem, log).is_some();
    let wrong = true;
    prove!(right != wrong);
}

/// A log is let in whose class has the base price 0.
pub fn base_price_0_let_in(sheet: &Sheet, stem: &Stem, log: &Log)
    requires { ItsAssortment sheet.now log.now (λ a.
        slice_index a.prices (row_at a (top_diameter stem.now log.now) * length a.lengths + column_of a log.now.length)
        ≡ 0) }
{
    let right = worth_if_allowed(sheet, stem, log).is_some();
    let wrong = true;
    prove!(right != wrong);
}

/// A log that is allowed is left.
pub fn allowed_log_left(sheet: &Sheet, stem: &Stem, log: &Log)
    requires { IsAllowed sheet.now.instruction stem.now log.now }
{
    let right = worth_if_allowed(sheet, stem, log).is_none();
    let wrong = true;
    prove!(right != wrong);
}

/// The assortment of a log.
fn assortment_of<'a>(sheet: &'a Sheet, log: &Log) -> Option<&'a Assortment>
    ensures { ItsAssortment sheet.now log.now (λ a. option_map (λ x. x.now) result ≡ Some a) }
{
    let all = sheet.instruction().assortments();
    all.get(log.assortment as usize)
}

/// The row of a log is that of the diameter where it starts.
pub fn class_by_butt_or_raw_sample_butt(sheet: &Sheet, stem: &Stem, log: &Log)
    requires start { log.now.start ≤ stem_length stem.now.samples }
    requires rows { ItsAssortment sheet.now log.now (λ a.
        AreOfTwoRows a (diameter_at stem.now.samples log.now.start) (top_diameter stem.now log.now)) }
{
    let Some(class) = class_of(sheet, stem, log.start, log.assortment, log.length) else {
        return;
    };
    let Some(assortment) = assortment_of(sheet, log) else {
        return;
    };
    let right = class.row as usize;
    let wrong = row_of(assortment, stem.diameter_at(log.start));
    prove!(right != wrong);
}

/// The top diameter of a log is a millimetre too small.
pub fn top_a_millimetre_less(sheet: &Sheet, stem: &Stem, log: &Log)
    requires allowed { IsAllowed sheet.now.instruction stem.now log.now }
    requires top { top_diameter stem.now log.now ≡ 250 }
{
    let right = valuation_of_allowed(sheet, stem, log).top;
    let wrong = 249;
    prove!(right != wrong);
}

/// The trim of a log is paid for.
#[tactic(auto, unfolding(buck_value::specs::Allowed::worth_of))]
pub fn volume_with_trim(sheet: &Sheet, stem: &Stem, log: &Log, wrong: u64)
    requires allowed { IsAllowed sheet.now.instruction stem.now log.now }
    requires wrong { wrong ≡ worth_with_length sheet.now stem.now log.now (log.now.length + 100) }
    requires more { worth_with_length sheet.now stem.now log.now log.now.length ≢ wrong }
{
    let right = log_worth(sheet, stem, log);
    prove!(right != wrong);
}

/// One point more is counted than lie within the stem.
pub fn points_one_more(prepared: &Prepared<'_, '_>)
    requires long { stem_length prepared.now.stem.samples ≡ 4000 }
    requires by_100 { prepared.now.sheet.instruction.«module» ≡ 100 }
{
    let right = prepared.points();
    let wrong = 42;
    prove!(right != wrong);
}

/// A log of a prepared stem is let in though its trim lies past the last point.
pub fn log_past_the_last_point(prepared: &Prepared<'_, '_>, point: usize)
    requires point { point < points_of prepared.now }
    requires assortment { 0 < length prepared.now.sheet.instruction.assortments }
    requires column { 0 < length (lengths_of prepared.now 0) }
    requires past { stem_length prepared.now.stem.samples
        < end_of prepared.now.sheet.instruction (log_at prepared.now point 0 0) }
{
    let right = prepared.worth(point, 0, 0).is_some();
    let wrong = true;
    prove!(right != wrong);
}

/// The row of a log of a prepared stem is that of the diameter at the butt.
pub fn row_by_the_butt(prepared: &Prepared<'_, '_>, assortment: &Assortment, butt: u32)
    requires assortment { slice_get prepared.now.sheet.instruction.assortments 0 ≡ Some assortment.now }
    requires column { 0 < length (lengths_of prepared.now 0) }
    requires butt { butt ≡ diameter_at prepared.now.stem.samples 0 }
    requires rows { AreOfTwoRows assortment.now butt (top_diameter prepared.now.stem (log_at prepared.now 0 0 0)) }
{
    let Some(class) = prepared.class(0, 0, 0) else {
        return;
    };
    let right = class.row as usize;
    let wrong = row_of(assortment, butt);
    prove!(right != wrong);
}
