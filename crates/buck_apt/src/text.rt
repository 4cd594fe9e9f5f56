//! The text of an instruction.
ghost use Rattle.std.specs.Prelude.{◌≡◌, ◌∷◌, ◌++◌, ◌<◌, [], IfOk, OnOk, Ok, if◌then◌else◌};
ghost use Rattle.std.specs.Fmt.{decimal};
ghost use Rattle.std.specs.List.{flat_map};
ghost use Rattle.buck_apt.specs.Apt.{apt_of};
ghost use Rattle.buck_record.specs.writing.Written.{spaced, blank, row_start};
ghost use Rattle.buck_apt.specs.Text.{list_text, table_text, trim_text, wood_text, sizes_text, tables_text, assortment_text, text_of};

use buck_apt_instruction::{Assortment, Instruction};
use buck_record::{Memory, put_after, put_number};
use std::alloc::Global;

fn put(out: &mut Vec<u8>, text: &[u8]) -> Result<(), Memory>
    ensures { OnOk result (out.new.items ≡ out.old.items ++ text.now) }
{
    out.extend_from_slice(text)?;
    Ok(())
}

/// Puts a number after a line feed if a row begins, and else after a space.
fn put_in_row(out: &mut Vec<u8>, begins: bool, number: u32) -> Result<(), Memory>
    ensures { OnOk result (out.new.items ≡ out.old.items ++ ((if begins then 10 else 32) ∷ decimal number)) }
{
    let before = if begins { b'\n' } else { b' ' };
    put_after(out, before, u128::from(number))
}

/// Puts numbers, each after a space.
fn put_numbers(out: &mut Vec<u8>, numbers: &[u32]) -> Result<(), Memory>
    ensures { OnOk result (out.new.items ≡ out.old.items ++ spaced blank 0 numbers.now) }
{
    for number in numbers {
        put_number(out, u128::from(*number))?;
    }
    Ok(())
}

/// Puts grades, each after a space.
fn put_grades(out: &mut Vec<u8>, grades: &[u8]) -> Result<(), Memory>
    ensures { OnOk result (out.new.items ≡ out.old.items ++ spaced blank 0 grades.now) }
{
    for grade in grades {
        put_number(out, u128::from(*grade))?;
    }
    Ok(())
}

/// Puts numbers, rows of so many, each row on a line of its own.
fn put_rows(out: &mut Vec<u8>, columns: usize, numbers: &[u32]) -> Result<(), Memory>
    requires { 0 < columns }
    ensures { OnOk result (out.new.items ≡ out.old.items ++ spaced (row_start columns) 0 numbers.now) }
{
    for i in 0..numbers.len() {
        put_in_row(out, i % columns == 0, numbers[i])?;
    }
    Ok(())
}

/// Puts an item of numbers.
fn put_list(out: &mut Vec<u8>, head: &[u8], numbers: &[u32]) -> Result<(), Memory>
    ensures { OnOk result (out.new.items ≡ out.old.items ++ list_text head.now numbers.now) }
{
    put(out, head)?;
    put_numbers(out, numbers)?;
    put(out, b"~\n")
}

/// Puts an item of one number.
fn put_one(out: &mut Vec<u8>, head: &[u8], number: u32) -> Result<(), Memory>
    ensures { OnOk result (out.new.items ≡ out.old.items ++ list_text head.now (number ∷ [])) }
{
    put_list(out, head, &[number])
}

/// Puts an item of numbers, row by row.
fn put_table(out: &mut Vec<u8>, head: &[u8], columns: usize, numbers: &[u32]) -> Result<(), Memory>
    requires { 0 < columns }
    ensures { OnOk result (out.new.items ≡ out.old.items ++ table_text head.now columns numbers.now) }
{
    put(out, head)?;
    put_rows(out, columns, numbers)?;
    put(out, b"~\n")
}

/// Puts the trim allowance, if there is one.
fn put_trim(out: &mut Vec<u8>, trim: u32) -> Result<(), Memory>
    ensures { OnOk result (out.new.items ≡ out.old.items ++ trim_text trim) }
{
    if trim == 0 {
        return Ok(());
    }
    put_one(out, b"919 1", trim)
}

/// Puts the items that say which wood an assortment takes.
#[tactic(auto, unfolding(crate::specs::Text::wood_text))]
fn put_wood(out: &mut Vec<u8>, assortment: &Assortment) -> Result<(), Memory>
    ensures { OnOk result (out.new.items ≡ out.old.items ++ wood_text assortment.now) }
{
    put(out, b"911 1 ")?;
    put(out, assortment.name())?;
    put(out, b"~\n")?;
    put_one(out, b"912 1", u32::from(assortment.species()))?;
    put(out, b"913 1")?;
    put_grades(out, assortment.grades())?;
    put(out, b"~\n")?;
    put_one(out, b"914 1", u32::from(assortment.price_kind()))
}

/// Puts the items that say the sizes of its logs.
#[tactic(auto, unfolding(crate::specs::Text::sizes_text))]
fn put_sizes(out: &mut Vec<u8>, assortment: &Assortment) -> Result<(), Memory>
    ensures { OnOk result (out.new.items ≡ out.old.items ++ sizes_text assortment.now) }
{
    put_list(out, b"915 1", assortment.diameters())?;
    put_one(out, b"915 2", assortment.upper())?;
    put_list(out, b"916 1", assortment.lengths())
}

/// Puts the items of its classes.
#[tactic(auto, unfolding(crate::specs::Text::tables_text))]
fn put_tables(out: &mut Vec<u8>, assortment: &Assortment) -> Result<(), Memory>
    ensures { OnOk result (out.new.items ≡ out.old.items ++ tables_text assortment.now) }
{
    let columns = assortment.lengths().len();
    put_table(out, b"917 1", columns, assortment.prices())?;
    put_table(out, b"918 1", columns, assortment.targets())?;
    put_trim(out, assortment.trim())
}

/// Puts the items of an assortment.
#[tactic(auto, unfolding(crate::specs::Text::assortment_text))]
fn put_assortment(out: &mut Vec<u8>, assortment: &Assortment) -> Result<(), Memory>
    ensures { OnOk result (out.new.items ≡ out.old.items ++ assortment_text assortment.now) }
{
    put_wood(out, assortment)?;
    put_sizes(out, assortment)?;
    put_tables(out, assortment)
}

fn put_assortments(out: &mut Vec<u8>, assortments: &[Assortment]) -> Result<(), Memory>
    ensures { OnOk result (out.new.items ≡ out.old.items ++ flat_map assortment_text assortments.now) }
{
    for assortment in assortments {
        put_assortment(out, assortment)?;
    }
    Ok(())
}

/// The text, item by item.
#[tactic(auto, unfolding(crate::specs::Text::text_of))]
fn items_text(alloc: Global, instruction: &Instruction) -> Result<Vec<u8>, Memory>
    ensures { IfOk result (λ text. text.items ≡ text_of instruction.now) }
{
    let mut out = Vec::new(alloc);
    let assortments = instruction.assortments();
    put(&mut out, b"1 2 APT~\n")?;
    put_one(&mut out, b"901 1", instruction.module())?;
    put_one(&mut out, b"902 1", instruction.period())?;
    put_one(&mut out, b"903 1", instruction.limit())?;
    put_one(&mut out, b"910 1", assortments.len() as u32)?;
    put_assortments(&mut out, assortments)?;
    Ok(out)
}

/// The text of an instruction in its normal form (see docs/FORMATS.md). Reading it gives the same instruction. Refused
/// as [`Memory`] alone.
#[tactic(auto, using(crate::proofs::LimitLemmas::text_again))]
pub fn instruction_text(alloc: Global, instruction: &Instruction) -> Result<Vec<u8>, Memory>
    ensures text { IfOk result (λ text. text.items ≡ text_of instruction.now) }
    ensures read { IfOk result (λ text. apt_of text.items ≡ Ok instruction.now) }
{
    // It hands on the limits, by which the text is read again.
    let _valid = instruction.module();
    items_text(alloc, instruction)
}
