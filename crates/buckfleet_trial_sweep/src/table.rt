//! The lines of a table: the names of its columns, and then one for each run.
ghost use Rattle.std.specs.Prelude.{◌≡◌, ◌≤◌, ◌++◌, length, OnOk};
ghost use Rattle.buckfleet_trial_sweep.specs.Table.{cells, column, degree_heads, head_line, pair_heads};

use buck_apt_instruction::{Assortment, Instruction};
use buck_page_cells::put_number;
use buck_page_text::put_quoted;
use buck_record::Memory;
use itoa::Buffer;
use std::alloc::Global;

/// Puts a cell for each number.
pub(crate) fn put_cells(out: &mut Vec<u8>, numbers: &[Option<u128>]) -> Result<(), Memory>
    ensures { OnOk result (out.new.items ≡ out.old.items ++ cells numbers.now) }
{
    for number in numbers {
        put_number(out, *number)?;
    }
    Ok(())
}

/// Puts the name of a column that says this of an assortment: with its number, and its name.
fn put_name(
    alloc: Global,
    out: &mut Vec<u8>,
    what: &[u8],
    at: u8,
    assortment: &Assortment,
) -> Result<(), Memory>
    ensures { OnOk result (out.new.items ≡ out.old.items ++ column what.now at assortment.now) }
{
    let mut name = Vec::new(alloc);
    let mut buffer = Buffer::new();
    name.extend_from_slice(what)?;
    name.extend_from_slice(buffer.format(at).as_bytes())?;
    name.extend_from_slice(b" ")?;
    name.extend_from_slice(assortment.name())?;
    put_quoted(out, name.as_slice())?;
    Ok(())
}

/// Puts the names of the columns that have the degrees of the assortments.
fn put_degree_heads(
    alloc: Global,
    out: &mut Vec<u8>,
    assortments: &[Assortment],
) -> Result<(), Memory>
    requires { length assortments.now ≤ 16 }
    ensures { OnOk result (out.new.items ≡ out.old.items ++ degree_heads 0 assortments.now) }
{
    for at in 0..assortments.len() {
        put_name(alloc, out, b"degree_", at as u8, &assortments[at])?;
        out.push(b',')?;
    }
    Ok(())
}

/// Puts the names of two columns that say these of each assortment.
fn put_pair_heads(
    alloc: Global,
    out: &mut Vec<u8>,
    first: &[u8],
    second: &[u8],
    assortments: &[Assortment],
) -> Result<(), Memory>
    requires { length assortments.now ≤ 16 }
    ensures { OnOk result (out.new.items ≡ out.old.items ++ pair_heads first.now second.now 0 assortments.now) }
{
    for at in 0..assortments.len() {
        out.push(b',')?;
        put_name(alloc, out, first, at as u8, &assortments[at])?;
        out.push(b',')?;
        put_name(alloc, out, second, at as u8, &assortments[at])?;
    }
    Ok(())
}

/// Puts the first line of a table, which names its columns. Refused as `Memory` alone.
pub fn put_head(alloc: Global, out: &mut Vec<u8>, instruction: &Instruction) -> Result<(), Memory>
    ensures { OnOk result (out.new.items ≡ out.old.items ++ head_line instruction.now) }
{
    let all = instruction.assortments();
    out.extend_from_slice(b"rule,period,limit,versions,")?;
    put_degree_heads(alloc, out, all)?;
    out.extend_from_slice(
        b"least_degree,base_worth_millionths,best_base_worth_millionths,cost_ten_thousandths,volume_cm3",
    )?;
    put_pair_heads(alloc, out, b"volume_cm3_", b"unsteered_volume_cm3_", all)?;
    put_pair_heads(alloc, out, b"diameter_degree_", b"length_degree_", all)?;
    out.push(b'\n')?;
    Ok(())
}
