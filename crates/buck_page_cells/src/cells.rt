//! Cells that are put behind a line.
ghost use Rattle.std.specs.Prelude.{◌≡◌, ◌++◌, OnOk, Some};
ghost use Rattle.std.specs.List.{flat_map};
ghost use Rattle.buck_page_cells.specs.Cells.{change_cell, difference_cell, number_cell, spread_cells};

use crate::change::Change;
use crate::spread::Spread;
use buck_page_text::Difference;
use buck_record::Memory;
use itoa::Buffer;

/// Puts a comma, and a number behind it if there is one. If it is refused as `Memory`, a part may have been put.
pub fn put_number(out: &mut Vec<u8>, number: Option<u128>) -> Result<(), Memory>
    ensures { OnOk result (out.new.items ≡ out.old.items ++ number_cell number) }
{
    out.push(b',')?;
    if let Some(number) = number {
        let mut buffer = Buffer::new();
        out.extend_from_slice(buffer.format(number).as_bytes())?;
    }
    Ok(())
}

/// Puts each of some numbers behind a comma. If it is refused as `Memory`, some may have been put.
pub fn put_numbers(out: &mut Vec<u8>, numbers: &[u128]) -> Result<(), Memory>
    ensures { OnOk result (out.new.items ≡ out.old.items ++ flat_map (λ n. number_cell (Some n)) numbers.now) }
{
    for number in numbers {
        put_number(out, Some(*number))?;
    }
    Ok(())
}

/// Puts a comma, and a difference behind it if there is one: with a minus sign if it is below 0. If it is refused as
/// `Memory`, a part may have been put.
pub fn put_difference(out: &mut Vec<u8>, difference: Option<Difference>) -> Result<(), Memory>
    ensures { OnOk result (out.new.items ≡ out.old.items ++ difference_cell difference) }
{
    let Some(difference) = difference else {
        return put_number(out, None);
    };
    if !difference.below {
        return put_number(out, Some(difference.size));
    }
    let mut buffer = Buffer::new();
    out.extend_from_slice(b",-")?;
    out.extend_from_slice(buffer.format(difference.size).as_bytes())?;
    Ok(())
}

/// Puts a comma, and behind it how far a number changes, if there is a change. If it is refused as `Memory`, a part may
/// have been put.
pub fn put_change(out: &mut Vec<u8>, change: Option<Change>) -> Result<(), Memory>
    ensures { OnOk result (out.new.items ≡ out.old.items ++ change_cell change) }
{
    match change {
        None => put_difference(out, None),
        Some(change) => put_difference(out, Some(change.difference())),
    }
}

/// Puts three commas, with the least, the mean and the greatest of a spread behind them if there is one. If it is
/// refused as `Memory`, a part may have been put.
pub fn put_spread(out: &mut Vec<u8>, spread: Option<Spread>) -> Result<(), Memory>
    ensures { OnOk result (out.new.items ≡ out.old.items ++ spread_cells spread) }
{
    match spread {
        None => {
            put_number(out, None)?;
            put_number(out, None)?;
            put_number(out, None)
        }
        Some(spread) => {
            put_difference(out, Some(spread.least))?;
            put_difference(out, Some(spread.mean))?;
            put_difference(out, Some(spread.greatest))
        }
    }
}
