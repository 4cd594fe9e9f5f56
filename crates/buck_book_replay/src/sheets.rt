//! The sheets of a journal's prices.
ghost use Rattle.std.specs.Prelude.{◌≡◌, ◌<◌, ◌≤◌, IfOk, IfNone, IfSome, length, map};
ghost use Rattle.buck_book_postings.specs.History.{prices_at, sheet_at};
ghost use Rattle.buck_book_replay.specs.inner.Sheets.{AreMade, IsMissing};

use buck_apt_instruction::Instruction;
use buck_record::Memory;
use buck_value::Sheet;
use std::alloc::Global;
use std::sync::Arc;

/// The prices of a version, if they are there.
pub(crate) fn prices_of<'a>(sheets: &'a [Vec<u32>], version: u32) -> Option<&'a [u32]>
    ensures there { IfSome result (λ prices. version < length sheets.now) }
    ensures prices { IfSome result (λ prices.
        prices.now ≡ prices_at (map (λ v. v.items) sheets.now) version) }
    ensures none { IfNone result (length sheets.now ≤ version) }
{
    let at = version as usize;
    if at >= sheets.len() {
        return None;
    }
    Some(sheets[at].as_slice())
}

/// The sheet of a version, if its prices are there and make one.
pub(crate) fn new_sheet(
    alloc: Global,
    instruction: &Arc<Instruction>,
    sheets: &[Vec<u32>],
    version: u32,
) -> Result<Option<Arc<Sheet>>, Memory>
    ensures sheet { IfOk result (λ o. IfSome o (λ s.
        s.value ≡ sheet_at instruction.now.value (map (λ v. v.items) sheets.now) version)) }
    ensures none { IfOk result (λ o. IfNone o
        (IsMissing instruction.now.value (map (λ v. v.items) sheets.now) version)) }
{
    let _valid = instruction.limit();
    let Some(prices) = prices_of(sheets, version) else {
        return Ok(None);
    };
    let prices = Vec::from_slice(alloc, prices)?;
    match Sheet::with_prices(instruction.clone()?, version, prices) {
        Ok(sheet) => Ok(Some(Arc::new(alloc, sheet)?)),
        Err(_) => Ok(None),
    }
}

/// The most sheets that are kept while a journal is replayed.
const KEPT: u32 = 65_536;

/// The sheets of the first versions, in order, up to one whose prices make none, and at most 65,536 of them.
pub(crate) fn first_sheets(
    alloc: Global,
    instruction: &Arc<Instruction>,
    sheets: &[Vec<u32>],
) -> Result<Vec<Arc<Sheet>>, Memory>
    ensures { IfOk result (λ made.
        AreMade instruction.now.value (map (λ v. v.items) sheets.now) (map (λ a. a.value) made.items)) }
{
    // Later sheets are made when they are met: all of them could take more memory than the journal.
    let mut made = Vec::new(alloc);
    for version in 0..KEPT {
        let Some(sheet) = new_sheet(alloc, instruction, sheets, version)? else {
            return Ok(made);
        };
        made.push(sheet)?;
    }
    Ok(made)
}
