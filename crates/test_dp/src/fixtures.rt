//! Sheets and logs.
use buck_value::{Log, Sheet, SheetFault};
use fixture_samples::instruction_of;
use std::test::Fail;

/// The sheet of the base prices of a text's instruction.
pub fn base_of(rt: &HostRuntime, text: &str) -> Result<Sheet, Fail> {
    let instruction = instruction_of(rt.alloc(), text)?;
    Ok(Sheet::base(rt.alloc(), instruction)?)
}

/// The sheet of a text's instruction and these prices, of version 1, or why they are refused.
pub fn sheet_with(
    rt: &HostRuntime,
    text: &str,
    prices: &[u32],
) -> Result<Result<Sheet, SheetFault>, Fail> {
    let prices = prices.to_vec(rt.alloc())?;
    let instruction = instruction_of(rt.alloc(), text)?;
    Ok(Sheet::with_prices(instruction, 1, prices))
}

/// A log that starts so many mm from the butt, of a length in mm and an assortment.
pub fn log(start: u32, length: u32, assortment: u8) -> Log {
    Log {
        start,
        length,
        assortment,
    }
}
