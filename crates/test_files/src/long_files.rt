//! Long files, of so many bytes that a pass over all of them for each, or a call within a call for each, would not end.
use buck_record::{items, numbers};
use std::alloc::Global;
use std::test::Fail;

const LONG: usize = 262144;

/// Whether a file of so many like parts has so many items.
fn has_items(alloc: Global, part: &[u8], times: usize, count: usize) -> Result<bool, Fail> {
    let file = part.repeat(alloc, times)?;
    Ok(items(alloc, file.as_slice())?.len() == count)
}

/// Whether a text of so many like parts has so many numbers.
fn has_numbers(alloc: Global, part: &[u8], times: usize, count: usize) -> Result<bool, Fail> {
    let text = part.repeat(alloc, times)?;
    Ok(numbers(alloc, text.as_slice())?.len() == count)
}

#[test]
fn long_files(rt: HostRuntime) -> Result<(), Fail> {
    assert!(rt; has_items(rt.alloc(), b" ", LONG, 0)?);
    assert!(rt; has_items(rt.alloc(), b"1 2~", LONG / 4, LONG / 4)?);
    assert!(rt; has_numbers(rt.alloc(), b" ", LONG, 0)?);
    Ok(())
}
