//! A stem file that has items of no slot, read in parts: in whatever number of threads, all its stems are found. That they
//! are those of the file, the contract says.
use buck_stem::read_stm_in_parts;
use std::alloc::{AllocError, Global};
use std::test::Fail;
use std::thread::Threads;

/// A file of so many stems, each of some 1,630 bytes and with an item of no slot.
fn file_of(alloc: Global, count: u32) -> Result<String, AllocError> {
    let samples = " 250".repeat(alloc, 400)?;
    let mut file = String::from_str(alloc, "1 2 STM~\n")?;
    for _ in 0..count {
        file.push_str("951 1 7~3 1~952 1 1~953 1")?;
        file.push_str(samples.as_str())?;
        file.push_str("~954 1 7 2~\n")?;
    }
    Ok(file)
}

/// Whether so many stems are found in whatever number of threads.
fn has_stems<T: Threads + Sync>(
    rt: &T,
    alloc: Global,
    file: &[u8],
    count: usize,
) -> Result<bool, Fail> {
    for threads in 0..10 {
        if read_stm_in_parts(rt, alloc, file, threads)?.len() != count {
            return Ok(false);
        }
    }
    Ok(true)
}

/// A file that is long enough for nine parts.
#[test]
fn skipped_items_in_nine_parts(rt: HostRuntime) -> Result<(), Fail> {
    let file = file_of(rt.alloc(), 380)?;
    assert!(rt; has_stems(&rt, rt.alloc(), file.as_bytes(), 380)?);
    Ok(())
}
