//! Items and numbers.

use buck_record::{Item, RecordFault};
use std::alloc::Global;

/// `buck_record`: `items`, `numbers`, `number` and `wide`.
pub fn read(alloc: Global, bytes: &[u8]) -> Result<Vec<Item>, RecordFault> {
    let _numbers: Result<Vec<u32>, RecordFault> = buck_record::numbers(alloc, bytes);
    let _number: Result<u32, RecordFault> = buck_record::number(bytes);
    let _wide: Result<u64, RecordFault> = buck_record::wide(bytes);
    buck_record::items(alloc, bytes)
}
