//! Wrong bodies of the reader of a file of targets.
#![tactic(auto, unfolding(buck_record::specs::bytes::Record::numbers_of, buck_record::specs::bytes::Record::number_at_most, buck_record::specs::bytes::Record::item_of, buck_record::specs::bytes::Record::items_of, buck_record::specs::bytes::White::words, buck_record::specs::bytes::White::first_word, buck_record::specs::bytes::White::after_word, buck_record::specs::bytes::White::trim_start, buck_record::specs::bytes::White::trim_end, buck_record::specs::Reading::each_from, buckfleet_terms_files::specs::Targets::lists_from, buckfleet_terms_files::specs::Targets::lists_of, buckfleet_terms_files::specs::Targets::all_of))]

ghost use Rattle.buck_book_postings.specs.Targets.{IsLowSumAt};

use buck_apt_instruction::Instruction;
use buckfleet_terms_files::{TargetsFault, all_numbers, targets_in};
use std::alloc::Global;

/// Targets of the first assortment that are together above 1,000,000,000 are accepted.
pub fn targets_too_many_accepted(
    alloc: Global,
    bytes: &[u8],
    instruction: &Instruction,
    wrong: &[u32],
)
    requires many { IsLowSumAt instruction.now wrong.now 0 → ⊥ }
{
    let _number = instruction.assortments().len();
    if let Ok(right) = targets_in(alloc, bytes, instruction) {
        prove!(right.as_slice() != wrong);
    }
}

/// A target above 1,000,000 is accepted.
pub fn target_too_great_accepted(
    alloc: Global,
    bytes: &[u8],
    instruction: &Instruction,
    class: usize,
) {
    if let Ok(right) = targets_in(alloc, bytes, instruction) {
        if class < right.len() {
            let target = right[class];
            let is_wrong = target > 1_000_000;
            prove!(!is_wrong);
        }
    }
}

/// A file with a number that is left over is accepted.
pub fn targets_left_over_accepted(alloc: Global, bytes: &[u8], instruction: &Instruction) {
    if let Ok(right) = targets_in(alloc, bytes, instruction) {
        let right = right.len();
        let wrong = instruction.classes() + 1;
        prove!(right != wrong);
    }
}

/// The list of the second assortment is taken for that of the first.
pub fn lists_from_the_last(alloc: Global, instruction: &Instruction) {
    if let Ok(right) = targets_in(alloc, b"918 1 1~918 1 2~", instruction) {
        let wrong = [2, 1];
        prove!(right.as_slice() != wrong.as_slice());
    }
}

/// A number is refused as a target that is too great, though any are asked for.
pub fn any_number_refused(alloc: Global) {
    let right = all_numbers(alloc, b"918 1 4000000000~");
    let wrong = Err(TargetsFault::Range { at: 0 });
    prove!(right != wrong);
}
