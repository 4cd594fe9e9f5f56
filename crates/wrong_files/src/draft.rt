//! Wrong answers about the instruction of a draft.
ghost use Rattle.std.specs.Prelude.{◌≢◌, slice_index};
ghost use Rattle.buck_apt_instruction.specs.Draft.{IsReadyFile};

use buck_apt_instruction::{FileDraft, Instruction};
use std::alloc::Global;

/// The draft's period becomes the limit.
pub fn limit_of_the_period(alloc: Global, file: FileDraft, wrong: u32)
    requires ready { IsReadyFile file }
    requires differ { wrong ≢ slice_index file.limit 0 }
{
    if let Ok(instruction) = Instruction::of(alloc, file) {
        let right = instruction.limit();
        prove!(right != wrong);
    }
}
