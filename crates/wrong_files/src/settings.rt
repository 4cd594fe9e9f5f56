//! Wrong answers about numbers that a run puts in the place of an instruction's own.
ghost use Rattle.std.specs.Prelude.{◌≡◌, ◌≢◌};

use buck_apt_instruction::{Instruction, Settings};

/// A period one longer than the longest is taken.
pub fn period_1001_taken() {
    let settings = Settings::of(Some(1_001), None);
    let right = settings.is_some();
    let wrong = true;
    prove!(right != wrong);
}

/// The instruction keeps its own period.
pub fn settings_left_out(instruction: Instruction, wrong: u32)
    requires own { wrong ≡ instruction.period }
    requires differ { instruction.period ≢ 7 }
{
    if let Some(settings) = Settings::of(Some(7), None) {
        let right = instruction.with(&settings).period();
        prove!(right != wrong);
    }
}
