//! The writer of answers.
ghost use Rattle.std.specs.Prelude.{◌≡◌};

use buck_apt_instruction::Instruction;
use buckfleet_engine_files::EngineFault;
use std::io;

/// A writer of answers. It hears of each line and of its answer before that is written to it, and may say elsewhere, as
/// on standard error, what was wrong.
pub trait Replies: io::Write {
    /// The next line is answered: its bytes, as many as a line may have, and whether it has no more; the instruction
    /// of the history; and the answer, a text or the fault whose line is answered. A line without an item has an empty
    /// one. Nothing is written here by it.
    fn hear(
        &mut self,
        line: &[u8],
        fits: bool,
        instruction: &Instruction,
        answer: &Result<Vec<u8>, EngineFault>,
    )
        ensures { Self.contents self.new ≡ Self.contents self.old };
}

/// Answers in memory, of which nobody hears before.
impl Replies for Vec<u8> {
    fn hear(
        &mut self,
        _line: &[u8],
        _fits: bool,
        _instruction: &Instruction,
        _answer: &Result<Vec<u8>, EngineFault>,
    ) {}
}
