//! What a run brings.
ghost use Rattle.std.specs.Prelude.{◌<◌, ◌^◌};

/// What a run brings under an owner's instruction.
#[derive(Clone, Copy)]
pub(crate) struct OwnRun {
    /// In millionths of the price unit.
    pub worth: u128,
    /// Worth of the best cuttings of its stems, in the same unit.
    pub best: u128,
    /// How many logs aren't bought.
    pub unbought: u64,
    ghost low: { best < 2 ^ 100 },
}
