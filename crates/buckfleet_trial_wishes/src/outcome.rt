//! What a run came to.
ghost use Rattle.std.specs.Prelude.{◌≡◌, ◌<◌, ◌^◌, None, slice_index_or};

/// What a run came to: what was cut is worth at base prices, the degree of each assortment by the targets as they were,
/// and the least of these that are there.
#[derive(Drop)]
pub(crate) struct Outcome {
    pub at_base: u128,
    pub degrees: Vec<Option<u32>>,
    pub least: Option<u32>,
    ghost low: { at_base < 2 ^ 84 },
}

impl Outcome {
    /// The degree of the assortment at a place.
    pub(crate) fn degree(&self, at: usize) -> Option<u32>
        ensures { result ≡ slice_index_or self.now.degrees.items at None }
    {
        match self.degrees.get(at) {
            Some(degree) => *degree,
            None => None,
        }
    }
}

/// The runs of an instruction: in the files' own order, and in those of the draws.
#[derive(Drop)]
pub(crate) struct Runs {
    pub own: Outcome,
    pub drawn: Vec<Outcome>,
}
