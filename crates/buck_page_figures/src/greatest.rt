//! The first of the greatest of some numbers.
ghost use Rattle.std.specs.Prelude.{◌≡◌, ℕ, [], ◌∷◌, ◌++◌, List, length};
ghost use Rattle.buck_page_figures.specs.inner.Greatest.{IsGreatest};

/// The first of the greatest of some numbers.
#[derive(Clone, Copy)]
pub struct Greatest {
    /// Its index among the numbers, from 0; none if all are 0.
    pub at: Option<usize>,
    size: u128,
}

impl Greatest {
    /// Of no numbers.
    pub(crate) fn none() -> Greatest
        ensures { IsGreatest [] result }
    {
        Greatest { at: None, size: 0 }
    }

    /// With one more number, which stands at a place.
    pub(crate) fn with(self, at: usize, size: u128) -> Greatest
        ensures { (ns : List ℕ) → length ns ≡ at → IsGreatest ns self → IsGreatest (ns ++ size ∷ []) result }
    {
        if size > self.size {
            Greatest { at: Some(at), size }
        } else {
            self
        }
    }
}
