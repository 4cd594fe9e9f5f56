//! Laws of shuffles.
ghost use Rattle.std.specs.Prelude.{IsPermutation};
ghost use Rattle.buckfleet_trial_draws.specs.Draws.{shuffled};

/// A shuffle loses nothing and makes nothing: it has each element as often as the list.
#[tactic(auto, using(crate::proofs::Permuted::is_permutation))]
pub fn a_shuffle_is_a_permutation<T>(list: &[T], state: u64)
    ensures { IsPermutation list.now (shuffled state list.now) }
{}
