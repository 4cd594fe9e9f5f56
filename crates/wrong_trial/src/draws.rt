//! Wrong bodies of orders that are drawn by chance.
ghost use Rattle.std.specs.Prelude.{◌≡◌, ◌≢◌, [], ◌∷◌, map};
ghost use Rattle.std.specs.Arc.{arc_value};

use buck_stem_shape::Stem;
use buckfleet_trial_draws::{Draws, below, order_from, shuffle, starts_of};
use rand_core::SeedableRng;
use rand_xoshiro::SplitMix64;
use std::alloc::Global;
use std::sync::Arc;

/// The number is the remainder of the next word: 535 of the first word of seed 0.
pub fn below_by_the_remainder() {
    let mut random = SplitMix64::seed_from_u64(0);
    let right = below(&mut random, 1000);
    let wrong = 535;
    prove!(right != wrong);
}

/// No element may keep its place, as in Sattolo's shuffle: of 1, 2, 3, 4 it begins with 2, from seed 0.
pub fn shuffle_leaves_nothing_in_its_place() {
    let mut random = SplitMix64::seed_from_u64(0);
    let mut list: [u8; 4] = [1, 2, 3, 4];
    shuffle(&mut random, &mut list);
    let right = list[0];
    let wrong = 2;
    prove!(right != wrong);
}

/// A stem is left out of an order.
pub fn order_loses_a_stem(alloc: Global, state: u64, lists: &[Vec<Arc<Stem>>], file: usize) {
    if let Ok(right) = order_from(alloc, state, lists) {
        if file < lists.len() && file < right.len() {
            let is_shorter = right[file].len() < lists[file].len();
            prove!(!is_shorter);
        }
    }
}

/// A stem is there twice, and another is lost.
pub fn order_repeats_a_stem(alloc: Global, lists: &[Vec<Arc<Stem>>], one: &Stem, other: &Stem)
    requires lists { map (λ l. map arc_value l.items) lists.now ≡ (one.now ∷ other.now ∷ []) ∷ [] }
    requires differ { one.now ≢ other.now }
{
    if let Ok(right) = order_from(alloc, 7, lists) {
        if right.len() == 1 && right[0].len() == 2 {
            let is_wrong = right[0][0].same(&right[0][1]);
            prove!(!is_wrong);
        }
    }
}

/// A stem is moved to the list of another file.
pub fn order_over_all_files_at_once(
    alloc: Global,
    state: u64,
    lists: &[Vec<Arc<Stem>>],
    one: &Stem,
    other: &Stem,
)
    requires lists { map (λ l. map arc_value l.items) lists.now ≡ (one.now ∷ []) ∷ (other.now ∷ []) ∷ [] }
    requires differ { one.now ≢ other.now }
{
    if let Ok(right) = order_from(alloc, state, lists) {
        if right.len() == 2 && right[0].len() == 1 {
            let is_wrong = right[0][0].same(other);
            prove!(!is_wrong);
        }
    }
}

/// Each draw begins at the seed, so that all orders are the same.
pub fn starts_all_at_the_seed(
    alloc: Global,
    lists: &[Vec<Arc<Stem>>],
    one: &Arc<Stem>,
    other: &Arc<Stem>,
)
    requires { map (λ l. l.items) lists.now ≡ (one.now ∷ other.now ∷ []) ∷ [] }
{
    if let Ok(starts) = starts_of(alloc, &Draws { number: 2, seed: 0 }, lists) {
        if starts.len() == 2 {
            let right = starts[1];
            let wrong = 0;
            prove!(right != wrong);
        }
    }
}
