//! Numbers that are drawn, and lists in an order that is drawn.
ghost use Rattle.std.specs.Prelude.{◌≡◌, ◌<◌, IsPermutation, length};
ghost use Rattle.rand_xoshiro.specs.SplitMix64.{next_state};
ghost use Rattle.buckfleet_trial_draws.specs.Draws.{drawn_below, shuffled, state_after};

use rand_core::utils::NextWord;
use rand_xoshiro::SplitMix64;

/// A number below a limit: the high half of the product of the limit and the next word of the generator.
pub fn below(random: &mut SplitMix64, limit: u64) -> u64
    requires some { 0 < limit }
    ensures number { result ≡ drawn_below limit random.old }
    ensures low { result < limit }
    ensures state { random.new ≡ next_state random.old }
{
    let word: u64 = random.next_word();
    let product = u128::from(word) * u128::from(limit);
    (product >> 64) as u64
}

/// Puts a list into an order that is drawn (Fisher and Yates): from the last place down to the second, what stands
/// there changes places with what stands at a place that is drawn, at it or before it.
pub fn shuffle<T>(random: &mut SplitMix64, list: &mut [T])
    ensures shuffled { list.new ≡ shuffled random.old list.old }
    ensures state { random.new ≡ state_after (length list.old) random.old }
    ensures permutation { IsPermutation list.old list.new }
{
    for after in 1..list.len() {
        let last = list.len() - after;
        let place = below(random, last as u64 + 1);
        list.swap(last, place as usize);
    }
}
