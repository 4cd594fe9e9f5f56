//! Orders of stem lists, draw by draw.
ghost use Rattle.std.specs.Prelude.{◌≡◌, IfOk, length, map};
ghost use Rattle.std.specs.Arc.{arc_value};
ghost use Rattle.buckfleet_trial_draws.specs.Draws.{order_of, shuffled, starts_from, state_after, state_behind};

use crate::drawn::{below, shuffle};
use buck_record::Memory;
use buck_stem_shape::Stem;
use rand_core::SeedableRng;
use rand_xoshiro::SplitMix64;
use std::alloc::Global;
use std::sync::Arc;

/// How many orders are drawn, and from which seed.
#[derive(Clone, Copy, Debug, PartialEq, Eq)]
pub struct Draws {
    /// Number of orders, 1 to 1,000 as the command line takes it.
    pub number: u16,
    /// State of the generator before the first draw; any number.
    pub seed: u64,
}

/// The stems of a list in an order that is drawn.
fn shuffled(
    alloc: Global,
    random: &mut SplitMix64,
    list: &[Arc<Stem>],
) -> Result<Vec<Arc<Stem>>, Memory>
    ensures order { IfOk result (λ order. map arc_value order.items ≡ shuffled random.old (map arc_value list.now)) }
    ensures state { IfOk result (λ _. random.new ≡ state_after (length list.now) random.old) }
{
    let mut order = Vec::with_capacity(alloc, list.len())?;
    for stem in list {
        order.push(stem.clone()?)?;
    }
    shuffle(random, order.as_mut_slice());
    Ok(order)
}

/// The order of a draw that begins at a state: the stems of each list shuffled, list after list. They are shared with
/// the lists. Refused as `Memory` alone.
pub fn order_from(
    alloc: Global,
    state: u64,
    lists: &[Vec<Arc<Stem>>],
) -> Result<Vec<Vec<Arc<Stem>>>, Memory>
    ensures { IfOk result (λ order.
        map (λ list. map arc_value list.items) order.items
        ≡ order_of state (map (λ list. map arc_value list.items) lists.now)) }
{
    let mut random = SplitMix64::seed_from_u64(state);
    let mut order = Vec::with_capacity(alloc, lists.len())?;
    for list in lists {
        order.push(shuffled(alloc, &mut random, list.as_slice())?)?;
    }
    Ok(order)
}

/// Draws as many numbers as a shuffle of so many does.
fn pass(random: &mut SplitMix64, number: usize)
    ensures { random.new ≡ state_after number random.old }
{
    for after in 1..number {
        let last = number - after;
        let _ = below(random, last as u64 + 1);
    }
}

/// Draws as many numbers as a draw over these lists does.
fn pass_all(random: &mut SplitMix64, lists: &[Vec<Arc<Stem>>])
    ensures { random.new ≡ state_behind random.old (map (λ list. list.items) lists.now) }
{
    for list in lists {
        pass(random, list.len());
    }
}

/// The states at which the draws begin: the first is the seed, and each other one is that at which the draw before it
/// ended. Refused as `Memory` alone.
pub fn starts_of(alloc: Global, draws: &Draws, lists: &[Vec<Arc<Stem>>]) -> Result<Vec<u64>, Memory>
    ensures { IfOk result (λ starts.
        starts.items ≡ starts_from draws.now.number draws.now.seed (map (λ list. list.items) lists.now)) }
{
    let mut random = SplitMix64::seed_from_u64(draws.seed);
    let mut starts = Vec::new(alloc);
    for _ in 0..draws.number {
        starts.push(u64::from_le_bytes(random.state()))?;
        pass_all(&mut random, lists);
    }
    Ok(starts)
}
