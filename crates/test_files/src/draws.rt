//! What a seed gives.
use buckfleet_trial_draws::{below, shuffle};
use rand_core::SeedableRng;
use rand_core::utils::NextWord;
use rand_xoshiro::SplitMix64;
use std::rt::HostRuntime;

#[test]
fn the_first_numbers_of_a_seed(rt: HostRuntime) {
    let mut random = SplitMix64::seed_from_u64(0);
    let first: u64 = random.next_word();
    let second: u64 = random.next_word();
    assert!(rt; first == 0xe220_a839_7b1d_cdaf);
    assert!(rt; second == 0x6e78_9e6a_a1b9_65f4);
}

#[test]
fn numbers_below_a_limit(rt: HostRuntime) {
    let mut random = SplitMix64::seed_from_u64(7);
    assert!(rt; below(&mut random, 1) == 0);
    assert!(rt; below(&mut random, 2) == 0);
    assert!(rt; below(&mut random, 10) == 9);
    assert!(rt; below(&mut random, 1000) == 582);
}

#[test]
fn a_list_in_an_order_that_is_drawn(rt: HostRuntime) {
    let mut random = SplitMix64::seed_from_u64(7);
    let mut list: [u8; 10] = [0, 1, 2, 3, 4, 5, 6, 7, 8, 9];
    shuffle(&mut random, &mut list);
    assert!(rt; list == [9, 5, 8, 6, 1, 2, 4, 7, 0, 3]);
}
