//! A search over all short runs.
use crate::fixtures::*;
use crate::plain::{Plain, does, opened};
use crate::playing::{Event, plays};
use std::test::Fail;

/// What harvesters do in a search.
const ACTS: [Act; 8] = [
    Act::Read(0),
    Act::Read(1),
    Act::Plan,
    Act::Try,
    Act::Locked,
    Act::Raise,
    Act::Retarget,
    Act::Leave,
];

/// The opening of the plain world, how many letters there are, how many events a run has at most, 25 to that power, and how
/// many runs of so many events there are.
type Search = ((u32, u32, u32), usize, usize, u64, usize);

/// Two harvesters up to seven events, three up to five, and two with all letters up to five.
const SEARCHES: [Search; 3] = [
    ((2, 3, 1), 18, 7, 6_103_515_625, 1_690),
    ((3, 2, 1), 18, 5, 9_765_625, 2_307),
    ((2, 3, 2), 24, 5, 9_765_625, 6_132),
];

/// A run, and then each letter that isn't allowed after it; how many events the run has, and how many are filled in.
type Run = ([Event; 32], usize, usize);

/// A letter, counted from 0: an act, and which of three harvesters does it.
fn letter(at: usize) -> Do {
    match ACTS.get(at / 3) {
        Some(act) => Do(*act, (at % 3) as u32 + 1),
        None => Do(Act::Leave, 0),
    }
}

/// A run of so many events, with each letter that the plain table refuses after it.
fn with_refused(run: [Event; 32], count: usize, plain: Plain, letters: usize) -> Run {
    let mut run = run;
    let mut filled = count;
    for at in 0..24usize {
        let mut after = plain;
        let told = does(&mut after, letter(at));
        if at < letters && told != OK && filled < 32 {
            run[filled] = (letter(at), told);
            filled += 1;
        }
    }
    (run, count, filled)
}

/// The run that a number of up to seven digits to the base 25 names, if the plain table allows it: each digit is a letter,
/// counted from 1, and 0 ends the run. And how many numbers from this one on need not be looked at with it.
fn run_of(search: Search, number: u64) -> (Option<Run>, u64) {
    let mut run = [(Do(Act::Leave, 0), NO); 32];
    let mut plain = opened(search.0);
    let mut like = search.3;
    for i in 0..7usize {
        like /= 25;
        let digit = (number.checked_div(like).unwrap_or(0) % 25) as usize;
        if digit == 0 {
            return (Some(with_refused(run, i, plain, search.1)), like.max(1));
        }
        let what = letter(digit - 1);
        if digit > search.1 || does(&mut plain, what) != OK {
            return (None, like);
        }
        run[i] = (what, OK);
    }
    (Some(with_refused(run, 7, plain, search.1)), 1)
}

/// Whether a run is right.
fn is_right(rt: &HostRuntime, kit: &Kit, opening: Plain, run: &Run) -> Result<bool, Fail> {
    let events = run.0.as_slice().get(..run.2).unwrap_or(&[]);
    plays(rt, kit, opening, events, &mut false)
}

/// How many runs there are of full length, if all are right, and else 0.
fn runs_in(rt: &HostRuntime, search: Search) -> Result<usize, Fail> {
    let opening = opened(search.0);
    let kit = kit_of(rt, opening.period)?;
    let mut runs: usize = 0;
    let mut number = 0;
    for _ in 0..1_000_000 {
        let (found, like) = run_of(search, number);
        if let Some(run) = found {
            if !is_right(rt, &kit, opening, &run)? {
                return Ok(0);
            }
            runs = runs.saturating_add((run.1 == search.2) as usize);
        }
        number = number.saturating_add(like);
        if number >= search.3 {
            return Ok(runs);
        }
    }
    Ok(0)
}

#[test]
fn all_runs(rt: HostRuntime) -> Result<(), Fail> {
    for search in SEARCHES {
        assert_eq!(rt; runs_in(&rt, search)?, search.4);
    }
    Ok(())
}
