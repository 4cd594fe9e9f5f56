//! Harvesters that take turns, with lists of several lengths.
use buck_book_postings::Posting;
use buck_fleet_round_robin::cut_in_turn;
use buck_rule::{Rule, Standing, step};
use buck_stem_shape::Stem;
use fixture_plays::fixtures::list_of;
use fixture_samples::saw_instruction;
use std::alloc::Global;
use std::sync::Arc;
use std::test::Fail;

/// The harvester and the number of each cut, and the sheet that it was cut under: three stems, one, none and two.
const TURNS: [(u32, u32, u32); 6] = [
    (1, 1, 0),
    (2, 1, 0),
    (4, 1, 1),
    (1, 2, 1),
    (4, 2, 2),
    (1, 3, 2),
];

/// Whether a posting is this cut.
fn is_turn(posting: &Posting, turn: (u32, u32, u32)) -> bool {
    match posting {
        Posting::Cut(entry) => (entry.harvester, entry.number, entry.version) == turn,
        Posting::Demand(_) => false,
    }
}

/// Whether these are the cuts of a book.
fn are_turns(postings: &[Posting]) -> bool {
    for (posting, turn) in postings.iter().zip(TURNS.iter()) {
        if !is_turn(posting, *turn) {
            return false;
        }
    }
    postings.len() == TURNS.len()
}

/// Lists of stems: three, one, none and two.
fn lists(alloc: Global) -> Result<Vec<Vec<Arc<Stem>>>, Fail> {
    let mut lists = Vec::new(alloc);
    for number in [3, 1, 0, 2] {
        lists.push(list_of(alloc, number, 41)?)?;
    }
    Ok(lists)
}

/// Whether they are cut in turn, in periods of two stems.
fn are_cut_in_turn(alloc: Global) -> Result<bool, Fail> {
    let lists = lists(alloc)?;
    if lists.len() > 64 {
        return Err(Fail::new("more than 64 lists"));
    }
    let instruction = saw_instruction(alloc, 2, 500, "1 1 1 1")?;
    let rule = Rule::new(|s: &Standing| step(s));
    let book = cut_in_turn(alloc, instruction, rule, lists.as_slice())?;
    Ok(are_turns(book.entries()))
}

#[test]
fn refused_memory_of_turns(rt: HostRuntime) -> Result<(), Fail> {
    assert!(rt; are_cut_in_turn(rt.alloc())?);
    Ok(())
}
