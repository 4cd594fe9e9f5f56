//! Wrong bodies of how a fleet is closed. No caller can make the lists that the seats kept, so each of these looks at
//! the lists that were handed out, if they differ from the history in the way that the wrong body gets wrong.
ghost use Rattle.std.specs.Prelude.{◌≡◌, ◌≢◌, ◌<◌, ◌≤◌, IsTrue, length};
ghost use Rattle.buck_book_postings.specs.Posting.{harvester_of};
ghost use Rattle.buck_fleet.specs.Crew.{IsCrew, parts_of};
ghost use Rattle.buck_fleet.specs.Closed.{kept_by};
ghost use Rattle.buck_book_postings.specs.Replies.{replies_of};

use buck_apt_instruction::Instruction;
use buck_book_postings::Posting;
use buck_fleet::{CloseFault, Closed, Fleet, Seat};
use std::sync::ledger::Ledger;

/// Whose posting it is.
fn harvester_of(posting: &Posting) -> u32
    ensures { result ≡ harvester_of posting.now }
{
    match posting {
        Posting::Cut(entry) => entry.harvester,
        Posting::Demand(demand) => demand.harvester,
    }
}

/// Whether harvester 1 kept something, and the one posting is harvester 2's.
fn is_first_unlike(closed: &Closed) -> bool
    ensures { IsTrue result → kept_by 1 closed.now ≢ replies_of 1 closed.now.history }
{
    let entries = closed.entries();
    let kept = closed.kept();
    if entries.len() != 1 {
        return false;
    }
    if kept.len() == 0 {
        return false;
    }
    if harvester_of(&entries[0]) != 2 {
        return false;
    }
    kept[0].len() > 0
}

/// Whether harvester 1 kept position 0 for the second of two postings, the first of which is harvester 2's.
fn is_first_one_off(closed: &Closed) -> bool
    ensures { IsTrue result → kept_by 1 closed.now ≢ replies_of 1 closed.now.history }
{
    let entries = closed.entries();
    let kept = closed.kept();
    if entries.len() != 2 {
        return false;
    }
    if kept.len() == 0 {
        return false;
    }
    if harvester_of(&entries[0]) != 2 {
        return false;
    }
    if harvester_of(&entries[1]) != 1 {
        return false;
    }
    if kept[0].len() == 0 {
        return false;
    }
    kept[0][0].position == 0
}

/// Of two harvesters whose lists and postings differ the higher one is reported.
pub fn close_highest_harvester_told<F: Drop, L: Ledger>(
    fleet: Fleet<F, L>,
    seats: Vec<Seat<L>>,
) -> Closed
    requires crew { IsCrew fleet.seats seats.items }
    requires parts { parts_of seats.items ≡ L.parts }
{
    match fleet.close(seats) {
        Ok(closed) => closed,
        Err((fault, closed)) => {
            if is_first_unlike(&closed) {
                if let CloseFault::Calls {
                    harvester,
                    number: _,
                } = fault
                {
                    let right = harvester;
                    let wrong = 2;
                    prove!(right != wrong);
                }
            }
            closed
        }
    }
}

/// A reply that is kept past the last posting isn't seen, and the fleet closes well.
pub fn close_last_reply_left_out<F: Drop, L: Ledger>(
    fleet: Fleet<F, L>,
    seats: Vec<Seat<L>>,
) -> Closed
    requires crew { IsCrew fleet.seats seats.items }
    requires parts { parts_of seats.items ≡ L.parts }
    requires some { 0 < fleet.seats }
{
    match fleet.close(seats) {
        Ok(closed) => {
            let right = is_first_unlike(&closed);
            let wrong = true;
            prove!(right != wrong);
            closed
        }
        Err((_, closed)) => closed,
    }
}

/// A fleet closes well whose seat kept the position before its posting's.
pub fn close_one_position_off<F: Drop, L: Ledger>(fleet: Fleet<F, L>, seats: Vec<Seat<L>>) -> Closed
    requires crew { IsCrew fleet.seats seats.items }
    requires parts { parts_of seats.items ≡ L.parts }
    requires some { 0 < fleet.seats }
{
    match fleet.close(seats) {
        Ok(closed) => {
            let right = is_first_one_off(&closed);
            let wrong = true;
            prove!(right != wrong);
            closed
        }
        Err((_, closed)) => closed,
    }
}

/// Different calls are reported, though none differ: of one harvester, with no posting and nothing kept.
pub fn close_tells_calls_for_instruction<F: Drop, L: Ledger>(
    fleet: Fleet<F, L>,
    seats: Vec<Seat<L>>,
) -> Closed
    requires crew { IsCrew fleet.seats seats.items }
    requires parts { parts_of seats.items ≡ L.parts }
    requires some { 0 < fleet.seats }
{
    match fleet.close(seats) {
        Ok(closed) => closed,
        Err((right, closed)) => {
            if closed.entries().is_empty() && closed.kept()[0].is_empty() {
                let wrong = CloseFault::Calls {
                    harvester: 1,
                    number: 1,
                };
                prove!(right != wrong);
            }
            closed
        }
    }
}

/// Different calls are reported of a history of another instruction.
pub fn close_tells_calls_of_another_instruction<F: Drop, L: Ledger>(
    fleet: Fleet<F, L>,
    seats: Vec<Seat<L>>,
    instruction: &Instruction,
) -> Closed
    requires crew { IsCrew fleet.seats seats.items }
    requires parts { parts_of seats.items ≡ L.parts }
    requires instruction { fleet.instruction ≡ instruction.now }
{
    match fleet.close(seats) {
        Ok(closed) => closed,
        Err((fault, closed)) => {
            if let CloseFault::Calls { .. } = fault {
                let right = closed.instruction().same(instruction);
                let wrong = false;
                prove!(right != wrong);
            }
            closed
        }
    }
}

/// All lists are put in harvester 1's place, so that no other has one.
pub fn collect_in_another_place<F: Drop, L: Ledger>(
    fleet: Fleet<F, L>,
    seats: Vec<Seat<L>>,
) -> Closed
    requires crew { IsCrew fleet.seats seats.items }
    requires parts { parts_of seats.items ≡ L.parts }
    requires two { 1 < length seats.items }
{
    let harvester = seats[1].harvester();
    let kept = seats[1].kept().len();
    match fleet.close(seats) {
        Ok(closed) => {
            if harvester == 2 && kept > 0 {
                let right = closed.kept()[1].len();
                let wrong = 0;
                prove!(right != wrong);
            }
            closed
        }
        Err((_, closed)) => closed,
    }
}
