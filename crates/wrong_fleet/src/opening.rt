//! Wrong bodies of new fleets.
ghost use Rattle.std.specs.Prelude.{◌≡◌};

use buck_apt_instruction::Instruction;
use buck_fleet::{Fleet, OpenFault, Seat};
use buck_rule::{Rule, Standing};
use std::alloc::Global;
use std::sync::ledger::{Blank, Ledger};
use std::sync::{Arc, Wait};

/// The capacity is looked at before the number of seats.
pub fn open_capacity_before_seats<F: Fn(&Standing) -> u64 + Drop, L: Ledger, R: Wait>(
    rt: &R,
    alloc: Global,
    blank: Blank,
    instruction: Arc<Instruction>,
    rule: Rule<F>,
) -> Option<(Fleet<F, L>, Vec<Seat<L>>)>
    requires blank { (blank.name ≡ L.name) × (blank.parts ≡ L.parts) × (blank.parts ≡ 64) }
{
    match Fleet::<F, L>::open(rt, alloc, blank, instruction, rule, 0, 0) {
        Ok(opened) => Some(opened),
        Err(right) => {
            let wrong = OpenFault::Capacity;
            prove!(right != wrong);
            None
        }
    }
}

/// Two seats are harvester 1's.
pub fn seat_all_one_harvester_twice<F: Fn(&Standing) -> u64 + Drop, L: Ledger, R: Wait>(
    rt: &R,
    alloc: Global,
    blank: Blank,
    instruction: Arc<Instruction>,
    rule: Rule<F>,
) -> Result<(Fleet<F, L>, Vec<Seat<L>>), OpenFault>
    requires blank { (blank.name ≡ L.name) × (blank.parts ≡ L.parts) × (blank.parts ≡ 64) }
{
    let opened = Fleet::<F, L>::open(rt, alloc, blank, instruction, rule, 3, 10)?;
    let right = opened.1[1].harvester();
    let wrong = 1;
    prove!(right != wrong);
    Ok(opened)
}

/// A fleet is opened whose history has room for nothing.
pub fn open_without_room<F: Fn(&Standing) -> u64 + Drop, L: Ledger, R: Wait>(
    rt: &R,
    alloc: Global,
    blank: Blank,
    instruction: Arc<Instruction>,
    rule: Rule<F>,
) -> Result<(Fleet<F, L>, Vec<Seat<L>>), OpenFault>
    requires blank { (blank.name ≡ L.name) × (blank.parts ≡ L.parts) × (blank.parts ≡ 64) }
{
    let opened = Fleet::<F, L>::open(rt, alloc, blank, instruction, rule, 1, 0);
    let right = opened.is_ok();
    let wrong = true;
    prove!(right != wrong);
    opened
}

/// A fleet is opened whose history has room for a posting too many.
pub fn open_with_room_for_one_more<F: Fn(&Standing) -> u64 + Drop, L: Ledger, R: Wait>(
    rt: &R,
    alloc: Global,
    blank: Blank,
    instruction: Arc<Instruction>,
    rule: Rule<F>,
) -> Result<(Fleet<F, L>, Vec<Seat<L>>), OpenFault>
    requires blank { (blank.name ≡ L.name) × (blank.parts ≡ L.parts) × (blank.parts ≡ 64) }
{
    let opened = Fleet::<F, L>::open(rt, alloc, blank, instruction, rule, 1, 1_000_001);
    let right = opened.is_ok();
    let wrong = true;
    prove!(right != wrong);
    opened
}
