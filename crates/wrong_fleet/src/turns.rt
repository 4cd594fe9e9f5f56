//! Wrong bodies of harvesters that take turns.
ghost use Rattle.std.specs.Prelude.{◌≤◌, length};
ghost use Rattle.buck_rule.specs.Stored.{Answers};

use buck_apt_instruction::Instruction;
use buck_book_postings::{CutFault, Posting};
use buck_fleet_round_robin::cut_in_turn;
use buck_rule::{Rule, Standing};
use buck_stem_shape::Stem;
use std::alloc::Global;
use std::sync::Arc;

/// In a round the harvester of the higher number comes first.
pub fn round_turned_around<F: Fn(&Standing) -> u64 + Drop>(
    alloc: Global,
    instruction: Arc<Instruction>,
    rule: Rule<F>,
    lists: &[Vec<Arc<Stem>>],
) -> Result<(), CutFault>
    requires answers { Answers F.Fn rule }
    requires few { length lists.now ≤ 64 }
{
    let book = cut_in_turn(alloc, instruction, rule, lists)?;
    match book.entries() {
        [Posting::Cut(first), Posting::Cut(second)] => {
            if first.number == second.number {
                let right = first.harvester < second.harvester;
                let wrong = false;
                prove!(right != wrong);
            }
        }
        _ => {}
    }
    Ok(())
}

/// A harvester cuts its whole list before the next one begins.
pub fn list_after_list<F: Fn(&Standing) -> u64 + Drop>(
    alloc: Global,
    instruction: Arc<Instruction>,
    rule: Rule<F>,
    lists: &[Vec<Arc<Stem>>],
) -> Result<(), CutFault>
    requires answers { Answers F.Fn rule }
    requires few { length lists.now ≤ 64 }
{
    let book = cut_in_turn(alloc, instruction, rule, lists)?;
    match book.entries() {
        [_, Posting::Cut(second), Posting::Cut(third)] => {
            let right = second.number <= third.number;
            let wrong = false;
            prove!(right != wrong);
        }
        _ => {}
    }
    Ok(())
}

/// Stems are too many if there is none.
pub fn full_at_once<F: Fn(&Standing) -> u64 + Drop>(
    alloc: Global,
    instruction: Arc<Instruction>,
    rule: Rule<F>,
)
    requires answers { Answers F.Fn rule }
{
    let right = cut_in_turn(alloc, instruction, rule, &[]);
    let is_full = matches!(right, Err(CutFault::Full));
    prove!(!is_full);
}
