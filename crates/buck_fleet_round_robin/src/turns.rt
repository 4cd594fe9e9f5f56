//! From lists of stems to the book in which they were cut in turn.
ghost use Rattle.std.specs.Prelude.{◌≡◌, ◌+◌, ◌<◌, ◌≤◌, length, All, IfOk, IfErr, OnOk};
ghost use Rattle.buck_rule.specs.Stored.{Answers};
ghost use Rattle.buck_book_postings.specs.declared.ready.CutFault.TheVariants.{Full};
ghost use Rattle.buck_book_postings.specs.Pricing.{AreSheetsBy};
ghost use Rattle.buck_fleet_round_robin.specs.Turn.{HasCutInTurn, stems_in_all};

use buck_apt_instruction::Instruction;
use buck_book_cutter::Cutter;
use buck_book_postings::{Book, CutFault, MOST_POSTINGS};
use buck_rule::{Rule, Standing};
use buck_stem_shape::Stem;
use std::alloc::Global;
use std::sync::Arc;

/// How long the longest list is.
fn longest(lists: &[Vec<Arc<Stem>>]) -> usize
    ensures { All (λ list. length list.items ≤ result) lists.now }
{
    let mut most = 0usize;
    for list in lists {
        most = most.max(list.len());
    }
    most
}

/// Cuts lists of stems in turn: in each round harvester k cuts the next stem of the k-th list, under the sheet that is
/// then in force; a harvester with none left is skipped. Two runs over the same lists give the same history, and
/// nothing waits. 1 to 64 lists are a fleet; none gives a book with no posting. The prices of each sheet after the
/// first are the rule's answers. Refused as `Full` exactly if there are more stems than 1,000,000, and as `Memory` if
/// an allocation failed.
pub fn cut_in_turn<F: Fn(&Standing) -> u64 + Drop>(
    alloc: Global,
    instruction: Arc<Instruction>,
    rule: Rule<F>,
    lists: &[Vec<Arc<Stem>>],
) -> Result<Book<F>, CutFault>
    requires answers { Answers F.Fn rule }
    requires few { length lists.now ≤ 64 }
    ensures instruction { IfOk result (λ b. b.history.instruction ≡ instruction.value) }
    ensures cut { IfOk result (λ b. HasCutInTurn lists.now b.history) }
    ensures number { IfOk result (λ b. length b.history.postings ≡ stems_in_all lists.now) }
    ensures given { IfOk result (λ b. AreSheetsBy F.Fn rule b.history) }
    ensures full { IfErr result (λ fault. fault ≡ Full → MOST_POSTINGS < stems_in_all lists.now) }
{
    let mut cutter = Cutter::open(alloc, instruction, rule, MOST_POSTINGS)?;
    for round in 0..longest(lists) {
        for place in 0..lists.len() {
            let list = &lists[place];
            if round >= list.len() {
                continue;
            }
            let _ = cutter.cut(alloc, list[round].clone()?, place as u32 + 1)?;
        }
    }
    Ok(cutter.into_book())
}
