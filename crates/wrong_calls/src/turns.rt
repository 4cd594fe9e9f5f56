//! Wrong answers of harvesters in turn.
ghost use Rattle.std.specs.Prelude.{◌≡◌, ◌≢◌, ◌++◌, ℕ, List, length, sum};
ghost use Rattle.buck_rule.specs.declared.named.NamedRule.TheVariants.{Step};
ghost use Rattle.buck_c_calls.specs.Turns.{HaveTexts};

use buck_c_calls::{Texts, buckfleet_in_turn};
use std::alloc::Global;

/// Bytes are cut although the lengths aren't theirs.
#[tactic(auto, using(crate::proofs::Misuse::other_lengths))]
pub fn lengths_of_other_bytes(
    alloc: Global,
    files: &[u8],
    lengths: &[usize],
    out: &mut [u8],
    texts: &mut Texts,
)
    requires { sum lengths.now ≢ length files.now }
{
    let right = buckfleet_in_turn(alloc, files, lengths, 1, out, texts);
    let wrong = 0;
    prove!(right != wrong);
}

/// A rule of the number 4 is taken for another one.
#[tactic(auto, using(crate::proofs::Misuse::no_rule))]
pub fn rule_of_no_number(
    alloc: Global,
    files: &[u8],
    lengths: &[usize],
    out: &mut [u8],
    texts: &mut Texts,
) {
    let right = buckfleet_in_turn(alloc, files, lengths, 4, out, texts);
    let wrong = 0;
    prove!(right != wrong);
}

/// The texts are those of another rule: no journal and report of one history by the rule step stand so, one behind the
/// other.
pub fn turns_by_another_rule(
    alloc: Global,
    files: &[u8],
    lengths: &[usize],
    out: &mut [u8],
    texts: &mut Texts,
    wrong: &[u8],
)
    requires other { (journal report : List ℕ) → HaveTexts Step lengths.now files.now journal report
        → wrong.now ≢ journal ++ report }
{
    let step = 2;
    let status = buckfleet_in_turn(alloc, files, lengths, step, out, texts);
    let Some(long) = texts.journal.checked_add(texts.report) else {
        return;
    };
    if status == 0 {
        if let Some(right) = out.get(..long) {
            prove!(right != wrong);
        }
    }
}
