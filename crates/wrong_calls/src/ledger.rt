//! Wrong answers over journals.
ghost use Rattle.std.specs.Prelude.{◌≡◌, ◌≢◌, ◌∷◌, ℕ, List, Err, length, sum};
ghost use Rattle.buck_apt.specs.declared.fault.AptFault.{AptFault};
ghost use Rattle.buck_apt.specs.Apt.{apt_of};
ghost use Rattle.buck_c_calls.specs.Turns.{AreFiles};

use crate::OWN;
use buck_c_calls::{
    Numbers, Pair, Run, buckfleet_appraise, buckfleet_check_with, buckfleet_compare,
};
use std::alloc::Global;

/// A journal is checked although the lengths aren't those of the bytes.
pub fn check_of_other_lengths(
    alloc: Global,
    files: &[u8],
    lengths: &[usize],
    run: &Run,
    out: &mut [u8],
    written: &mut usize,
)
    requires { sum lengths.now ≢ length files.now }
{
    let right = buckfleet_check_with(alloc, files, lengths, run, out, written);
    let wrong = 0;
    prove!(right != wrong);
}

/// The number for any rule is taken for one that no rule has, or the number for the instruction's own for too great.
pub fn check_by_any_rule_misused(
    alloc: Global,
    files: &[u8],
    lengths: &[usize],
    out: &mut [u8],
    written: &mut usize,
)
    requires { (apt : List ℕ) × (journal : List ℕ) × (stms : List (List ℕ))
        × AreFiles lengths.now files.now (apt ∷ journal ∷ stms) }
{
    let run = Run {
        numbers: OWN,
        rule: 255,
    };
    let right = buckfleet_check_with(alloc, files, lengths, &run, out, written);
    let wrong = 8;
    prove!(right != wrong);
}

/// A fault of the journal is reported although its instruction is refused.
pub fn check_tells_the_journal_first(
    alloc: Global,
    files: &[u8],
    lengths: &[usize],
    run: &Run,
    out: &mut [u8],
    written: &mut usize,
)
    requires { (apt other : List ℕ) (more : List (List ℕ)) → AreFiles lengths.now files.now (apt ∷ other ∷ more)
        → (why : AptFault) × (apt_of apt ≡ Err why) }
{
    let right = buckfleet_check_with(alloc, files, lengths, run, out, written);
    let wrong = 4;
    prove!(right != wrong);
}

/// A line that is longer than the room is cut off there, and the answer says that all is well.
#[tactic(auto, using(crate::proofs::Fits::done_fits))]
pub fn check_cut_off_at_the_room(
    alloc: Global,
    files: &[u8],
    lengths: &[usize],
    run: &Run,
    out: &mut [u8],
    written: &mut usize,
) {
    let room = out.len();
    let status = buckfleet_check_with(alloc, files, lengths, run, out, written);
    let is_wrong = status == 0 && *written > room;
    prove!(!is_wrong);
}

/// An appraisal of no journal ends well.
#[tactic(auto, using(crate::proofs::Ledgers::no_journal))]
pub fn appraisal_of_no_journal(
    alloc: Global,
    files: &[u8],
    lengths: &[usize],
    numbers: &Numbers,
    out: &mut [u8],
    written: &mut usize,
)
    requires { length lengths.now ≡ 2 }
{
    let right = buckfleet_appraise(alloc, files, lengths, numbers, out, written);
    let wrong = 0;
    prove!(right != wrong);
}

/// One of 65 journals ends well.
#[tactic(auto, using(crate::proofs::Ledgers::journals_65))]
pub fn appraisal_of_65_journals(
    alloc: Global,
    files: &[u8],
    lengths: &[usize],
    numbers: &Numbers,
    out: &mut [u8],
    written: &mut usize,
)
    requires { length lengths.now ≡ 67 }
{
    let right = buckfleet_appraise(alloc, files, lengths, numbers, out, written);
    let wrong = 0;
    prove!(right != wrong);
}

/// The second file isn't read as the contract: an appraisal ends well though it is refused.
#[tactic(auto, using(crate::proofs::Ledgers::contract_refused))]
pub fn appraisal_by_another_contract(
    alloc: Global,
    files: &[u8],
    lengths: &[usize],
    numbers: &Numbers,
    out: &mut [u8],
    written: &mut usize,
)
    requires { (apt own : List ℕ) (journals : List (List ℕ)) → AreFiles lengths.now files.now (apt ∷ own ∷ journals)
        → (why : AptFault) × (apt_of own ≡ Err why) }
{
    let right = buckfleet_appraise(alloc, files, lengths, numbers, out, written);
    let wrong = 0;
    prove!(right != wrong);
}

/// The line of memory that ran out is put with the status of a file that is refused.
#[tactic(auto, using(crate::proofs::Ledgers::memory_refused))]
pub fn appraisal_refuses_for_memory(
    alloc: Global,
    files: &[u8],
    lengths: &[usize],
    numbers: &Numbers,
    out: &mut [u8],
    written: &mut usize,
) {
    let status = buckfleet_appraise(alloc, files, lengths, numbers, out, written);
    if status == 1 {
        if let Some(right) = out.get(..*written) {
            let wrong = b"memory\n";
            prove!(right != wrong.as_slice());
        }
    }
}

/// Of three journals the first two are compared.
#[tactic(auto, using(crate::proofs::Ledgers::three_journals))]
pub fn comparison_of_three_journals(
    alloc: Global,
    files: &[u8],
    lengths: &[usize],
    pair: &Pair,
    out: &mut [u8],
    written: &mut usize,
)
    requires { length lengths.now ≡ 4 }
{
    let right = buckfleet_compare(alloc, files, lengths, pair, out, written);
    let wrong = 0;
    prove!(right != wrong);
}

/// The first journal's numbers are those of both: a limit of 1,001 per mille of the second isn't seen.
#[tactic(auto, using(crate::proofs::Ledgers::second_numbers))]
pub fn comparison_by_the_first_numbers(
    alloc: Global,
    files: &[u8],
    lengths: &[usize],
    out: &mut [u8],
    written: &mut usize,
) {
    let pair = Pair {
        first: OWN,
        second: Numbers {
            period: u32::MAX,
            limit: 1_001,
        },
    };
    let right = buckfleet_compare(alloc, files, lengths, &pair, out, written);
    let wrong = 0;
    prove!(right != wrong);
}
