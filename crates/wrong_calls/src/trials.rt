//! Wrong answers of what a harvest would come to.
ghost use Rattle.std.specs.Prelude.{◌≡◌, ◌≢◌, ◌<◌, ◌∷◌, ℕ, List, Ok, length};
ghost use Rattle.buck_apt.specs.Apt.{apt_of};
ghost use Rattle.buck_apt_instruction.specs.Instruction.{InstructionParts};
ghost use Rattle.buckfleet_terms_files.specs.Targets.{HasTargets};
ghost use Rattle.buck_c_calls.specs.Turns.{AreFiles};

use crate::{Joined, OWN};
use buck_c_calls::{
    DrawnRun, DrawnRuns, Numbers, Orders, Run, buckfleet_sweep, buckfleet_tune, buckfleet_wishes,
};
use std::alloc::Global;

/// The file of targets may be left out: a sweep of an instruction file alone ends well.
#[tactic(auto, using(crate::proofs::Harvests::one_file))]
pub fn sweep_of_one_file(
    alloc: Global,
    files: &[u8],
    lengths: &[usize],
    runs: &DrawnRuns<'_>,
    out: &mut [u8],
    written: &mut usize,
)
    requires { length lengths.now < 2 }
{
    let right = buckfleet_sweep(alloc, files, lengths, runs, out, written);
    let wrong = 0;
    prove!(right != wrong);
}

/// The number for any rule, which a check alone takes, is taken for a rule.
#[tactic(auto, using(crate::proofs::Harvests::any_rule_swept))]
pub fn sweep_by_any_rule(
    alloc: Global,
    files: &[u8],
    lengths: &[usize],
    draws: &Orders,
    out: &mut [u8],
    written: &mut usize,
) {
    let run = Run {
        numbers: OWN,
        rule: 255,
    };
    let runs = DrawnRuns {
        runs: &[run],
        draws,
    };
    let right = buckfleet_sweep(alloc, files, lengths, &runs, out, written);
    let wrong = 0;
    prove!(right != wrong);
}

/// The file of targets isn't read: a sweep ends well though it has none.
pub fn sweep_by_the_instructions_targets(
    alloc: Global,
    files: &[u8],
    lengths: &[usize],
    runs: &DrawnRuns<'_>,
    out: &mut [u8],
    written: &mut usize,
)
    requires { (apt targets : List ℕ) (stms : List (List ℕ)) → AreFiles lengths.now files.now (apt ∷ targets ∷ stms)
        → (0 < length targets) × ((i : InstructionParts) (wanted : List ℕ) → HasTargets i targets wanted → ⊥) }
{
    let right = buckfleet_sweep(alloc, files, lengths, runs, out, written);
    let wrong = 0;
    prove!(right != wrong);
}

/// The table is lost: a sweep ends well, and no text is put.
#[tactic(auto, using(crate::proofs::Harvests::table_empty))]
pub fn sweep_without_a_table(
    alloc: Global,
    files: &[u8],
    lengths: &[usize],
    runs: &DrawnRuns<'_>,
    out: &mut [u8],
    right: &mut usize,
) {
    if buckfleet_sweep(alloc, files, lengths, runs, out, right) == 0 {
        let wrong = 0;
        prove!(*right != wrong);
    }
}

/// A period of 0 is taken for the instruction's own.
#[tactic(auto, using(crate::proofs::Harvests::never_wished))]
pub fn wishes_in_periods_of_0(
    alloc: Global,
    files: &[u8],
    lengths: &[usize],
    draws: Orders,
    out: &mut [u8],
    written: &mut usize,
) {
    let numbers = Numbers {
        period: 0,
        limit: u32::MAX,
    };
    let run = DrawnRun {
        run: Run { numbers, rule: 1 },
        draws,
    };
    let right = buckfleet_wishes(alloc, files, lengths, &run, out, written);
    let wrong = 0;
    prove!(right != wrong);
}

/// A table that is longer than the room is put as far as it goes.
#[tactic(auto, using(crate::proofs::Harvests::wishes_left))]
pub fn wishes_put_as_far_as_they_go(
    alloc: Global,
    files: &Joined<'_>,
    run: &DrawnRun,
    right: &mut [u8],
    written: &mut usize,
    wrong: &[u8],
)
    requires { wrong.now ≢ right.old }
{
    if buckfleet_wishes(alloc, files.bytes, files.lengths, run, right, written) == 6 {
        prove!(*right != *wrong);
    }
}

/// A rule of the number 4 is taken for another one.
#[tactic(auto, using(crate::proofs::Harvests::never_tuned))]
pub fn tune_by_rule_4(
    alloc: Global,
    files: &[u8],
    lengths: &[usize],
    out: &mut [u8],
    written: &mut usize,
) {
    let run = Run {
        numbers: OWN,
        rule: 4,
    };
    let right = buckfleet_tune(alloc, files, lengths, &run, out, written);
    let wrong = 0;
    prove!(right != wrong);
}

/// A misuse gives a length of 1, although there is no text.
#[tactic(auto, using(crate::proofs::Harvests::tune_misused))]
pub fn tune_misused_with_a_text(
    alloc: Global,
    files: &[u8],
    lengths: &[usize],
    run: &Run,
    out: &mut [u8],
    right: &mut usize,
) {
    if buckfleet_tune(alloc, files, lengths, run, out, right) == 8 {
        let wrong = 1;
        prove!(*right != wrong);
    }
}

/// What is put isn't an instruction file.
pub fn tune_puts_no_instruction(
    alloc: Global,
    files: &Joined<'_>,
    run: &Run,
    out: &mut [u8],
    written: &mut usize,
    wrong: &[u8],
)
    requires { (i : InstructionParts) → apt_of wrong.now ≡ Ok i → ⊥ }
{
    if buckfleet_tune(alloc, files.bytes, files.lengths, run, out, written) == 0 {
        if let Some(right) = out.get(..*written) {
            prove!(right != wrong);
        }
    }
}
