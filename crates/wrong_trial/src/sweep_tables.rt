//! Wrong bodies of a table over files.
ghost use Rattle.std.specs.Prelude.{◌≡◌, ◌≤◌, ◌++◌, ℕ, List, [], Some, Ok, length, map};
ghost use Rattle.buck_stem_shape.specs.Stem.{StemParts};
ghost use Rattle.buck_stem.specs.Stm.{stm_of};
ghost use Rattle.buck_book_postings.specs.History.{HistoryParts};
ghost use Rattle.buck_rule.specs.declared.named.NamedRule.TheVariants.{Steady, Step};
ghost use Rattle.buckfleet_engine_files.specs.Ruled.{FollowsRule};
ghost use Rattle.buckfleet_engine_input.specs.Harvest.{AreFirsts};
ghost use Rattle.buckfleet_trial_sweep.specs.Sweep.{IsLineOver};
ghost use Rattle.buckfleet_trial_sweep.specs.Table.{IsLine};
ghost use Rattle.wrong_trial.specs.SweepTexts.{StandsIn, own_run};

use buck_rule::NamedRule;
use buckfleet_engine_files::EngineFault;
use buckfleet_trial_sweep::{Combination, Settings, run_sweep};
use std::alloc::Global;
use std::io;

/// What stands under the name of the rule step are the lines of the linear rule: no history whose prices are those that
/// step gives has a line in such a text.
pub fn linear_rule_under_the_name_of_step<'x>(
    alloc: Global,
    apt: &'x [u8],
    stms: &mut [&'x [u8]],
    wrong: &[u8],
)
    requires other { (h : HistoryParts) (line : List ℕ) → FollowsRule Step h → IsLine Step h line
        → StandsIn line wrong.now → ⊥ }
{
    let runs = [Combination {
        rule: NamedRule::Step,
        settings: Settings::own(),
    }];
    let mut instruction = apt;
    let mut right = Vec::new(alloc);
    let outcome = run_sweep(alloc, &runs, &mut instruction, stms, &mut right);
    if let Ok(()) = outcome {
        prove!(right.as_slice() != wrong);
    }
}

/// Two lines are swapped, or one of them is left out: a text without the line of a run by the steady rule and, right
/// behind it, that of a run by the rule step.
pub fn lines_swapped<'x>(alloc: Global, apt: &'x [u8], stms: &mut [&'x [u8]], wrong: &[u8])
    requires other { (one two : List ℕ)
        → IsLineOver (Some apt.now) (map (λ s. Some s.now) stms.old) (own_run Steady) one
        → IsLineOver (Some apt.now) (map (λ s. Some s.now) stms.old) (own_run Step) two
        → StandsIn (one ++ two) wrong.now → ⊥ }
{
    let runs = [
        Combination {
            rule: NamedRule::Steady,
            settings: Settings::own(),
        },
        Combination {
            rule: NamedRule::Step,
            settings: Settings::own(),
        },
    ];
    let mut instruction = apt;
    let mut right = Vec::new(alloc);
    let outcome = run_sweep(alloc, &runs, &mut instruction, stms, &mut right);
    if let Ok(()) = outcome {
        prove!(right.as_slice() != wrong);
    }
}

/// Stems are too many, though they are few.
pub fn full_at_once<'x>(alloc: Global, apt: &'x [u8], stm: &'x [u8], out: &mut Vec<u8>)
    requires few { (stems : List StemParts) → stm_of stm.now ≡ Ok stems → length stems ≤ 1000000 }
{
    let runs = [Combination {
        rule: NamedRule::Steady,
        settings: Settings::own(),
    }];
    let mut instruction = apt;
    let mut stems = [stm];
    let outcome = run_sweep(alloc, &runs, &mut instruction, &mut stems, out);
    let is_full = outcome == Err(EngineFault::Full);
    prove!(!is_full);
}

/// 65 stem files are accepted.
pub fn sweep_of_65_accepted(alloc: Global, out: &mut Vec<u8>) {
    let mut instruction = b"".as_slice();
    let mut stems = [b"".as_slice(); 65];
    let right = run_sweep(alloc, &[], &mut instruction, &mut stems, out);
    let is_refused = right == Err(EngineFault::Seats);
    prove!(is_refused);
}

/// The columns are written although a stem file is refused.
pub fn columns_written_before_all_is_read<'x>(
    alloc: Global,
    runs: &[Combination],
    apt: &'x [u8],
    stms: &mut [&'x [u8]],
) {
    let mut instruction = apt;
    let mut out = Vec::new(alloc);
    let outcome = run_sweep(alloc, runs, &mut instruction, stms, &mut out);
    let is_wrong = !out.is_empty() && matches!(outcome, Err(EngineFault::Stm { .. }));
    prove!(!is_wrong);
}

/// Another one of the best cuttings is cut, as the last of ties: no history whose cuttings are the first of the best has
/// a line in such a text.
pub fn sweep_cut_by_the_last_of_ties<'x>(
    alloc: Global,
    apt: &'x [u8],
    stms: &mut [&'x [u8]],
    wrong: &[u8],
)
    requires other { (h : HistoryParts) (line : List ℕ) → AreFirsts h → IsLine Step h line
        → StandsIn line wrong.now → ⊥ }
{
    let runs = [Combination {
        rule: NamedRule::Step,
        settings: Settings::own(),
    }];
    let mut instruction = apt;
    let mut right = Vec::new(alloc);
    let outcome = run_sweep(alloc, &runs, &mut instruction, stms, &mut right);
    if let Ok(()) = outcome {
        prove!(right.as_slice() != wrong);
    }
}

/// Takes all that is written, and counts the calls.
#[derive(Drop)]
struct Calls {
    number: u64,
}

impl io::Write for Calls {
    fn write(&mut self, buf: &[u8]) -> io::Result<usize> {
        self.number = self.number.saturating_add(1);
        Ok(buf.len())
    }

    fn flush(&mut self) -> io::Result<()> {
        Ok(())
    }
}

/// The writer is called before a stem file is refused, though with nothing to write.
pub fn sweep_calls_the_writer_before_all_is_read<'x>(
    alloc: Global,
    runs: &[Combination],
    apt: &'x [u8],
    stms: &mut [&'x [u8]],
) {
    let mut instruction = apt;
    let mut out = Calls { number: 0 };
    let outcome = run_sweep(alloc, runs, &mut instruction, stms, &mut out);
    let is_wrong = out.number != 0 && matches!(outcome, Err(EngineFault::Stm { .. }));
    prove!(!is_wrong);
}
