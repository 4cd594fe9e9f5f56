//! Wrong bodies of a table whose runs are done in several threads at once.
ghost use Rattle.std.specs.Prelude.{◌≡◌, ◌++◌, ◌∷◌, [], ℕ, List, Option, Some, map};
ghost use Rattle.buck_rule.specs.declared.named.NamedRule.TheVariants.{Steady, Step};
ghost use Rattle.buckfleet_trial_sweep.specs.Sweep.{IsLineOver};
ghost use Rattle.wrong_trial.specs.SweepTexts.{StandsIn, own_run};

use buckfleet_engine_files::Nobody;
use buckfleet_trial_sweep::{SweepTask, run_sweep_in_parts};
use std::alloc::Global;
use std::thread::Threads;

/// What the second thread made stands before what the first made, or the last part is dropped: a text without the line
/// of a run by the steady rule and, right behind it, that of a run by the rule step.
pub fn parts_swapped<'x, T: Threads + Sync>(
    rt: &T,
    alloc: Global,
    task: &SweepTask<'_>,
    apt: &'x [u8],
    stms: &mut [&'x [u8]],
    wrong: &[u8],
)
    requires runs { task.now.combinations.items ≡ own_run Steady ∷ own_run Step ∷ [] }
    requires other { (one two : List ℕ)
        → IsLineOver (Some apt.now) (map (λ s. Some s.now) stms.old) (own_run Steady) one
        → IsLineOver (Some apt.now) (map (λ s. Some s.now) stms.old) (own_run Step) two
        → StandsIn (one ++ two) wrong.now → ⊥ }
{
    let mut instruction = apt;
    let mut right = Vec::new(alloc);
    let outcome = run_sweep_in_parts(rt, alloc, task, &Nobody, &mut instruction, stms, &mut right);
    if let Ok(()) = outcome {
        prove!(right.as_slice() != wrong);
    }
}
