//! Wrong bodies of sweeps with other targets, and over orders that are drawn.
ghost use Rattle.std.specs.Prelude.{◌≡◌, ◌≢◌, ◌++◌, ℕ, List, [], ◌∷◌, IfSome, Some, Ok, codes, map};
ghost use Rattle.std.specs.declared.sync.Arc.{Arc};
ghost use Rattle.std.specs.declared.vec.Vec.{Vec};
ghost use Rattle.std.specs.declared.alloc.Global.{Global};
ghost use Rattle.buck_apt.specs.Apt.{apt_of};
ghost use Rattle.buck_apt_instruction.specs.Instruction.{InstructionParts};
ghost use Rattle.buck_apt_instruction.specs.Wanted.{with_targets};
ghost use Rattle.buck_stem_shape.specs.Stem.{StemParts};
ghost use Rattle.buck_stem_shape.specs.declared.stem.Stem.{Stem};
ghost use Rattle.buck_stem.specs.Stm.{stm_of};
ghost use Rattle.buck_book_postings.specs.History.{HistoryParts};
ghost use Rattle.buck_rule.specs.declared.named.NamedRule.TheVariants.{Steady, Step};
ghost use Rattle.buckfleet_trial_sweep.specs.Table.{IsLine};
ghost use Rattle.buckfleet_terms_files.specs.Targets.{HasTargets};
ghost use Rattle.buckfleet_trial.specs.Inputs.{SaysInput, held_with};
ghost use Rattle.buckfleet_trial.specs.Trial.{AreAllDrawn, AreSpreads, IsBestFor, starts_of};
ghost use Rattle.wrong_trial.specs.Texts.{StandsIn, own_run};

use buckfleet_engine_files::{EngineFault, Nobody};
use buckfleet_terms_files::TermsFault;
use buckfleet_trial::{Opened, TrialTask, run_trial_in_parts};
use std::alloc::Global;
use std::thread::Threads;

/// An instruction, one stem file and a file of targets, open.
fn opened<'x>(
    alloc: Global,
    apt: &'x [u8],
    stm: &'x [u8],
    targets: &'x [u8],
) -> Option<Opened<&'x [u8]>>
    ensures apt { IfSome result (λ o. o.apt.now ≡ apt.now) }
    ensures stms { IfSome result (λ o. map (λ s. Some s.now) o.stms.items ≡ Some stm.now ∷ []) }
    ensures targets { IfSome result (λ o. held_with (λ s. Some s.now) o.targets ≡ Some (Some targets.now, 2)) }
{
    let mut stms = Vec::new(alloc);
    let Ok(()) = stms.push(stm) else {
        return None;
    };
    Some(Opened {
        apt,
        stms,
        targets: Some((targets, 2)),
    })
}

/// The targets are reported, though a stem file is refused.
pub fn targets_told_before_a_stem_file<'x, T: Threads + Sync>(
    rt: &T,
    alloc: Global,
    task: &TrialTask<'_>,
    apt: &'x [u8],
    stm: &'x [u8],
    targets: &'x [u8],
    out: &mut Vec<u8>,
)
    requires refused { (stems : List StemParts) → stm_of stm.now ≢ Ok stems }
{
    let Some(files) = opened(alloc, apt, stm, targets) else {
        return;
    };
    let outcome = run_trial_in_parts(rt, alloc, task, &Nobody, files, out);
    if let Err(TermsFault::Targets(_why)) = outcome {
        let is_told = true;
        prove!(!is_told);
    }
}

/// A table is written of no stem file, or the instruction is read and refused first.
pub fn trial_of_no_stem_file<'x, T: Threads + Sync>(
    rt: &T,
    alloc: Global,
    task: &TrialTask<'_>,
    apt: &'x [u8],
    out: &mut Vec<u8>,
) {
    let files = Opened {
        apt,
        stms: Vec::new(alloc),
        targets: None,
    };
    let outcome = run_trial_in_parts(rt, alloc, task, &Nobody, files, out);
    let is_refused = matches!(outcome, Err(TermsFault::Run(EngineFault::Seats)));
    prove!(is_refused);
}

/// Lines are written before the file of targets is refused.
pub fn trial_written_before_the_targets_are_read<'x, T: Threads + Sync>(
    rt: &T,
    alloc: Global,
    task: &TrialTask<'_>,
    files: Opened<&'x [u8]>,
) {
    let mut out = Vec::new(alloc);
    let outcome = run_trial_in_parts(rt, alloc, task, &Nobody, files, &mut out);
    let is_wrong = !out.is_empty() && matches!(outcome, Err(TermsFault::Targets(_)));
    prove!(!is_wrong);
}

/// The file of targets isn't looked at: no history with its targets has a line in such a text.
pub fn trial_by_the_targets_of_the_instruction<'x, T: Threads + Sync>(
    rt: &T,
    alloc: Global,
    task: &TrialTask<'_>,
    apt: &'x [u8],
    stm: &'x [u8],
    targets: &'x [u8],
    wrong: &[u8],
)
    requires runs { task.now.combinations.items ≡ own_run Step ∷ [] }
    requires other { (own : InstructionParts) (wanted : List ℕ) (h : HistoryParts) (line : List ℕ)
        → apt_of apt.now ≡ Ok own → HasTargets own targets.now wanted → h.instruction ≡ with_targets wanted own
        → IsLine Step h (line ++ codes "\n") → StandsIn line wrong.now → ⊥ }
{
    let Some(files) = opened(alloc, apt, stm, targets) else {
        return;
    };
    let mut right = Vec::new(alloc);
    let outcome = run_trial_in_parts(rt, alloc, task, &Nobody, files, &mut right);
    if let Ok(()) = outcome {
        prove!(right.as_slice() != wrong);
    }
}

/// Each draw is a run in the files' own order, or in that of another seed: no runs in the orders that the seed draws
/// come to what stands at the end of such a line.
pub fn trial_draws_of_other_orders<'x, T: Threads + Sync>(
    rt: &T,
    alloc: Global,
    task: &TrialTask<'_>,
    files: Opened<&'x [u8]>,
    wrong: &[u8],
)
    requires runs { task.now.combinations.items ≡ own_run Step ∷ [] }
    requires other { (i : InstructionParts) (lists : List (Vec (Arc Stem Global) Global)) (best : ℕ)
        (drawn : List _) (spreads : List ℕ)
        → SaysInput (Some files.apt.now) (map (λ s. Some s.now) files.stms.items)
        (held_with (λ s. Some s.now) files.targets) i lists
        → IsBestFor i lists (starts_of task.now.draws lists) best
        → AreAllDrawn i lists (own_run Step) (starts_of task.now.draws lists) drawn → AreSpreads best drawn spreads
        → StandsIn (spreads ++ codes "\n") wrong.now → ⊥ }
{
    let mut right = Vec::new(alloc);
    let outcome = run_trial_in_parts(rt, alloc, task, &Nobody, files, &mut right);
    if let Ok(()) = outcome {
        prove!(right.as_slice() != wrong);
    }
}

/// The draws of the second run go on where those of the first ended, and aren't of the same orders.
pub fn trial_draws_that_go_on_from_line_to_line<'x, T: Threads + Sync>(
    rt: &T,
    alloc: Global,
    task: &TrialTask<'_>,
    files: Opened<&'x [u8]>,
    wrong: &[u8],
)
    requires runs { task.now.combinations.items ≡ own_run Steady ∷ own_run Step ∷ [] }
    requires other { (i : InstructionParts) (lists : List (Vec (Arc Stem Global) Global)) (best : ℕ)
        (drawn : List _) (spreads : List ℕ)
        → SaysInput (Some files.apt.now) (map (λ s. Some s.now) files.stms.items)
        (held_with (λ s. Some s.now) files.targets) i lists
        → IsBestFor i lists (starts_of task.now.draws lists) best
        → AreAllDrawn i lists (own_run Step) (starts_of task.now.draws lists) drawn → AreSpreads best drawn spreads
        → StandsIn (spreads ++ codes "\n") wrong.now → ⊥ }
{
    let mut right = Vec::new(alloc);
    let outcome = run_trial_in_parts(rt, alloc, task, &Nobody, files, &mut right);
    if let Ok(()) = outcome {
        prove!(right.as_slice() != wrong);
    }
}
