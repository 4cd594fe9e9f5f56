//! Wrong bodies of tables of wishes.
ghost use Rattle.std.specs.Prelude.{◌≡◌, ℕ, List, Some, map};
ghost use Rattle.std.specs.declared.sync.Arc.{Arc};
ghost use Rattle.std.specs.declared.vec.Vec.{Vec};
ghost use Rattle.std.specs.declared.alloc.Global.{Global};
ghost use Rattle.buck_apt_instruction.specs.Instruction.{InstructionParts};
ghost use Rattle.buck_apt_instruction.specs.Settings.{with_settings};
ghost use Rattle.buck_stem_shape.specs.declared.stem.Stem.{Stem};
ghost use Rattle.buck_book_postings.specs.Posting.{opening_targets};
ghost use Rattle.buckfleet_trial.specs.Inputs.{SaysInput, held_with};
ghost use Rattle.buckfleet_trial.specs.Trial.{starts_of};
ghost use Rattle.buckfleet_trial_wishes.specs.WishLine.{IsWishLine, whole_line};
ghost use Rattle.buckfleet_trial_wishes.specs.Wishes.{AreRunsOf, AreUnsteered, IsWishAt};
ghost use Rattle.wrong_trial.specs.Texts.{StandsIn};

use buckfleet_engine_files::{EngineFault, Nobody};
use buckfleet_terms_files::TermsFault;
use buckfleet_trial::Opened;
use buckfleet_trial_wishes::{WishesTask, run_wishes_in_parts};
use std::alloc::Global;
use std::thread::Threads;

/// A table is written of no stem file, or the instruction is read and refused first.
pub fn wishes_of_no_stem_file<'x, T: Threads + Sync>(
    rt: &T,
    alloc: Global,
    task: &WishesTask<'_>,
    apt: &'x [u8],
    out: &mut Vec<u8>,
) {
    let files = Opened {
        apt,
        stms: Vec::new(alloc),
        targets: None,
    };
    let outcome = run_wishes_in_parts(rt, alloc, task, &Nobody, files, out);
    let is_refused = matches!(outcome, Err(TermsFault::Run(EngineFault::Seats)));
    prove!(is_refused);
}

/// Lines are written before the file of targets is refused.
pub fn wishes_written_before_the_targets_are_read<'x, T: Threads + Sync>(
    rt: &T,
    alloc: Global,
    task: &WishesTask<'_>,
    files: Opened<&'x [u8]>,
) {
    let mut out = Vec::new(alloc);
    let outcome = run_wishes_in_parts(rt, alloc, task, &Nobody, files, &mut out);
    let is_wrong = !out.is_empty() && matches!(outcome, Err(TermsFault::Targets(_)));
    prove!(!is_wrong);
}

/// A wish is left out: no line of a class whose target isn't its share unsteered stands in such a text.
pub fn wishes_leave_one_out<'x, T: Threads + Sync>(
    rt: &T,
    alloc: Global,
    task: &WishesTask<'_>,
    files: Opened<&'x [u8]>,
    at: usize,
    class: usize,
    wrong: &[u8],
)
    requires wish { (own : InstructionParts) (lists : List (Vec (Arc Stem Global) Global)) (unsteered : List ℕ)
        → SaysInput (Some files.apt.now) (map (λ s. Some s.now) files.stms.items)
        (held_with (λ s. Some s.now) files.targets) own lists
        → AreUnsteered (with_settings task.now.settings own) lists unsteered
        → IsWishAt (with_settings task.now.settings own) unsteered at class }
    requires other { (own : InstructionParts) (lists : List (Vec (Arc Stem Global) Global))
        (unsteered moved : List ℕ) (whole runs : _) (line : List ℕ)
        → SaysInput (Some files.apt.now) (map (λ s. Some s.now) files.stms.items)
        (held_with (λ s. Some s.now) files.targets) own lists
        → AreUnsteered (with_settings task.now.settings own) lists unsteered
        → IsWishLine (with_settings task.now.settings own) unsteered moved whole runs
        (record { assortment = at; class = class }) line
        → StandsIn line wrong.now → ⊥ }
{
    let mut right = Vec::new(alloc);
    let outcome = run_wishes_in_parts(rt, alloc, task, &Nobody, files, &mut right);
    if let Ok(()) = outcome {
        prove!(right.as_slice() != wrong);
    }
}

/// The runs with all wishes have no line.
pub fn wishes_without_the_runs_with_all<'x, T: Threads + Sync>(
    rt: &T,
    alloc: Global,
    task: &WishesTask<'_>,
    files: Opened<&'x [u8]>,
    wrong: &[u8],
)
    requires other { (own : InstructionParts) (lists : List (Vec (Arc Stem Global) Global)) (whole : _)
        → SaysInput (Some files.apt.now) (map (λ s. Some s.now) files.stms.items)
        (held_with (λ s. Some s.now) files.targets) own lists
        → AreRunsOf task.now.rule (with_settings task.now.settings own) lists
        (opening_targets (with_settings task.now.settings own)) (starts_of task.now.draws lists) whole
        → StandsIn (whole_line (starts_of task.now.draws lists) whole.own) wrong.now → ⊥ }
{
    let mut right = Vec::new(alloc);
    let outcome = run_wishes_in_parts(rt, alloc, task, &Nobody, files, &mut right);
    if let Ok(()) = outcome {
        prove!(right.as_slice() != wrong);
    }
}
