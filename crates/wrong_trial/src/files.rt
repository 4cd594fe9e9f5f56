//! Wrong bodies of files that are read beside an instruction, and of what is said of them.
ghost use Rattle.std.specs.Prelude.{◌≡◌, IfSome, List, Ok, Some, ℕ};
ghost use Rattle.buck_apt.specs.Apt.{apt_of};
ghost use Rattle.buck_apt_instruction.specs.Instruction.{InstructionParts};
ghost use Rattle.buckfleet_terms_files.specs.Targets.{HasTargets};
ghost use Rattle.buckfleet_trial.specs.Inputs.{held_with};

use buck_apt_instruction::Instruction;
use buckfleet_engine_files::{EngineFault, Nobody, Open};
use buckfleet_terms_files::{
    TargetsFault, TermsFault, conclude_terms, open_last, open_more, read_own, read_wanted, status,
};
use buckfleet_trial::{Opened, TrialTask};
use buckfleet_trial_owned::{OwnedFiles, run_owned};
use std::alloc::Global;
use std::thread::Threads;

/// Behind three other files, the last is numbered file 4: the instruction is counted as file 1.
pub fn last_file_counted_from_1<O: Open>(opener: &mut O, name: &str) {
    if let Ok((_, right)) = open_last(opener, name, 3) {
        let wrong = 4;
        prove!(right != wrong);
    }
}

/// A file that isn't named can't be opened.
pub fn file_not_named_refused<O: Open>(opener: &mut O) {
    let right = open_more(opener, None, 3);
    prove!(right.is_ok());
}

/// A file of targets that can't be read is reported as the instruction file.
pub fn targets_file_told_as_file_0(alloc: Global, targets: &[u8], instruction: &Instruction) {
    let mut reader = targets;
    let outcome = read_wanted(alloc, &mut reader, 3, instruction);
    let is_wrong = matches!(outcome, Err(TermsFault::Run(EngineFault::Read { file: 0 })));
    prove!(!is_wrong);
}

/// An owner's instruction that is refused is reported as the instruction.
pub fn own_told_as_the_instruction(alloc: Global, own: &[u8], instruction: &Instruction) {
    let mut reader = own;
    let outcome = read_own(alloc, &mut reader, 3, instruction);
    let is_wrong = matches!(outcome, Err(TermsFault::Run(EngineFault::Apt(_))));
    prove!(!is_wrong);
}

/// An owner's instruction is read that may not stand beside the instruction.
pub fn own_of_another_module_read(alloc: Global, own: &[u8], instruction: &Instruction) {
    let mut reader = own;
    if let Ok(right) = read_own(alloc, &mut reader, 3, instruction) {
        let is_wrong = right.module() != instruction.module();
        prove!(!is_wrong);
    }
}

/// Memory that ran out in the place of a refusal has the status of a refusal.
pub fn memory_as_refused_targets() {
    let right = status(&TermsFault::Targets(TargetsFault::Memory));
    let wrong = 1;
    prove!(right != wrong);
}

/// Something is said of a run that went well.
pub fn good_run_told(alloc: Global) {
    let mut right = Vec::new(alloc);
    let _status = conclude_terms(&mut right, &Ok(()));
    prove!(right.is_empty());
}

/// An instruction, one stem file, a file of targets and an owner's contract, open.
fn opened<'x>(
    alloc: Global,
    apt: &'x [u8],
    stm: &'x [u8],
    targets: &'x [u8],
    own: &'x [u8],
) -> Option<OwnedFiles<&'x [u8]>>
    ensures apt { IfSome result (λ o. o.files.apt.now ≡ apt.now) }
    ensures targets { IfSome result (λ o. held_with (λ s. Some s.now) o.files.targets ≡ Some (Some targets.now, 2)) }
{
    let mut stms = Vec::new(alloc);
    let Ok(()) = stms.push(stm) else {
        return None;
    };
    Some(OwnedFiles {
        files: Opened {
            apt,
            stms,
            targets: Some((targets, 2)),
        },
        own: (own, 3),
    })
}

/// A contract that is refused is reported, though the file of targets has none for the instruction.
pub fn contract_told_before_the_targets<'x, T: Threads + Sync>(
    rt: &T,
    alloc: Global,
    task: &TrialTask<'_>,
    apt: &'x [u8],
    stm: &'x [u8],
    targets: &'x [u8],
    own: &'x [u8],
    out: &mut Vec<u8>,
)
    requires refused { (i : InstructionParts) (wanted : List ℕ) → apt_of apt.now ≡ Ok i → HasTargets i targets.now wanted
        → ⊥ }
{
    let Some(files) = opened(alloc, apt, stm, targets, own) else {
        return;
    };
    let outcome = run_owned(rt, alloc, task, &Nobody, files, out);
    if let Err(TermsFault::Own(_why)) = outcome {
        let is_told = true;
        prove!(!is_told);
    }
}
