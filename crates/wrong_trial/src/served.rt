//! Wrong bodies of whole runs of trials, appraisals and comparisons: which files are opened, and what is written then.
ghost use Rattle.std.specs.Prelude.{◌≡◌, length, None};

use buck_apt_instruction::Settings;
use buckfleet_engine_files::{Nobody, Open};
use buckfleet_proceeds::{AppraiseTask, CompareTask, serve_appraise, serve_compare};
use buckfleet_trial::{TrialTask, serve_trial};
use std::alloc::Global;
use std::thread::Threads;

/// Opens nothing, and keeps how long the last name was that was asked for.
#[derive(Drop)]
struct Missing {
    asked: usize,
}

impl Open for Missing {
    type File = &'static [u8];

    ghost opens = { λ old name file new. (file ≡ None) × (new.asked ≡ length name) };

    fn open(&mut self, name: &str) -> Option<&'static [u8]> {
        self.asked = name.len();
        None
    }
}

/// The file of targets is opened first, in the place of the instruction file.
pub fn trial_targets_opened_first<T: Threads + Sync>(rt: &T, alloc: Global, output: &mut Vec<u8>) {
    let mut stms = Vec::new(alloc);
    let Ok(()) = stms.push("stems.stm") else {
        return;
    };
    let task = TrialTask {
        combinations: Vec::new(alloc),
        apt: "pine.apt",
        stms,
        targets: Some("mill.targets"),
        draws: None,
        threads: Some(2),
    };
    let mut files = Missing { asked: 0 };
    let _ = serve_trial(rt, alloc, &task, &Nobody, &mut files, output);
    let right = files.asked;
    let wrong = "mill.targets".len();
    prove!(right != wrong);
}

/// The columns are written though a file can't be opened.
pub fn trial_written_though_a_file_is_missing<T: Threads + Sync>(
    rt: &T,
    alloc: Global,
    task: &TrialTask<'_>,
) {
    let mut output = Vec::new(alloc);
    let mut files = Missing { asked: 0 };
    let _ = serve_trial(rt, alloc, task, &Nobody, &mut files, &mut output);
    prove!(output.is_empty());
}

/// The owner's instruction is opened first, in the place of the instruction file.
pub fn appraise_opens_the_owners_instruction_first<T: Threads + Sync>(
    rt: &T,
    alloc: Global,
    output: &mut Vec<u8>,
) {
    let mut journals = Vec::new(alloc);
    let Ok(()) = journals.push("monday.jrn") else {
        return;
    };
    let task = AppraiseTask {
        settings: Settings::own(),
        apt: "pine.apt",
        journals,
        own: "owners_own.apt",
        threads: Some(2),
    };
    let mut files = Missing { asked: 0 };
    let _ = serve_appraise(rt, alloc, &task, &Nobody, &mut files, output);
    let right = files.asked;
    let wrong = "owners_own.apt".len();
    prove!(right != wrong);
}

/// A journal is opened first, in the place of the instruction file.
pub fn compare_opens_a_journal_first<T: Threads + Sync>(
    rt: &T,
    alloc: Global,
    output: &mut Vec<u8>,
) {
    let task = CompareTask {
        first: Settings::own(),
        second: Settings::own(),
        apt: "pine.apt",
        journals: ["monday.jrn", "tuesday.jrn"],
        threads: Some(2),
    };
    let mut files = Missing { asked: 0 };
    let _ = serve_compare(rt, alloc, &task, &Nobody, &mut files, output);
    let right = files.asked;
    let wrong = "monday.jrn".len();
    prove!(right != wrong);
}
