//! Wrong bodies of whole runs: which files are opened, and what is said of them.
ghost use Rattle.std.specs.Prelude.{◌≡◌, ◌≢◌, length, true, false, IsOk, IsTrue, None};
ghost use Rattle.std.specs.List.{before_first, after_first};
ghost use Rattle.buck_apt.specs.Apt.{apt_of};
ghost use Rattle.buck_stem.specs.Stm.{stm_of};
ghost use Rattle.buckfleet_engine.specs.run.Bucking.{is_bar};

use buck_rule::NamedRule;
use buckfleet_engine::{
    BuckTask, FleetTask, Order, Settings, Task, conclude, serve, serve_buck, serve_fleet,
};
use buckfleet_engine_files::{Make, Nobody, Open};
use std::alloc::Global;
use std::sync::Wait;
use std::thread::Threads;

/// Opens nothing, and keeps how long the last name was that was asked for.
#[derive(Drop)]
pub(crate) struct Missing {
    pub(crate) asked: usize,
}

impl Open for Missing {
    type File = &'static [u8];

    ghost opens = { λ old name file new. (file ≡ None) × (new.asked ≡ length name) };

    fn open(&mut self, name: &str) -> Option<&'static [u8]> {
        self.asked = name.len();
        None
    }
}

/// The stem file is opened first, in the place of the instruction file.
pub fn buck_files_swapped<T: Threads + Sync>(rt: &T, alloc: Global, output: &mut Vec<u8>) {
    let task = BuckTask {
        apt: "pine.apt",
        stm: "stems.stm",
        threads: None,
    };
    let mut files = Missing { asked: 0 };
    let _ = serve_buck(rt, alloc, &task, &Nobody, &mut files, output);
    let right = files.asked;
    let wrong = "stems.stm".len();
    prove!(right != wrong);
}

/// The line of a fault goes to the output.
pub fn serve_fault_line_on_the_output(alloc: Global) {
    let task = Task::Report {
        apt: "pine.apt",
        journal: "stems.jrn",
        settings: Settings::own(),
    };
    let mut input = b"".as_slice();
    let mut files = Missing { asked: 0 };
    let mut output = Vec::new(alloc);
    let _ = serve(alloc, &task, &Nobody, &mut input, &mut files, &mut output);
    let is_said = !output.is_empty();
    prove!(!is_said);
}

/// Opens an empty file for the first name that is asked for, and nothing for others.
#[derive(Drop)]
struct First {
    is_asked: bool,
}

impl Open for First {
    type File = &'static [u8];

    ghost opens = { λ old name file new. IsTrue new.is_asked × (old.is_asked ≡ true → file ≡ None)
        × (old.is_asked ≡ false → file ≢ None) };

    fn open(&mut self, _name: &str) -> Option<&'static [u8]> {
        if self.is_asked {
            return None;
        }
        self.is_asked = true;
        Some(&[])
    }
}

/// A stem file that is missing is reported as file 0, the instruction file.
pub fn open_both_missing_stems_as_file_0<T: Threads + Sync>(
    rt: &T,
    alloc: Global,
    output: &mut Vec<u8>,
) {
    let task = BuckTask {
        apt: "pine.apt",
        stm: "stems.stm",
        threads: None,
    };
    let mut files = First { is_asked: false };
    let mut errors = Vec::new(alloc);
    let outcome = serve_buck(rt, alloc, &task, &Nobody, &mut files, output);
    let _ = conclude(&mut errors, &outcome);
    let wrong = b"read fault 0\n".as_slice();
    prove!(errors.as_slice() != wrong);
}

/// Files are opened though there are no names, and their instruction is refused in the place of the input's.
pub fn run_task_bare_opens_files(
    alloc: Global,
    input: &[u8],
    output: &mut Vec<u8>,
    errors: &mut Vec<u8>,
)
    requires apt { IsOk (apt_of (before_first is_bar input.now)) }
    requires stm { IsOk (stm_of (after_first is_bar input.now)) }
{
    let mut reader = input;
    let mut files = First { is_asked: false };
    let wrong = 1;
    let outcome = serve(alloc, &Task::Bare, &Nobody, &mut reader, &mut files, output);
    let right = conclude(errors, &outcome);
    prove!(right != wrong);
}

/// Has an empty file for every name, and makes none.
#[derive(Drop)]
struct Full;

impl Open for Full {
    type File = &'static [u8];

    ghost opens = { λ old name file new. file ≢ None };

    fn open(&mut self, _name: &str) -> Option<&'static [u8]> {
        Some(&[])
    }
}

impl Make for Full {
    type Made = Vec<u8>;

    ghost makes = { λ old name made new. made ≡ None };

    fn make(&mut self, _name: &str) -> Option<Vec<u8>> {
        None
    }
}

/// The run goes on without a journal, and ends well, if its file can't be made.
pub fn journal_left_out_where_it_cannot_be_made<T: Threads + Wait + Sync>(
    rt: &T,
    alloc: Global,
    output: &mut Vec<u8>,
    errors: &mut Vec<u8>,
) {
    let task = FleetTask {
        order: Order::AtOnce,
        rule: NamedRule::Steady,
        settings: Settings::own(),
        journal: Some("out.jrn"),
        apt: "pine.apt",
        stms: Vec::new(alloc),
    };
    let wrong = 0;
    let outcome = serve_fleet(rt, alloc, &task, &Nobody, &mut Full, output);
    let right = conclude(errors, &outcome);
    prove!(right != wrong);
}
