//! Wrong bodies of the work that the words of the command line ask for.
ghost use Rattle.std.specs.Prelude.{◌≡◌, ◌≢◌, ◌+◌, ◌<◌, length, None};

use buck_rule::NamedRule;
use buckfleet_command::{Work, serve_work};
use buckfleet_engine::{BuckTask, FleetTask, Order, Settings};
use buckfleet_engine_files::{Make, Nobody, Open};
use buckfleet_terms_files::conclude_terms;
use std::alloc::Global;
use std::sync::Wait;
use std::thread::Threads;

/// Has no file and makes none; it keeps how long the name was of the last one that was to be made.
#[derive(Drop)]
struct Bare {
    made: usize,
}

impl Open for Bare {
    type File = &'static [u8];

    ghost opens = { λ old name file new. (file ≡ None) × (new.made ≡ old.made) };

    fn open(&mut self, _name: &str) -> Option<&'static [u8]> {
        None
    }
}

impl Make for Bare {
    type Made = Vec<u8>;

    ghost makes = { λ old name made new. new.made ≡ length name };

    fn make(&mut self, name: &str) -> Option<Vec<u8>> {
        self.made = name.len();
        None
    }
}

/// Has an empty file for every name and makes none; it keeps how many were opened, and how long the name was of the last
/// one that was to be made.
#[derive(Drop)]
struct Full {
    opened: u64,
    made: usize,
}

impl Open for Full {
    type File = &'static [u8];

    ghost opens = { λ old name file new. (file ≢ None) × (new.made ≡ old.made)
        × (old.opened < 1000 → new.opened ≡ old.opened + 1) };

    fn open(&mut self, _name: &str) -> Option<&'static [u8]> {
        if self.opened < 1000 {
            self.opened += 1;
        }
        Some(&[])
    }
}

impl Make for Full {
    type Made = Vec<u8>;

    ghost makes = { λ old name made new. (new.made ≡ length name) × (new.opened ≡ old.opened) };

    fn make(&mut self, name: &str) -> Option<Vec<u8>> {
        self.made = name.len();
        None
    }
}

/// The line of a fleet's fault goes to the output.
pub fn fleet_output_and_errors_swapped<T: Threads + Wait + Sync>(rt: &T, alloc: Global) {
    let work = Work::Fleet(FleetTask {
        order: Order::AtOnce,
        rule: NamedRule::Steady,
        settings: Settings::own(),
        journal: Some("out.jrn"),
        apt: "pine.apt",
        stms: Vec::new(alloc),
    });
    let mut files = Bare { made: 0 };
    let mut input = b"".as_slice();
    let mut output = Vec::<u8>::new(alloc);
    let _ = serve_work(
        rt,
        alloc,
        &work,
        &Nobody,
        &mut files,
        &mut input,
        &mut output,
    );
    let is_said = !output.is_empty();
    prove!(!is_said);
}

/// OUT is made before the instruction file is asked for, which isn't there.
pub fn out_made_before_the_inputs<T: Threads + Wait + Sync>(rt: &T, alloc: Global) {
    let work = Work::Fleet(FleetTask {
        order: Order::AtOnce,
        rule: NamedRule::Steady,
        settings: Settings::own(),
        journal: Some("out.jrn"),
        apt: "pine.apt",
        stms: Vec::new(alloc),
    });
    let mut files = Bare { made: 0 };
    let mut input = b"".as_slice();
    let mut output = Vec::<u8>::new(alloc);
    let _ = serve_work(
        rt,
        alloc,
        &work,
        &Nobody,
        &mut files,
        &mut input,
        &mut output,
    );
    let right = files.made;
    let wrong = "out.jrn".len();
    prove!(right != wrong);
}

/// The journal goes into a file of the instruction's name.
pub fn out_of_another_name<T: Threads + Wait + Sync>(rt: &T, alloc: Global) {
    let work = Work::Fleet(FleetTask {
        order: Order::AtOnce,
        rule: NamedRule::Steady,
        settings: Settings::own(),
        journal: Some("out.jrn"),
        apt: "pine.apt",
        stms: Vec::new(alloc),
    });
    let mut files = Full { opened: 0, made: 0 };
    let mut input = b"".as_slice();
    let mut output = Vec::<u8>::new(alloc);
    let outcome = serve_work(
        rt,
        alloc,
        &work,
        &Nobody,
        &mut files,
        &mut input,
        &mut output,
    );
    let mut errors = Vec::<u8>::new(alloc);
    let status = conclude_terms(&mut errors, &outcome);
    let memory = 3;
    if status != memory {
        let right = files.made;
        let wrong = "pine.apt".len();
        prove!(right != wrong);
    }
}

/// One of two files is opened once more.
pub fn file_opened_twice<T: Threads + Wait + Sync>(rt: &T, alloc: Global) {
    let work = Work::Buck(BuckTask {
        apt: "pine.apt",
        stm: "stems.stm",
        threads: None,
    });
    let mut files = Full { opened: 0, made: 0 };
    let mut input = b"".as_slice();
    let mut output = Vec::<u8>::new(alloc);
    let _ = serve_work(
        rt,
        alloc,
        &work,
        &Nobody,
        &mut files,
        &mut input,
        &mut output,
    );
    let right = files.opened;
    let wrong = 3;
    prove!(right != wrong);
}
