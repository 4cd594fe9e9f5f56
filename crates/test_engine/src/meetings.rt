//! A fleet over two stem files whose first plans wait for each other, so that no two files are cut in one thread.
ghost use Rattle.std.specs.Prelude.{⊤};

use crate::streams::Sink;
use crate::work::apt_and_stm;
use buck_rule::NamedRule;
use buckfleet_engine::{FleetTask, Order, Settings, serve_fleet};
use buckfleet_engine_files::{Make, Onlooker, Open};
use std::alloc::Global;
use std::sync::Wait;
use std::sync::atomic::{AtomicBool, AtomicU64, Ordering};
use std::test::Fail;
use std::thread::{self, Threads};

/// How many turns of a loop a harvester waits at most.
const MOST_TURNS: u64 = 50_000_000;

/// The instruction file under its name, and one of two stems under every other.
#[derive(Drop)]
struct Shelf;

impl Open for Shelf {
    type File = &'static [u8];

    ghost opens = { λ _ _ _ _. ⊤ };

    fn open(&mut self, name: &str) -> Option<&'static [u8]> {
        let (apt, stm) = apt_and_stm();
        if name == "apt" {
            Some(apt.as_bytes())
        } else {
            Some(stm.as_bytes())
        }
    }
}

impl Make for Shelf {
    type Made = Sink;

    ghost makes = { λ _ _ _ _. ⊤ };

    fn make(&mut self, _name: &str) -> Option<Sink> {
        None
    }
}

/// An onlooker with whom the first two plans wait for each other.
#[derive(Drop)]
struct Meeting {
    come: AtomicU64,
    is_late: AtomicBool,
}

impl Onlooker for Meeting {
    fn cutting(&self, _stems: usize) {}

    fn planned(&self) {
        self.come.fetch_add(1, Ordering::SeqCst);
        for turn in 0..MOST_TURNS {
            if self.come.load(Ordering::SeqCst) >= 2 {
                return;
            }
            if turn % 16 == 15 {
                thread::yield_now();
            }
        }
        self.is_late.store(true, Ordering::SeqCst);
    }
}

/// A fleet over two files.
fn task(alloc: Global) -> Result<FleetTask<'static>, Fail> {
    let mut stms = Vec::new(alloc);
    stms.extend_from_slice(&["one", "two"])?;
    Ok(FleetTask {
        order: Order::AtOnce,
        rule: NamedRule::Step,
        settings: Settings::own(),
        journal: None,
        apt: "apt",
        stms,
    })
}

/// Whether a fleet is cut whose first two plans meet.
fn meet<T: Threads + Wait + Sync>(rt: &T, alloc: Global, task: &FleetTask<'_>) -> bool {
    let meeting = Meeting {
        come: AtomicU64::new(0),
        is_late: AtomicBool::new(false),
    };
    let mut output = Sink::of(usize::MAX);
    let outcome = serve_fleet(rt, alloc, task, &meeting, &mut Shelf, &mut output);
    outcome.is_ok() && !meeting.is_late.load(Ordering::SeqCst)
}

#[test]
fn files_on_one_thread(rt: HostRuntime) -> Result<(), Fail> {
    let task = task(rt.alloc())?;
    assert!(rt; meet(&rt, rt.alloc(), &task));
    Ok(())
}
