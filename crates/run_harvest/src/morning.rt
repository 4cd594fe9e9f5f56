//! A morning, as the program's commands make it: a fleet of one harvester, three harvesters in turn, a check of the
//! journal that each wrote, two files that are bucked, and last an instruction that is refused.
use buck_rule::NamedRule;
use buckfleet_engine::{BuckTask, FleetTask, Order, Settings, conclude, serve_buck, serve_fleet};
use buckfleet_engine_cross_check::{CheckTask, CrossCheck, serve_check};
use buckfleet_engine_files::{Desk, Disk, Nobody};
use std::io;
use std::sync::Wait;
use std::thread::Threads;

const APT: &str = "morning.apt";

/// The journal that each harvest writes; the one of a whole morning is stored beside it.
const JOURNAL: &str = "written.jrn";

/// The status of a harvest of the stems in these files; `threads` is the same runtime, as the leave to start threads and
/// to wait for them.
fn harvested<T: Threads + Wait + Sync>(
    threads: &T,
    rt: &HostRuntime,
    order: Order,
    files: &[&'static str],
) -> u8 {
    let mut stms = Vec::new(rt.alloc());
    if stms.extend_from_slice(files).is_err() {
        return 3;
    }
    let task = FleetTask {
        order,
        rule: NamedRule::Linear,
        settings: Settings::own(),
        journal: Some(JOURNAL),
        apt: APT,
        stms,
    };
    let outcome = serve_fleet(
        threads,
        rt.alloc(),
        &task,
        &Nobody,
        &mut Disk::of(rt, rt.alloc(), &Desk::of(0)),
        &mut io::writer(rt),
    );
    conclude(&mut rt.stderr(), &outcome)
}

/// The status of a check of the journal.
fn checked<T: Threads + Sync>(threads: &T, rt: &HostRuntime) -> u8 {
    let mut files = Vec::new(rt.alloc());
    if files.push(JOURNAL).is_err() {
        return 3;
    }
    let task = CheckTask {
        by: CrossCheck {
            rule: None,
            settings: Settings::own(),
        },
        apt: APT,
        files,
        threads: None,
    };
    let outcome = serve_check(
        threads,
        rt.alloc(),
        &task,
        &Nobody,
        &mut Disk::of(rt, rt.alloc(), &Desk::of(0)),
        &mut io::writer(rt),
    );
    conclude(&mut rt.stderr(), &outcome)
}

/// The status of two files that are bucked.
fn bucked<T: Threads + Sync>(threads: &T, rt: &HostRuntime, apt: &'static str) -> u8 {
    let task = BuckTask {
        apt,
        stm: "pine.stm",
        threads: None,
    };
    let outcome = serve_buck(
        threads,
        rt.alloc(),
        &task,
        &Nobody,
        &mut Disk::of(rt, rt.alloc(), &Desk::of(0)),
        &mut io::writer(rt),
    );
    conclude(&mut rt.stderr(), &outcome)
}

/// The status of the morning: that of its last run, or another where an earlier one fails.
pub fn status<T: Threads + Wait + Sync>(threads: &T, rt: &HostRuntime) -> u8 {
    let stms = ["morning_1.stm", "morning_2.stm", "morning_3.stm"];
    if harvested(threads, rt, Order::AtOnce, &stms[..1]) != 0 {
        return 10;
    }
    if checked(threads, rt) != 0 {
        return 11;
    }
    if harvested(threads, rt, Order::InTurn, &stms) != 0 {
        return 12;
    }
    if checked(threads, rt) != 0 {
        return 13;
    }
    if bucked(threads, rt, "pine.apt") != 0 {
        return 14;
    }
    bucked(threads, rt, "refused.apt")
}
