//! Harvester 1 is held after its plan while calls of others are answered.
use buck_fleet::{Closed, Path};
use fixture_plays::fixtures::*;
use fixture_plays::play::Do;
use fixture_plays::stage::{Stage, Told};
use fixture_plays::turns::*;
use std::alloc::Global;
use std::sync::Wait;
use std::test::Fail;
use std::thread::Threads;

/// So many first plans of harvester 1 are held, each until so many calls of others were answered; what each harvester
/// does; the answers to all calls, or the last one, and the versions of harvester 1's plans.
#[derive(Clone, Copy)]
struct Row {
    held: (u64, u64),
    period: u32,
    lists: &'static [&'static [Do<'static>]],
    told: &'static [(u32, Told)],
    postings: usize,
    versions: &'static [u32],
}

/// One cut.
const CUT: &[Do<'static>] = &[Do::Cut(41)];

/// One cut once harvester 1 has made a plan.
const CUT_LATER: &[Do<'static>] = &[Do::Await(1), Do::Cut(41)];

const ROWS: [Row; 7] = [
    // The plan is stale by then, and a second one, under the next sheet, is committed.
    Row {
        held: (1, 1),
        period: 1,
        lists: &[CUT, CUT_LATER],
        told: &[
            (2, Told::Cut(0, 1, Path::Optimistic)),
            (1, Told::Cut(1, 2, Path::Optimistic)),
        ],
        postings: 2,
        versions: &[0, 1],
    },
    // Held in all three attempts it then plans under the lock.
    Row {
        held: (3, 1),
        period: 1,
        lists: &[
            CUT,
            &[
                Do::Await(1),
                Do::Cut(41),
                Do::Await(2),
                Do::Cut(41),
                Do::Await(3),
                Do::Cut(41),
            ],
        ],
        told: &[
            (2, Told::Cut(0, 1, Path::Optimistic)),
            (2, Told::Cut(1, 1, Path::Optimistic)),
            (2, Told::Cut(2, 1, Path::Optimistic)),
            (1, Told::Cut(3, 3, Path::Locked)),
        ],
        postings: 4,
        versions: &[0, 1, 2],
    },
    // A call of another that doesn't end the period leaves the plan as good as it was.
    Row {
        held: (1, 1),
        period: 2,
        lists: &[CUT, CUT_LATER],
        told: &[
            (2, Told::Cut(0, 1, Path::Optimistic)),
            (1, Told::Cut(1, 1, Path::Optimistic)),
        ],
        postings: 2,
        versions: &[0],
    },
    // Two calls of another end the period.
    Row {
        held: (1, 2),
        period: 2,
        lists: &[CUT, &[Do::Await(1), Do::Cut(41), Do::Cut(41)]],
        told: &[
            (2, Told::Cut(0, 1, Path::Optimistic)),
            (2, Told::Cut(1, 1, Path::Optimistic)),
            (1, Told::Cut(2, 2, Path::Optimistic)),
        ],
        postings: 3,
        versions: &[0, 1],
    },
    // A demand of another ends the period, though no stem was cut in it.
    Row {
        held: (1, 1),
        period: 1000,
        lists: &[CUT, &[Do::Await(1), Do::Retarget(&[0, 0, 0, 4])]],
        told: &[(2, Told::Demand(0)), (1, Told::Cut(1, 2, Path::Optimistic))],
        postings: 2,
        versions: &[0, 1],
    },
    // One harvester alone never plans under the lock: each first plan is committed, under the newest sheet.
    Row {
        held: (0, 0),
        period: 1,
        lists: &[&[Do::Cut(41), Do::Cut(41), Do::Cut(41)]],
        told: &[
            (1, Told::Cut(0, 1, Path::Optimistic)),
            (1, Told::Cut(1, 1, Path::Optimistic)),
            (1, Told::Cut(2, 1, Path::Optimistic)),
        ],
        postings: 3,
        versions: &[0, 1, 2],
    },
    // The calls of three other harvesters begin and end while harvester 1 stands between its plan and its commit: nobody
    // holds the lock while planning.
    Row {
        held: (1, 3),
        period: 4,
        lists: &[CUT, CUT_LATER, CUT_LATER, CUT_LATER],
        told: &[(1, Told::Cut(3, 1, Path::Optimistic))],
        postings: 4,
        versions: &[0],
    },
];

/// Whether the answers to the calls were those of a row, harvester 1 made its plans for stems of 4,000 mm, and there is a
/// posting for each call.
fn has_gone<R: Wait>(rt: &R, closed: &Closed, stage: &Stage, row: Row) -> bool {
    let is_told = match row.told {
        [(harvester, told)] => stage.was_told_last(rt, *harvester, *told),
        all => stage.has_told(rt, all),
    };
    is_told
        && stage.has_noted(rt, row.versions, LONG)
        && closed.entries().len() == row.postings
        && has_all_kept(closed)
}

/// Lists of their own of what harvesters do.
fn owned(alloc: Global, lists: &[&'static [Do<'static>]]) -> Result<Vec<Vec<Do<'static>>>, Fail> {
    let mut all = Vec::new(alloc);
    for list in lists {
        all.push(Vec::from_slice(alloc, list)?)?;
    }
    Ok(all)
}

/// A play of a row.
fn play<R: Threads + Wait + Sync>(
    rt: &R,
    alloc: Global,
    row: Row,
    stage: &Stage,
) -> Result<Closed, Fail> {
    let lists = owned(alloc, row.lists)?;
    if lists.len() == 0 || lists.len() > 64 {
        return Err(Fail::new("not 1 to 64 lists"));
    }
    steady_lists(rt, alloc, row.period, lists.as_slice(), stage)
}

/// Whether a row holds.
fn holds<R: Threads + Wait + Sync>(rt: &R, alloc: Global, row: Row) -> Result<bool, Fail> {
    let stage = Stage::holding(alloc, row.held.0, row.held.1)?;
    let closed = play(rt, alloc, row, &stage)?;
    Ok(has_gone(rt, &closed, &stage, row))
}

#[test]
fn lock_held_while_planning(rt: HostRuntime) -> Result<(), Fail> {
    for row in ROWS {
        assert!(rt; holds(&rt, rt.alloc(), row)?);
    }
    Ok(())
}
