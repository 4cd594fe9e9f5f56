//! Plays of one harvester alone: the answer to each call, and the postings and sheets at the end.
use buck_book_postings::TargetsFault;
use buck_fleet::{Closed, Path};
use fixture_plays::fixtures::*;
use fixture_plays::play::Do;
use fixture_plays::stage::{Stage, Told};
use fixture_plays::turns::*;
use std::alloc::Global;
use std::sync::Wait;
use std::test::Fail;
use std::thread::Threads;

/// What is done by the step rule, under the saw instruction with a period in stems, a limit per mille and a capacity.
#[derive(Clone, Copy)]
struct Row {
    saw: (u32, u32, u32),
    whats: &'static [Do<'static>],
    told: &'static [(u32, Told)],
    postings: &'static [Want],
    sheets: &'static [[u32; 4]],
}

const ROWS: [Row; 4] = [
    // Nothing speaks against any call; a body that always refuses answers none of these. A demand stands between two stems.
    Row {
        saw: (1, 500, 100),
        whats: &[
            Do::Cut(41),
            Do::Retarget(&[0, 0, 0, 4]),
            Do::Commit(41),
            Do::Look,
        ],
        told: &[
            (1, Told::Cut(0, 1, Path::Optimistic)),
            (1, Told::Demand(1)),
            (1, Told::Cut(2, 1, Path::Optimistic)),
            (1, Told::Shown(3)),
        ],
        postings: &[
            Want::Cut(OneLog(0, 4000, LONG)),
            Want::Demand(1, [0, 0, 0, 4]),
            Want::Cut(OneLog(2, 4000, LONG)),
        ],
        sheets: &[BASE, [600, 750, 900, 400], BASE, BASE],
    },
    // Cuts at the capacity.
    Row {
        saw: (1, 0, 1),
        whats: &[Do::Cut(41), Do::Cut(41), Do::Commit(41)],
        told: &[
            (1, Told::Cut(0, 1, Path::Optimistic)),
            (1, Told::Full),
            (1, Told::FullForPlan(LONG)),
        ],
        postings: &[Want::Cut(OneLog(0, 4000, LONG))],
        sheets: &[BASE, BASE],
    },
    // Demands at the capacity: `Full` comes before `Targets`.
    Row {
        saw: (1, 0, 1),
        whats: &[
            Do::Retarget(&[0, 0, 0, 4]),
            Do::Retarget(&[0, 0, 0, 4]),
            Do::Retarget(&[0, 0, 0]),
        ],
        told: &[(1, Told::Demand(0)), (1, Told::Full), (1, Told::Full)],
        postings: &[Want::Demand(0, [0, 0, 0, 4])],
        sheets: &[BASE, BASE],
    },
    // Targets that are refused.
    Row {
        saw: (1, 500, 100),
        whats: &[
            Do::Retarget(&[1, 1, 1]),
            Do::Retarget(&[1, 1, 1_000_001, 2_000_000]),
        ],
        told: &[
            (1, Told::Targets(TargetsFault::Count)),
            (1, Told::Targets(TargetsFault::Range { at: 2 })),
        ],
        postings: &[],
        sheets: &[BASE],
    },
];

/// Whether all postings and sheets are these, and each posting was kept.
fn has_come_to(closed: &Closed, row: &Row) -> bool {
    has_postings(closed, row.postings) && has_sheets(closed, row.sheets) && has_all_kept(closed)
}

/// Whether a row holds.
fn holds<R: Threads + Wait + Sync>(rt: &R, alloc: Global, row: Row) -> Result<bool, Fail> {
    let stage = Stage::open(alloc)?;
    let closed = step_play(rt, alloc, row.saw, row.whats, &stage)?;
    Ok(stage.has_told(rt, row.told) && has_come_to(&closed, &row))
}

#[test]
fn one_harvester_alone(rt: HostRuntime) -> Result<(), Fail> {
    for row in ROWS {
        assert!(rt; holds(&rt, rt.alloc(), row)?);
    }
    Ok(())
}
