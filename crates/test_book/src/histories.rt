//! Histories worked out by hand.
ghost use Rattle.std.specs.Prelude.{◌≡◌};
ghost use Rattle.buck_rule.specs.Stored.{Answers};

use crate::callers::{cut, demand};
use crate::fixtures::*;
use buck_book_postings::Book;
use buck_rule::{Rule, Standing, step};
use buck_stem_shape::Stem;
use std::sync::Arc;
use std::test::Fail;

/// What harvester 1 does: it cuts a stem of 800 mm and 250 mm, or puts new targets in force.
#[derive(Clone, Copy)]
enum Does {
    Cut,
    Demand([u32; 4]),
}

/// The period, what is done, the class counts, and the journal: by the step rule.
type History = (u32, &'static [Does], [u32; 4], &'static [Part]);

/// What a log of 800 mm is that opens a history.
const FIRST: Part = Part::Cut(1, 0, 800, LONG);

const HISTORIES: [History; 6] = [
    (1, &[], [0; 4], &[BASE]),
    (
        1,
        &[Does::Cut, Does::Cut],
        [0, 0, 1, 1],
        &[
            BASE,
            LESS_LONG,
            LESS_OF_BOTH,
            FIRST,
            Part::Cut(2, 1, 600, SHORT),
        ],
    ),
    (
        1,
        &[Does::Cut, Does::Demand([0, 0, 0, 4]), Does::Cut],
        [0, 0, 0, 2],
        &[
            BASE,
            LESS_LONG,
            BASE,
            BASE,
            FIRST,
            Part::Demand(2, 1, [0, 0, 0, 4]),
            Part::Cut(3, 2, 800, LONG),
        ],
    ),
    (
        2,
        &[Does::Cut, Does::Demand([1; 4]), Does::Cut, Does::Cut],
        [0, 0, 2, 1],
        &[
            BASE,
            LESS_LONG,
            LESS_OF_BOTH,
            FIRST,
            Part::Demand(2, 0, [1; 4]),
            Part::Cut(3, 1, 600, SHORT),
            Part::Cut(4, 1, 600, SHORT),
        ],
    ),
    (
        1,
        &[Does::Demand([0; 4])],
        [0; 4],
        &[BASE, BASE, Part::Demand(1, 0, [0; 4])],
    ),
    (
        2,
        &[Does::Cut, Does::Demand([0, 0, 0, 4]), Does::Demand([1; 4])],
        [0, 0, 0, 1],
        &[
            BASE,
            BASE,
            LESS_LONG,
            FIRST,
            Part::Demand(2, 0, [0, 0, 0, 4]),
            Part::Demand(3, 1, [1; 4]),
        ],
    ),
];

/// Does one thing in a book.
fn do_one<F: Fn(&Standing) -> u64 + Drop>(
    rt: &HostRuntime,
    book: &mut Book<F>,
    stem: &Arc<Stem>,
    what: Does,
) -> Result<(), Fail>
    requires { Answers F.Fn book.old.rule }
    ensures { book.new.rule ≡ book.old.rule }
{
    match what {
        Does::Cut => {
            let _ = cut(rt.alloc(), book, stem, 1)?;
        }
        Does::Demand(targets) => {
            let targets = targets_of(rt.alloc(), targets.as_slice())?;
            let _ = demand(rt.alloc(), book, &targets, 1)?;
        }
    }
    Ok(())
}

/// Does some things in a book, one after the other.
fn do_all<F: Fn(&Standing) -> u64 + Drop>(
    rt: &HostRuntime,
    book: &mut Book<F>,
    stem: &Arc<Stem>,
    does: &[Does],
) -> Result<(), Fail>
    requires { Answers F.Fn book.old.rule }
    ensures { book.new.rule ≡ book.old.rule }
{
    for what in does {
        do_one(rt, book, stem, *what)?;
    }
    Ok(())
}

/// Whether the history of a row is as it was worked out.
fn is_right(rt: &HostRuntime, row: History) -> Result<bool, Fail> {
    let stem = short_stem(rt.alloc())?;
    let rule = Rule::new(|s: &Standing| step(s));
    let mut book = Book::open(rt.alloc(), short_saw(rt.alloc(), row.0)?, rule, 10)?;
    do_all(rt, &mut book, &stem, row.1)?;
    Ok(book.counts() == row.2.as_slice() && has_journal(rt.alloc(), &book, row.3)?)
}

#[test]
fn histories(rt: HostRuntime) -> Result<(), Fail> {
    for row in HISTORIES {
        assert!(rt; is_right(&rt, row)?);
    }
    Ok(())
}
