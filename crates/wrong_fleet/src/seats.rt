//! Wrong bodies of what is asked of a seat.
ghost use Rattle.std.specs.Prelude.{◌≢◌, []};
ghost use Rattle.buck_fleet.specs.Seat.{seen_of};

use buck_fleet::Seat;
use std::sync::ledger::Ledger;

/// Each seat is harvester 1's.
pub fn harvester_is_the_first<L: Ledger>(seat: &Seat<L>)
    requires { seat.now.harvester ≢ 1 }
{
    let right = seat.harvester();
    let wrong = 1;
    prove!(right != wrong);
}

/// No version was seen.
pub fn seen_is_nothing<L: Ledger>(seat: &Seat<L>)
    requires { seen_of seat.now ≢ 0 }
{
    let right = seat.seen();
    let wrong = 0;
    prove!(right != wrong);
}

/// Nothing was kept.
pub fn kept_hidden<L: Ledger>(seat: &Seat<L>)
    requires { seat.now.kept ≢ [] }
{
    let right = seat.kept().len();
    let wrong = 0;
    prove!(right != wrong);
}
