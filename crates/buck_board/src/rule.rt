//! What holds of the front between any two steps, and what each step tells the seat that takes it.
ghost use Rattle.buck_board.specs.Front.{IsFront, Reads, Raises};

use atomic_table::{Play, Split, TableRule};

/// The rule that holds between any two steps on the word; a view is the newest version that a seat has seen.
pub struct Seen;

impl TableRule<(), u64, ()> for Seen {
    ghost holds = { λ _. IsFront };

    ghost first = { λ _. 0 };
}

/// The step by which a seat reads the front.
pub struct Read;

impl Play<(), u64> for Read {
    ghost then = { Reads };
}

/// The step by which a seat raises the front.
pub struct Raise;

impl Play<(), u64> for Raise {
    ghost then = { Raises };
}

/// After a seat becomes two, both have seen as much as the one had.
pub struct Alike;

impl Split<u64> for Alike {
    ghost left = { λ seen. seen };

    ghost right = { λ seen. seen };
}
