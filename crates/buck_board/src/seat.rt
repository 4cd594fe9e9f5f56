//! Seats.
ghost use Rattle.std.specs.Prelude.{◌≡◌};

use atomic_table::Seat;

/// A reader's place at a board, with the newest version that it has seen. A thread reads and raises by its own.
#[derive(Drop)]
pub struct BoardSeat {
    pub(crate) place: Seat<(), u64>,
    pub(crate) seen: u32,
    ghost is_view: { place.me.0 ≡ seen },
}

impl BoardSeat {
    ghost use Rattle.buck_board.specs.Board.{seen_by};

    /// A seat that has seen version 0.
    pub(crate) fn newcomer(place: Seat<(), u64>) -> BoardSeat
        requires { place.me.0 ≡ 0 }
        ensures place { result.place.table_id ≡ place.table_id }
        ensures seen { result.seen ≡ 0 }
    {
        BoardSeat { place, seen: 0 }
    }

    /// The newest version that it has seen.
    pub fn seen(&self) -> u32
        ensures { result ≡ seen_by self.now }
    {
        self.seen
    }
}
