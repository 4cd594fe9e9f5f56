//! The front: the one word that says which version is the newest, and every step on it.
ghost use Rattle.std.specs.Prelude.{◌≡◌, ◌≤◌, ◌<◌, All, IfOk, vec_len};

use crate::rule::{Alike, Raise, Read, Seen};
use crate::seat::BoardSeat;
use atomic_table::Table;
use std::alloc::{AllocError, Global};

/// The word, and what the seats have seen of it.
#[derive(Drop)]
pub struct Front {
    pub(crate) table: Table<(), u64, (), Seen, Global>,
    ghost one_word: { table.shared.table_id.words ≡ 1 },
}

impl Front {
    ghost use Rattle.buck_board.specs.Board.{IsSeatAt};

    /// The word 0, with a first seat that has seen 0. Refused only if an allocation failed.
    pub fn open(alloc: Global) -> Result<(Front, BoardSeat), AllocError>
        ensures place { IfOk result (λ f. IsSeatAt f.0 f.1) }
        ensures seen { IfOk result (λ f. f.1.seen ≡ 0) }
    {
        // The table is made: word and view are 0.
        let (table, place) = Table::of_words(alloc, &[0], &())?;
        Ok((Front { table }, BoardSeat::newcomer(place)))
    }

    /// A further seat, which has seen as much as this one.
    pub fn another(&self, seat: &mut BoardSeat) -> BoardSeat
        requires { IsSeatAt self.now seat.old }
        ensures place { IsSeatAt self.now seat.new }
        ensures further { IsSeatAt self.now result }
        ensures seen { seat.new.seen ≡ seat.old.seen }
        ensures alike { result.seen ≡ seat.old.seen }
    {
        // A split: one load of the word, and one view more; no view that was there changes.
        let place = self.table.shared.split_seat::<Alike>(&mut seat.place);
        BoardSeat {
            place,
            seen: seat.seen,
        }
    }

    /// Loads the word, and answers it; the seat has seen that version from then on.
    pub fn read(&self, seat: &mut BoardSeat) -> u32
        requires { IsSeatAt self.now seat.old }
        ensures place { IsSeatAt self.now seat.new }
        ensures rises { seat.old.seen ≤ seat.new.seen }
        ensures seen { result ≡ seat.new.seen }
    {
        // Read: the seat's view becomes the word, and nothing else changes.
        let version = self.table.shared.load::<Read>(&mut seat.place, 0) as u32;
        seat.seen = version;
        version
    }

    /// Raises the word to this version, if it is less; the seat has seen the greater of the two from then on.
    pub fn raise(&self, seat: &mut BoardSeat, version: u32)
        requires { IsSeatAt self.now seat.old }
        ensures place { IsSeatAt self.now seat.new }
        ensures version { version ≤ seat.new.seen }
        ensures rises { seat.old.seen ≤ seat.new.seen }
    {
        // Raise: the word and the seat's view become the greater of the word and the version, and nothing else changes.
        let table = &self.table.shared;
        let found = table.fetch_max::<Raise>(&mut seat.place, 0, u64::from(version));
        seat.seen = found.max(u64::from(version)) as u32;
    }

    /// As many seats as asked for, the first of them and further ones. Refused only if an allocation failed.
    pub fn seats(
        &self,
        alloc: Global,
        mut first: BoardSeat,
        seats: u32,
    ) -> Result<Vec<BoardSeat>, AllocError>
        requires place { IsSeatAt self.now first }
        requires seen { first.seen ≡ 0 }
        requires some { 0 < seats }
        ensures number { IfOk result (λ all. vec_len all ≡ seats) }
        ensures places { IfOk result (λ all. All (IsSeatAt self.now) all.items) }
        ensures seen { IfOk result (λ all. All (λ s. s.seen ≡ 0) all.items) }
    {
        let mut all = Vec::with_capacity(alloc, seats as usize)?;
        for _ in 1..seats {
            all.push(self.another(&mut first))?;
        }
        all.push(first)?;
        Ok(all)
    }
}
