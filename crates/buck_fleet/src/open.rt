//! How a fleet is opened.
ghost use Rattle.std.specs.Prelude.{◌≡◌, ◌+◌, ◌<◌, ◌≤◌, [], length, All, OnOk, IfOk, IfErr, vec_len};
ghost use Rattle.buck_board.specs.Board.{IsSeatOf, seen_by};
ghost use Rattle.buck_fleet.specs.Crew.{AreOpened};
ghost use Rattle.buck_fleet.specs.Refused.{IsOpenFault};
ghost use Rattle.buck_fleet.specs.Closed.{lists_of};
ghost use Rattle.buck_fleet.specs.declared.open.OpenFault.TheVariants.{Memory};
ghost use Rattle.buck_fleet.specs.declared.seat.TheConstants.{MOST_SEATS};

use crate::desk::Desk;
use crate::fleet::Fleet;
use crate::seat::{MOST_SEATS, Seat};
use buck_apt_instruction::Instruction;
use buck_board::{Board, BoardSeat};
use buck_book_postings::{Book, Kept, MOST_POSTINGS};
use buck_record::Memory;
use buck_rule::{Rule, Standing};
use std::alloc::{AllocError, Global};
use std::sync::ledger::{Blank, Ledger, Share};
use std::sync::{Arc, Mutex, Wait};
use thiserror::Error;

/// Why a fleet isn't opened.
#[derive(Clone, Copy, PartialEq, Eq, Debug, Drop, Error)]
pub enum OpenFault {
    /// Not 1 to 64 seats.
    #[error("not 1 to 64 seats")]
    Seats,
    /// Not 1 to 1,000,000 postings.
    #[error("not 1 to 1000000 postings")]
    Capacity,
    /// An allocation failed.
    #[error("out of memory")]
    Memory,
}

impl From<AllocError> for OpenFault {
    ghost from_gives = { λ _ e. e ≡ Memory };

    fn from(_error: AllocError) -> OpenFault {
        OpenFault::Memory
    }
}

impl From<Memory> for OpenFault {
    ghost from_gives = { λ _ e. e ≡ Memory };

    fn from(_error: Memory) -> OpenFault {
        OpenFault::Memory
    }
}

/// Gives each harvester a seat, from the first on, with a place at the board and one part of the ledger, and makes an
/// empty list for what it will have kept. The first one has all parts that the others leave.
fn seat_all<L: Ledger>(
    alloc: Global,
    board: &Board,
    places: Vec<BoardSeat>,
    share: Share<L>,
    count: u32,
) -> Result<(Vec<Seat<L>>, Vec<Vec<Kept>>), Memory>
    requires count { (0 < count) × (count ≤ MOST_SEATS) × (vec_len places ≡ count) }
    requires places { All (IsSeatOf board.now) places.items }
    requires unseen { All (λ s. seen_by s ≡ 0) places.items }
    requires share { (share.parts ≡ 64) × (share.amount ≡ 0) }
    ensures seats { IfOk result (λ r. AreOpened board.now count r.0.items) }
    ensures number { IfOk result (λ r. length r.1.items ≡ count) }
    ensures empty { IfOk result (λ r. All (λ l. l ≡ []) (lists_of r.1.items)) }
{
    let mut seats = Vec::with_capacity(alloc, count as usize)?;
    let mut kept = Vec::with_capacity(alloc, count as usize)?;
    let mut share = share;
    let mut places = places;
    // Together the seats have all 64 parts, which the audit of `close` wants.
    let mut parts = u64::from(MOST_SEATS - count) + 1;
    while let Some(place) = places.pop() {
        let harvester = seats.len() as u32 + 1;
        let own = share.split_off(parts, 0);
        seats.push_reserved(Seat::make(alloc, harvester, place, own));
        kept.push_reserved(Vec::new(alloc));
        parts = 1;
    }
    Ok((seats, kept))
}

impl<F: Fn(&Standing) -> u64 + Drop, L: Ledger> Fleet<F, L> {
    /// A fleet with this many seats, 1 to 64, and an empty history that may have this many postings, 1 to 1,000,000.
    /// The blank is the one that the fleet's ledger is named by, of 64 parts. Refused as `Seats`, else as `Capacity`,
    /// and as `Memory` if an allocation failed.
    pub fn open<R: Wait>(
        rt: &R,
        alloc: Global,
        blank: Blank,
        instruction: Arc<Instruction>,
        rule: Rule<F>,
        seats: u32,
        capacity: u32,
    ) -> Result<(Fleet<F, L>, Vec<Seat<L>>), OpenFault>
        requires blank { (blank.name ≡ L.name) × (blank.parts ≡ L.parts) × (blank.parts ≡ 64) }
        ensures room { IfOk result (λ _.
            (0 < seats) × (seats ≤ MOST_SEATS) × (0 < capacity) × (capacity ≤ MOST_POSTINGS)) }
        ensures instruction { IfOk result (λ r. r.0.instruction ≡ instruction.value) }
        ensures number { IfOk result (λ r. r.0.seats ≡ seats) }
        ensures seats { IfOk result (λ r. AreOpened r.0.board seats r.1.items) }
        ensures fault { IfErr result (IsOpenFault seats capacity) }
    {
        if seats == 0 || seats > MOST_SEATS {
            return Err(OpenFault::Seats);
        }
        if capacity == 0 || capacity > MOST_POSTINGS {
            return Err(OpenFault::Capacity);
        }
        let shown = instruction.clone()?;
        let book = Book::open(alloc, instruction, rule, capacity)?;
        let (board, places) = Board::open(rt, alloc, seats, book.sheet().clone()?)?;
        let (calls, mut share) = blank.open::<L>();
        let rest = share.empty();
        let (made, kept) = seat_all(alloc, &board, places, share, seats)?;
        let fleet = Fleet {
            instruction: shown,
            board,
            desk: Mutex::new(Desk { book, calls, rest }),
            kept,
        };
        Ok((fleet, made))
    }
}
