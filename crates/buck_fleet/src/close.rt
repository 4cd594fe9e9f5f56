//! How a fleet is closed, and what it hands out.
ghost use Rattle.std.specs.Prelude.{◌≡◌, ◌≢◌, ℕ, ◌-◌, ◌<◌, ◌≤◌, ◌==◌, ◌↔◌, [], length, map, All, IsTrue, IfOk, IfErr, IfNone, IfSome, Some, slice_get, slice_index_or};
ghost use Rattle.std.specs.List.{sum_by};
ghost use Rattle.buck_book_postings.specs.Posting.{harvester_of, targets_of};
ghost use Rattle.buck_book_postings.specs.Targets.{AreTargets};
ghost use Rattle.buck_book_postings.specs.Counts.{AreClassCounts};
ghost use Rattle.buck_book_postings.specs.History.{IsLawful, in_force};
ghost use Rattle.buck_book_postings.specs.Book.{sheets_from};
ghost use Rattle.buck_fleet.specs.Crew.{IsCrew, parts_of};
ghost use Rattle.buck_book_postings.specs.Replies.{replies_from, replies_of};
ghost use Rattle.buck_fleet.specs.Closed.{ClosedParts, kept_by, lists_of, IsHandedOut, IsOneHistory, IsCloseFault, DifferFirstAt};
ghost use Rattle.buck_book_postings.specs.declared.posting.TheConstants.{MOST_POSTINGS};
ghost use Rattle.buck_fleet.specs.declared.seat.TheConstants.{MOST_SEATS};

use crate::desk::Desk;
use crate::fleet::Fleet;
use crate::seat::Seat;
use buck_apt_instruction::Instruction;
use buck_book_postings::{Kept, Parts, Posting};
use buck_fleet_close_fault::CloseFault;
use buck_value::Sheet;
use std::marker::Model;
use std::sync::Arc;
use std::sync::ledger::{Ledger, Share};

/// The result of a closed fleet: a lawful history, and the postings that each seat kept.
#[derive(Drop)]
pub struct Closed {
    parts: Parts,
    kept: Vec<Vec<Kept>>,
}

impl Model for Closed {
    ghost use Rattle.buck_fleet.specs.Closed.{ClosedParts, lists_of};

    ghost Value = { ClosedParts };

    ghost view = { λ c. record { history = c.parts; kept = lists_of c.kept.items } };
}

/// Puts each seat's kept list in its harvester's place, and takes its share in.
fn collect<L: Ledger>(seats: Vec<Seat<L>>, kept: &mut Vec<Vec<Kept>>, all: &mut Share<L>)
    requires crew { IsCrew (length kept.old.items) seats.items }
    requires empty { All (λ l. l ≡ []) (lists_of kept.old.items) }
    requires share { (all.old.parts ≡ 0) × (all.old.amount ≡ 0) }
    ensures lists { All (λ s. slice_index_or (lists_of kept.new.items) (s.harvester - 1) [] ≡ s.kept) seats.items }
    ensures number { length kept.new.items ≡ length kept.old.items }
    ensures parts { all.new.parts ≡ parts_of seats.items }
    ensures amount { all.new.amount ≡ sum_by length (lists_of kept.new.items) }
{
    let mut seats = seats;
    while let Some(seat) = seats.pop() {
        let its_place = &mut kept[seat.harvester as usize - 1];
        let own = seat.own;
        all.merge(own.share);
        *its_place = own.kept;
    }
}

/// Takes all seats in, holds what they kept against the ledger's total, and hands all out.
fn take_in<F: Drop, L: Ledger>(
    desk: Desk<F, L>,
    seats: Vec<Seat<L>>,
    kept: Vec<Vec<Kept>>,
) -> Closed
    requires crew { IsCrew (length kept.items) seats.items }
    requires empty { All (λ l. l ≡ []) (lists_of kept.items) }
    requires parts { parts_of seats.items ≡ L.parts }
    ensures { IsHandedOut (length kept.items) seats.items result }
{
    let Desk {
        book,
        mut calls,
        rest,
    } = desk;
    let mut kept = kept;
    let mut all = rest;
    collect(seats, &mut kept, &mut all);
    calls.audit(&mut all);
    let parts = book.into_parts();
    Closed { parts, kept }
}

/// Whether a posting of this position stands at a place of a kept list.
fn is_kept_at(kept: &[Kept], place: usize, position: usize, posting: &Posting) -> bool
    ensures { IsTrue result ↔ (slice_get kept.now place ≡ Some record { position = position; entry = posting.now }) }
{
    match kept.get(place) {
        Some(kept) => kept.position as usize == position && kept.entry.same(posting),
        None => false,
    }
}

/// The first number at which a harvester's kept list and its postings of a history differ, from 1.
fn first_difference(entries: &[Posting], kept: &[Kept], harvester: u32) -> Option<u32>
    requires few { length entries.now ≤ MOST_POSTINGS }
    ensures none { IfNone result (kept.now ≡ replies_from harvester 0 entries.now) }
    ensures some { IfSome result (λ number. DifferFirstAt number kept.now (replies_from harvester 0 entries.now)) }
{
    let mut k = 0usize;
    for (i, entry) in entries.iter().enumerate() {
        if entry.harvester() == harvester {
            if !is_kept_at(kept, k, i, entry) {
                return Some(k as u32 + 1);
            }
            k += 1;
        }
    }
    if k < kept.len() {
        return Some(k as u32 + 1);
    }
    None
}

impl Closed {
    /// The history, as a book hands it out.
    pub fn parts(&self) -> &Parts
        ensures { result.now ≡ self.now.history }
    {
        &self.parts
    }

    /// The instruction that the history is lawful for.
    pub fn instruction(&self) -> &Arc<Instruction>
        ensures { result.now.value ≡ self.now.history.instruction }
    {
        self.parts.instruction()
    }

    /// The sheets, by version from 0.
    pub fn sheets(&self) -> &[Arc<Sheet>]
        ensures sheets { map (λ a. a.value) result.now
            ≡ sheets_from 0 self.now.history.instruction self.now.history.sheets }
        ensures lawful { IsLawful self.now.history }
    {
        self.parts.sheets()
    }

    /// The sheet of the last version.
    pub fn last_sheet(&self) -> &Arc<Sheet>
        ensures { result.now.value ≡ in_force self.now.history }
    {
        self.parts.last_sheet()
    }

    /// The postings, in the order of their commits, at most 1,000,000.
    pub fn entries(&self) -> &[Posting]
        ensures postings { result.now ≡ self.now.history.postings }
        ensures lawful { IsLawful self.now.history }
        ensures few { length self.now.history.postings ≤ MOST_POSTINGS }
    {
        self.parts.entries()
    }

    /// The targets in force at the end, in logs of each class: those of the last demand, else the instruction's.
    pub fn targets(&self) -> &[u32]
        ensures targets { result.now ≡ targets_of self.now.history.instruction self.now.history.postings }
        ensures valid { AreTargets self.now.history.instruction result.now }
    {
        self.parts.targets()
    }

    /// How many logs were cut in each class, assortment by assortment and row by row.
    pub fn counts(&self) -> &[u32]
        ensures { AreClassCounts self.now.history.instruction self.now.history.postings result.now }
    {
        self.parts.counts()
    }

    /// The postings that each seat kept: at index k, from 0, those of harvester k + 1.
    pub fn kept(&self) -> &[Vec<Kept>]
        ensures { lists_of result.now ≡ self.now.kept }
    {
        self.kept.as_slice()
    }

    /// Why a fleet of this instruction doesn't close well.
    fn fault(&self, instruction: &Instruction) -> Option<CloseFault>
        requires seats { length self.now.kept ≤ MOST_SEATS }
        ensures same { IfNone result (self.now.history.instruction ≡ instruction.now) }
        ensures none { IfNone result ((h : ℕ) → 0 < h → h ≤ length self.now.kept
            → kept_by h self.now ≡ replies_of h self.now.history) }
        ensures some { IfSome result (IsCloseFault instruction.now (length self.now.kept) self.now) }
    {
        if !self.parts.instruction().same(instruction) {
            return Some(CloseFault::Instruction);
        }
        for (i, kept) in self.kept.iter().enumerate() {
            let harvester = i as u32 + 1;
            match first_difference(self.parts.entries(), kept.as_slice(), harvester) {
                Some(number) => return Some(CloseFault::Calls { harvester, number }),
                None => {}
            }
        }
        None
    }
}

impl<F: Drop, L: Ledger> Fleet<F, L> {
    /// Closes the fleet: takes all its seats in, in any order, and compares what each kept with the history. It takes
    /// no memory. If it returns `Ok`, the history is one of a single thread, and holds each seat's replies once and in
    /// their order and nothing else. Refused as `Instruction` if the book's instruction isn't the fleet's, else as
    /// `Calls`; the history is handed out all the same.
    pub fn close(self, seats: Vec<Seat<L>>) -> Result<Closed, (CloseFault, Closed)>
        requires crew { IsCrew self.seats seats.items }
        requires parts { parts_of seats.items ≡ L.parts }
        ensures ok { IfOk result (IsOneHistory self.instruction self.seats seats.items) }
        ensures handed_out { IfErr result (λ e. IsHandedOut self.seats seats.items e.1) }
        ensures fault { IfErr result (λ e. IsCloseFault self.instruction self.seats e.1 e.0) }
    {
        let Fleet {
            instruction,
            board: _,
            desk,
            kept,
        } = self;
        let closed = take_in(desk.into_inner(), seats, kept);
        // Compared in a function that borrows: one that owned desk, seats and book would take three times as long to
        // prove as the limit for a function allows.
        match closed.fault(&instruction) {
            Some(fault) => Err((fault, closed)),
            None => Ok(closed),
        }
    }
}
