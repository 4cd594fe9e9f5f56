//! The figures of lawful journals.
ghost use Rattle.std.specs.Prelude.{◌≡◌, ◌*◌, ◌<◌, ◌≤◌, ◌^◌, vec_len, length};
ghost use Rattle.buck_apt_instruction.specs.Instruction.{classes};
ghost use Rattle.buck_page_figures.specs.Journals.{postings_of};
ghost use Rattle.buck_book_postings.specs.declared.posting.TheConstants.{MOST_POSTINGS};

use crate::degrees::Degrees;
use crate::owns::Own;
use crate::sums::Sums;
use buck_apt_instruction::{Class, Instruction};
use buck_book_journal::Journal;
use buck_book_postings::Entry;
use buck_dp::Cutting;
use buck_value::Log;
use std::collections::BTreeMap;
use std::sync::Arc;

/// A log as it was cut.
#[derive(Clone, Copy)]
pub struct Piece {
    pub log: Log,
    pub class: Class,
    /// Index of its class among all, from 0.
    pub index: usize,
    /// The diameter in mm where its length ends.
    pub top: u32,
    /// Volume in cm³.
    pub volume: u64,
    /// Price of its class in force when it was planned, in price units per m³ or per piece.
    pub price: u32,
    /// Worth at that price, in millionths of the price unit.
    pub worth: u64,
    /// Base price of its class, in price units per m³ or per piece.
    pub base_price: u32,
    /// Worth at the base price, in millionths of the price unit.
    pub base_worth: u64,
}

/// A place among the postings of several journals.
#[derive(Clone, Copy, Debug, PartialEq, Eq)]
pub struct Place {
    /// Index of the journal, from 0.
    pub journal: usize,
    /// Index of the posting in it, from 0.
    pub at: usize,
}

/// A cut with what a page says of it.
#[derive(Drop)]
pub struct Cut<'a> {
    pub place: Place,
    pub entry: &'a Entry,
    /// Its logs, from the butt on.
    pub pieces: Vec<Piece>,
    /// Their worth at base prices, in millionths of the price unit.
    pub at_base: u64,
    /// The best cutting of its stem at base prices.
    pub unsteered: Cutting,
    /// Worth of that one, in millionths of the price unit.
    pub best: u64,
    ghost no_better_than_best: { at_base ≤ best },
}

/// How all stands after some postings: a point of the curves.
#[derive(Drop)]
pub struct Point<'a> {
    /// Number of postings before it, through all journals.
    pub after: usize,
    /// Index of the journal in which the last of them stands, from 0.
    pub journal: usize,
    /// Version in force: the number of period ends in that journal.
    pub version: u32,
    /// Prices of that version, in price units: assortment by assortment, row by row.
    pub prices: &'a [u32],
    /// Degrees of apportionment of each assortment by the targets in force, as cut.
    pub degrees: Vec<Degrees>,
    /// The degrees that the best cuttings at base prices have.
    pub unsteered: Vec<Degrees>,
    /// A demand came since the point before.
    pub demand: bool,
}

/// The sums of an assortment's logs.
#[derive(Clone, Copy)]
pub struct Part {
    /// Number of logs.
    pub logs: u64,
    /// Volume in cm³.
    pub volume: u128,
    /// Length of the logs together, in mm, trim excluded.
    pub logged: u128,
    /// Worth at base prices, in millionths of the price unit.
    pub at_base: u128,
    ghost small: { (logs < 2 ^ 32) × (volume ≤ logs * 2 ^ 64) × (logged ≤ logs * 2 ^ 64) × (at_base ≤ logs * 2 ^ 64) },
}

/// The figures of some lawful journals of one instruction, of which each begins with its base prices and its targets.
#[derive(Drop)]
pub struct Figures<'a> {
    pub instruction: &'a Instruction,
    /// The journals, in their order. There is one at least.
    pub journals: &'a [Journal],
    /// Number of postings that they have together.
    pub postings: usize,
    /// Number of logs cut of each class: assortment by assortment, row by row.
    pub counts: Vec<u32>,
    /// Number of logs of each class in the best cuttings at base prices.
    pub unsteered: Vec<u32>,
    /// Targets in force at the end of the last journal, in logs of each class.
    pub targets: Arc<Vec<u32>>,
    /// Prices in force there, in price units, for each class.
    pub prices: &'a [u32],
    pub total: Sums,
    /// By the harvester's number, from 1: those that have a posting.
    pub harvesters: BTreeMap<u32, Own>,
    /// The logs cut, for each assortment.
    pub assortments: Vec<Part>,
    /// The logs of the best cuttings at base prices, for each assortment.
    pub unsteered_assortments: Vec<Part>,
    pub points: Vec<Point<'a>>,
    /// Index, from 0 through all journals, of the first posting of the longest stem; none if every length is 0 mm.
    pub longest: Option<usize>,
    /// Index, from 0 through all journals, of the first posting whose steering cost most; none if it cost nothing.
    pub dearest: Option<usize>,
    ghost some_journal: { 0 < length journals.now },
    ghost few: { length (postings_of journals.now) ≤ MOST_POSTINGS },
    ghost counts_number: { vec_len counts ≡ classes instruction.now },
    ghost unsteered_number: { vec_len unsteered ≡ classes instruction.now },
    ghost targets_number: { vec_len targets.value ≡ classes instruction.now },
    ghost prices_number: { length prices.now ≡ classes instruction.now },
    ghost assortments_number: { vec_len assortments ≡ length instruction.now.assortments },
    ghost unsteered_assortments_number: { vec_len unsteered_assortments ≡ length instruction.now.assortments },
}
