//! Candidate lists: what the logs of some takers are bid by length and trim, at each diameter of a band.
ghost use Rattle.std.specs.Prelude.{◌≡◌, ◌+◌, ◌<◌, ◌≤◌, ◌⊎◌, IfOk, OnOk, IfSome, IfNone, IsTrue, List, Contains, length, slice_get, Some};
ghost use Rattle.buck_value.specs.Sheet.{IsSheet};
ghost use Rattle.buck_dp.specs.inner.LogTypes.{IsBand, IsBandOf, IsLogTypeOf, AreLogTypes};
ghost use Rattle.buck_dp.specs.inner.Candidates.{candidate_bid, IsSmall, IsLed, IsTied, IsLeader, IsNext, IsClassAt, HasNoPrice, AreTerms, AreCandidates};
ghost use Rattle.buck_dp.specs.declared.log_types.LogType.{LogType};

use crate::assortment_sets::AssortmentSet;
use crate::bid::{Bid, HIGHEST_RANK};
use crate::ends::point_from;
use crate::log_types::LogType;
use buck_apt_instruction::{Assortment, Class, Instruction};
use buck_value::{Sheet, bought_row, column_of, volume_of, worth_of_piece};
use std::alloc::{AllocError, Global};

/// What an assortment bids for its logs of one length at each diameter of a band, but for the price, which is that of
/// the class in a sheet: per cubic metre or per piece, by the kind.
#[derive(Clone, Copy, Debug, Default)]
pub struct Term {
    /// Index of the assortment in the instruction, from 0.
    pub assortment: u8,
    /// The price kind: 1 per m³, 2 per piece.
    pub kind: u8,
    /// Index of its price's class among all, from 0.
    pub class: u16,
    /// The rank among the logs that start where it does, 0 to 1,023: the higher comes first.
    pub rank: u32,
    /// Length in mm, trim excluded.
    pub length: u32,
    /// Length in steps of the module.
    pub steps: u32,
    /// Trim in mm, 0 to 200.
    pub trim: u32,
    /// Number of points from the top to the first at which the next log can start.
    pub rise: u32,
}

/// A term at a price: it competes for a place in a candidate list.
#[derive(Clone, Copy, Debug, Default)]
pub struct Candidate {
    pub term: Term,
    /// The price in price units per m³ or per piece, by the term's kind; 0 to 20,000,000.
    pub price: u32,
}

/// The key under which a list is kept: whose it is, and in which band.
#[derive(Clone, Copy, Debug)]
pub struct ListKey {
    pub takers: AssortmentSet,
    pub band: Band,
}

impl Candidate {
    /// The bid for a log of a top diameter.
    #[inline(always)]
    pub fn bid(self, diameter: u32) -> Bid
        requires small { IsSmall self }
        requires diameter { diameter ≤ 2000 }
        ensures { result ≡ candidate_bid self diameter }
    {
        let volume = volume_of(diameter, self.term.length);
        let worth = worth_of_piece(self.term.kind, self.price, volume);
        Bid::of(worth, self.term.rank)
    }
}

/// The assortment of a log type.
#[tactic(auto, using(std::proofs::lemmas::Option::slice_get_within))]
fn assortment_of(instruction: &Instruction, log_type: LogType) -> &Assortment
    requires { IsLogTypeOf instruction.now log_type }
    ensures own { slice_get instruction.now.assortments log_type.assortment ≡ Some result.now }
    ensures few { log_type.assortment < 16 }
{
    &instruction.assortments()[usize::from(log_type.assortment)]
}

/// The place of the class of a log type's logs, or `None` if their assortment has no price for them.
#[tactic(auto, using(buck_value::proofs::Classes::column_none, buck_value::proofs::Classes::column_some))]
fn class_at(
    instruction: &Instruction,
    assortment: &Assortment,
    log_type: LogType,
    band: Band,
) -> Option<usize>
    requires own { slice_get instruction.now.assortments log_type.assortment ≡ Some assortment.now }
    requires band { IsBand assortment.now band.thinnest band.past }
    ensures class { IfSome result (IsClassAt instruction.now assortment.now log_type band) }
    ensures none { IfNone result (HasNoPrice assortment.now log_type band) }
{
    let column = column_of(assortment, log_type.length)?;
    let row = bought_row(assortment, column, band.thinnest)?;
    Some(instruction.index(Class {
        assortment: log_type.assortment,
        row: row as u8,
        column: column as u8,
    }))
}

/// The terms of all assortments in a band, in the order of the log types. Refused only if an allocation failed.
#[tactic(auto, using(crate::proofs::PricingLemmas::log_type_real, crate::proofs::PricingLemmas::classes_few))]
pub fn terms_of(
    alloc: Global,
    instruction: &Instruction,
    types: &[LogType],
    band: Band,
) -> Result<Vec<Term>, AllocError>
    requires types { AreLogTypes instruction.now types.now }
    requires band { IsBandOf instruction.now band.thinnest band.past }
    ensures { IfOk result (λ terms. AreTerms instruction.now types.now band (length types.now) terms.items) }
{
    let module = instruction.module();
    let mut terms = Vec::new(alloc);
    for place in 0..types.len() {
        let log_type = types[place];
        let assortment = assortment_of(instruction, log_type);
        let Some(class) = class_at(instruction, assortment, log_type, band) else {
            continue;
        };
        let trim = assortment.trim();
        terms.push(Term {
            assortment: log_type.assortment,
            kind: assortment.price_kind(),
            class: class as u16,
            rank: HIGHEST_RANK - place as u32,
            length: log_type.length,
            steps: log_type.length / module,
            trim,
            // To the first point after the trim, which need not be a multiple of the module: so one row has logs of all
            // trims.
            rise: point_from(module, trim),
        })?;
    }
    Ok(terms)
}

/// Whether a leader outbids a candidate of its price kind, for logs that are no longer and have no more trim: per cubic
/// metre from 36 mm on: a millimetre of such a log is more than the cubic centimetre that a whole volume may lack.
#[inline(always)]
fn is_led(leader: Candidate, candidate: Candidate) -> bool
    ensures { IsTrue result → IsLed leader candidate }
{
    let (lead, term) = (leader.term, candidate.term);
    let is_outbid = if lead.kind == 1 {
        term.kind == 1
            && u64::from(candidate.price) * u64::from(term.length) + u64::from(leader.price)
                < u64::from(leader.price) * u64::from(lead.length)
    } else {
        term.kind != 1 && candidate.price < leader.price
    };
    is_outbid && lead.trim <= term.trim && lead.steps <= term.steps
}

/// Whether a leader comes before a candidate of its price kind in the tie order and bids no less, for logs that are as
/// long and have no more trim.
#[inline(always)]
fn is_tied(leader: Candidate, candidate: Candidate) -> bool
    ensures { IsTrue result → IsTied leader candidate }
{
    let (lead, term) = (leader.term, candidate.term);
    lead.length == term.length
        && lead.steps == term.steps
        && lead.kind == term.kind
        && candidate.price <= leader.price
        && term.rank < lead.rank
        && lead.trim <= term.trim
}

/// Drops the last of a list if a candidate outbids it.
#[inline(always)]
fn drop_led(list: &mut Vec<Candidate>, candidate: &Candidate)
    ensures real { (x : Candidate) → Contains list.new.items x → Contains list.old.items x }
    ensures rest { (x : Candidate) → Contains list.old.items x → Contains list.new.items x ⊎ IsLed candidate.now x }
{
    if let Some(last) = list.last() {
        if is_led(*candidate, *last) {
            list.pop();
        }
    }
}

/// Puts a candidate behind others, unless their leader outbids it or ties with it. It leads these then, unless it has
/// more trim. If it outbids the last, that goes.
#[inline(always)]
fn put_candidate(
    list: &mut Vec<Candidate>,
    leader: &mut Candidate,
    candidate: Candidate,
    key: ListKey,
) -> Result<(), AllocError>
    requires leads { IsLeader key list.old.items leader.old }
    ensures next { OnOk result (IsNext key candidate list.old.items list.new.items) }
    ensures leads { OnOk result (IsLeader key list.new.items leader.new) }
{
    // One leader for each price kind, so that one comparison of two products decides. To compare across kinds would be
    // a tenth faster for mixed prices, but need two numbers for each leader; in rows it would find one cell in 7,000.
    if is_led(*leader, candidate) {
        return Ok(());
    }
    if is_tied(*leader, candidate) {
        return Ok(());
    }
    // Below 36 mm a millimetre of a log may be less than its volume is rounded by, so no candidate per cubic metre
    // leads.
    if candidate.term.trim <= leader.term.trim
        && (candidate.term.kind != 1 || key.band.thinnest >= 36)
    {
        *leader = candidate;
        drop_led(list, &candidate);
    }
    list.push(candidate)?;
    Ok(())
}

/// Puts a candidate list in the place of another: the candidates of those terms that are of takers, without those that
/// one of their price kind outbids in the whole band, or ties with, whose log is no longer. Refused only if an
/// allocation failed.
#[inline(never)]
pub fn put_list(
    candidates: &mut Vec<Candidate>,
    sheet: &Sheet,
    terms: &[Term],
    key: ListKey,
) -> Result<(), AllocError>
    requires valid { IsSheet sheet.now }
    requires terms { (types : List LogType) × AreTerms sheet.now.instruction types key.band (length types) terms.now }
    ensures { OnOk result ((types : List LogType)
        → AreTerms sheet.now.instruction types key.band (length types) terms.now
        → AreCandidates sheet.now types key candidates.new.items) }
{
    candidates.clear();
    // Leaders of no candidate: at price 0 they outbid nobody, and no trim is above theirs.
    let mut piece = Candidate::default();
    piece.term.trim = u32::MAX;
    let mut cubic = piece;
    cubic.term.kind = 1;
    let prices = sheet.prices();
    for term in terms {
        if !key.takers.contains(usize::from(term.assortment)) {
            continue;
        }
        let candidate = Candidate {
            term: *term,
            price: prices[term.class as usize],
        };
        if term.kind == 1 {
            put_candidate(candidates, &mut cubic, candidate, key)?;
        } else {
            put_candidate(candidates, &mut piece, candidate, key)?;
        }
    }
    Ok(())
}

/// A diameter in mm above all that a stem may have.
const ABOVE_ALL: u32 = 1_504;

/// A range of top diameters within which no assortment changes its row.
#[derive(Clone, Copy, Debug)]
pub struct Band {
    /// Least diameter of the band, in mm.
    pub thinnest: u32,
    /// Diameter in mm at which the band ends: it is no part of it.
    pub past: u32,
}

impl Band {
    /// Cuts off what lies beyond a limit as seen from a diameter within.
    fn cut(&mut self, limit: u32, diameter: u32)
        requires inside { (self.old.thinnest ≤ diameter) × (diameter < self.old.past) }
        ensures inside { (self.new.thinnest ≤ diameter) × (diameter < self.new.past) }
        ensures narrower { (self.old.thinnest ≤ self.new.thinnest) × (self.new.past ≤ self.old.past) }
        ensures apart { (limit ≤ self.new.thinnest) ⊎ (self.new.past ≤ limit) }
    {
        if limit <= diameter {
            self.thinnest = self.thinnest.max(limit);
        } else {
            self.past = self.past.min(limit);
        }
    }

    /// Cuts off what lies beyond each limit of an assortment: no row of that starts or ends in what is left.
    fn cut_by(&mut self, assortment: &Assortment, diameter: u32)
        requires inside { (self.old.thinnest ≤ diameter) × (diameter < self.old.past) }
        ensures inside { (self.new.thinnest ≤ diameter) × (diameter < self.new.past) }
        ensures narrower { (self.old.thinnest ≤ self.new.thinnest) × (self.new.past ≤ self.old.past) }
        ensures band { IsBand assortment.now self.new.thinnest self.new.past }
    {
        self.cut(assortment.upper(), diameter);
        for limit in assortment.diameters() {
            self.cut(*limit, diameter);
        }
    }
}

/// The band of a diameter: those around it in mm within which no assortment changes its row, or takes no more logs.
pub fn band_around(instruction: &Instruction, diameter: u32) -> Band
    requires diameter { diameter ≤ 1500 }
    ensures within { (result.thinnest ≤ diameter) × (diameter < result.past) }
    ensures band { IsBandOf instruction.now result.thinnest result.past }
{
    let mut band = Band {
        thinnest: 0,
        past: ABOVE_ALL,
    };
    for assortment in instruction.assortments() {
        band.cut_by(assortment, diameter);
    }
    band
}
