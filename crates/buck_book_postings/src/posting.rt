//! Postings of a history: cuts and demands.
ghost use Rattle.std.specs.Prelude.{◌≡◌, ◌↔◌, IfOk, IsTrue};
ghost use Rattle.buck_book_postings.specs.Posting.{harvester_of};

use crate::entry::Entry;
use buck_record::Memory;
use std::marker::Model;
use std::sync::Arc;

/// How many postings a history may have: the greatest capacity of a book and of a fleet, and the greatest length of a
/// journal.
pub const MOST_POSTINGS: u32 = 1_000_000;

/// New targets that come into force.
#[derive(Drop)]
pub struct Demand {
    /// Number of the harvester that put them in force, 1 to 64.
    pub harvester: u32,
    /// Which of its harvester's postings it is, from 1.
    pub number: u32,
    /// Version in force before it, from 0; the next one begins after it.
    pub version: u32,
    /// The target of each class from here on, a number of logs, towards which all logs of the history count: assortment
    /// by assortment, row by row. Each is 0 to 1,000,000 if the demand is valid.
    pub targets: Arc<Vec<u32>>,
}

impl Model for Demand {
    ghost use Rattle.buck_book_postings.specs.Entry.{DemandParts};

    ghost Value = { DemandParts };

    ghost view = { λ d. record {
      harvester = d.harvester;
      number = d.number;
      version = d.version;
      targets = d.targets.value.items;
    } };
}

/// A posting of a history: a cut or a demand.
#[derive(Drop)]
pub enum Posting {
    /// A stem was cut.
    Cut(Entry),
    /// New targets came into force.
    Demand(Demand),
}

/// A posting with its position in the history, as it is kept for the harvester who was answered it.
#[derive(Drop)]
pub struct Kept {
    /// Index of the posting in the history, from 0.
    pub position: u32,
    /// The entry or the demand.
    pub entry: Posting,
}

impl Demand {
    /// A second demand of the same value, made of equal targets.
    pub fn sharing(&self, targets: Arc<Vec<u32>>) -> Demand
        requires { targets.value.items ≡ self.now.targets }
        ensures { result ≡ self.now }
    {
        Demand {
            harvester: self.harvester,
            number: self.number,
            version: self.version,
            targets,
        }
    }

    /// A second demand of the same value, which shares the targets. Refused as `Memory` alone.
    pub fn clone(&self) -> Result<Demand, Memory>
        ensures { IfOk result (λ d. d ≡ self.now) }
    {
        Ok(self.sharing(self.targets.clone()?))
    }

    /// Whether all parts are equal: the targets too.
    pub fn same(&self, other: &Demand) -> bool
        ensures { IsTrue result ↔ (self.now ≡ other.now) }
    {
        self.harvester == other.harvester
            && self.number == other.number
            && self.version == other.version
            && self.targets.as_slice() == other.targets.as_slice()
    }
}

impl Posting {
    /// The harvester whose it is, from 1.
    pub fn harvester(&self) -> u32
        ensures { result ≡ harvester_of self.now }
    {
        match self {
            Posting::Cut(entry) => entry.harvester,
            Posting::Demand(demand) => demand.harvester,
        }
    }

    /// A second posting of the same value, which shares what the first holds. Refused as `Memory` alone.
    pub fn clone(&self) -> Result<Posting, Memory>
        ensures { IfOk result (λ x. x ≡ self.now) }
    {
        match self {
            Posting::Cut(entry) => Ok(Posting::Cut(entry.clone()?)),
            Posting::Demand(demand) => Ok(Posting::Demand(demand.clone()?)),
        }
    }

    /// Whether all parts are equal.
    pub fn same(&self, other: &Posting) -> bool
        ensures { IsTrue result ↔ (self.now ≡ other.now) }
    {
        match (self, other) {
            (Posting::Cut(one), Posting::Cut(two)) => one.same(two),
            (Posting::Demand(one), Posting::Demand(two)) => one.same(two),
            _ => false,
        }
    }
}
