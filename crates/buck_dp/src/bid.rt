//! Bids.
ghost use Rattle.std.specs.Prelude.{◌≡◌, ◌+◌, ◌≤◌};
ghost use Rattle.buck_dp.specs.declared.bid.TheConstants.{HIGHEST_RANK};
ghost use Rattle.buck_dp.specs.inner.Bid.{bid_of, none, most_worth, IsGreater};

use std::marker::Model;

/// The highest rank: that of the first in the tie order. Ranks are 0 to 1,023; 0 is that of no log.
pub const HIGHEST_RANK: u32 = 1023;

/// Number of ranks. A rank is the last digit of a bid's number, to this base.
const RANKS: u64 = HIGHEST_RANK as u64 + 1;

/// The bid of a log: its worth in millionths of the price unit, and its rank among the logs that start where it does,
/// which settles ties. One number holds both, so that one comparison settles the worth and then the rank.
#[derive(Clone, Copy, Debug)]
pub struct Bid {
    key: u64,
}

impl Model for Bid {
    ghost use Rattle.std.specs.Prelude.{◌+◌, ◌*◌, ◌/◌, ◌%◌};
    ghost use Rattle.buck_dp.specs.inner.Bid.{BidParts, bid_of};
    ghost use Rattle.buck_dp.specs.declared.bid.TheConstants.{RANKS};

    ghost Value = { BidParts };

    ghost view = { λ b. bid_of (b.key / RANKS) (b.key % RANKS) };

    ghost inverse = { λ b. record { key = b.worth * RANKS + b.rank } };
}

impl Bid {
    /// The bid of no log: it is worth nothing, and any log's rank is higher.
    pub fn none() -> Bid
        ensures { result ≡ none }
    {
        Bid { key: 0 }
    }

    /// The bid of a worth and a rank.
    pub fn of(worth: u64, rank: u32) -> Bid
        requires worth { worth ≤ most_worth }
        requires rank { rank ≤ HIGHEST_RANK }
        ensures { result ≡ bid_of worth rank }
    {
        let key = worth * RANKS + u64::from(rank);
        Bid { key }
    }

    /// The worth in millionths of the price unit.
    pub fn worth(self) -> u64
        ensures { result ≡ self.worth }
    {
        self.key / RANKS
    }

    /// The rank.
    pub fn rank(self) -> u32
        ensures rank { result ≡ self.rank }
        ensures low { result ≤ HIGHEST_RANK }
    {
        (self.key % RANKS) as u32
    }

    /// The bid of this worth without its rank.
    pub fn without_rank(self) -> Bid
        ensures { result ≡ bid_of self.worth 0 }
    {
        let key = self.key - self.key % RANKS;
        Bid { key }
    }

    /// The bid with what follows the log, which has no rank.
    pub fn plus(self, rest: Bid) -> Bid
        requires rest { rest.rank ≡ 0 }
        requires low { self.worth + rest.worth ≤ most_worth }
        ensures { result ≡ bid_of (self.worth + rest.worth) self.rank }
    {
        let key = self.key + rest.key;
        Bid { key }
    }

    /// The greater of two: the one of more worth, or of as much and the higher rank.
    pub fn max(self, other: Bid) -> Bid
        ensures { IsGreater self other result }
    {
        let key = self.key.max(other.key);
        Bid { key }
    }
}
