//! What some postings come to.
ghost use Rattle.std.specs.Prelude.{◌≡◌, ◌+◌, ◌*◌, ◌≤◌, ◌^◌};
ghost use Rattle.buck_book_postings.specs.declared.posting.TheConstants.{MOST_POSTINGS};

/// The sums of some postings.
#[derive(Clone, Copy)]
pub struct Sums {
    /// Number of stems cut.
    pub stems: u64,
    /// Number of demands.
    pub demands: u64,
    /// Number of logs.
    pub logs: u128,
    /// Volume of the logs, in cm³.
    pub volume: u128,
    /// Length of the stems, in mm.
    pub length: u128,
    /// Length of the logs, in mm, trim excluded.
    pub logged: u128,
    /// Trim cut with the logs, in mm.
    pub trim: u128,
    /// Worth of the cuttings under the prices in force when each was planned, in millionths of the price unit.
    pub worth: u128,
    /// Worth of the same cuttings at base prices, in millionths of the price unit.
    pub at_base: u128,
    /// Worth of the best cuttings at base prices, in millionths of the price unit.
    pub best: u128,
    ghost few: { (stems ≤ MOST_POSTINGS) × (demands ≤ MOST_POSTINGS) },
    ghost small_wood: { (logs ≤ stems * 2 ^ 64) × (volume ≤ stems * 2 ^ 64) × (length ≤ stems * 2 ^ 64) },
    ghost small_worth: { (worth ≤ stems * 2 ^ 64) × (best ≤ stems * 2 ^ 64) },
    ghost no_more_than_the_stems: { logged + trim ≤ length },
    ghost no_better_than_best: { at_base ≤ best },
}

impl Sums {
    /// The cost of steering, in millionths of the price unit: the worth of the best cuttings at base prices less that
    /// of the cuttings made, also at base prices.
    pub fn cost(&self) -> u128
        ensures { result + self.now.at_base ≡ self.now.best }
    {
        self.best - self.at_base
    }

    /// The length of the stems, in mm, that neither a log nor its trim took.
    pub fn left(&self) -> u128
        ensures { result + (self.now.logged + self.now.trim) ≡ self.now.length }
    {
        self.length - (self.logged + self.trim)
    }
}
