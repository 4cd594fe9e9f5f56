//! The worth of logs under an owner's instruction.
ghost use Rattle.std.specs.Prelude.{◌*◌, ◌<◌, ◌≤◌, ◌^◌};
ghost use Rattle.buck_book_postings.specs.declared.posting.TheConstants.{MOST_POSTINGS};

/// The sums of some logs under an owner's instruction, at its base prices.
#[derive(Clone, Copy)]
pub struct Paid {
    /// Number of logs.
    pub logs: u64,
    /// Number of them that the owner's instruction doesn't buy: no row has their diameter, or their class has no price.
    pub unbought: u64,
    /// Volume in cm³.
    pub volume: u128,
    /// Worth in millionths of the price unit.
    pub worth: u128,
    ghost small: { (logs < 2 ^ 32) × (unbought ≤ logs) × (volume ≤ logs * 2 ^ 64) × (worth ≤ logs * 2 ^ 64) },
}

impl Paid {
    /// What no log comes to.
    pub(crate) const NONE: Paid = Paid {
        logs: 0,
        unbought: 0,
        volume: 0,
        worth: 0,
    };
}

/// The sums of some stems under an owner's instruction: of their logs as cut, and of the best cuttings.
#[derive(Clone, Copy)]
pub struct Account {
    /// Number of stems.
    pub stems: u64,
    pub cut: Paid,
    pub best: Paid,
    ghost few: { stems ≤ MOST_POSTINGS },
    ghost few_logs: { (cut.logs ≤ 80 * stems) × (best.logs ≤ 80 * stems) },
    ghost no_better_than_best: { cut.worth ≤ best.worth },
}

impl Account {
    /// Of no stem.
    pub(crate) const NONE: Account = Account {
        stems: 0,
        cut: Paid::NONE,
        best: Paid::NONE,
    };
}
