//! Why a lawful journal isn't that of the stem files or of the rule that were named.
use thiserror::Error;

/// Why a lawful journal isn't that of the stem files or of the rule that were named. Harvesters count from 1, and so do
/// a harvester's cuts and the stems of its file; versions and classes count from 0.
#[derive(Clone, Copy, Debug, PartialEq, Eq, Error)]
pub enum CheckFault {
    /// The harvester's cut at this place, from 1, is of another stem than stands there in its file; those before are
    /// alike.
    #[error("cut {place} of harvester {harvester} is not of the stem that stands there in its file")]
    Other {
        harvester: u32,
        place: usize,
    },
    /// The harvester cut the stems of its file before this place, from 1, and not the one that stands there.
    #[error("stem {place} of the file of harvester {harvester} was not cut")]
    Uncut {
        harvester: u32,
        place: usize,
    },
    /// The harvester cut all stems of its file, and then another one: its cut at this place, from 1.
    #[error("cut {place} of harvester {harvester} is of no stem of its file")]
    Surplus {
        harvester: u32,
        place: usize,
    },
    /// The price of the class at this index, from 0, in the sheet of this version isn't what the rule gives; those
    /// before are. Both prices are in price units.
    #[error("the price of class {class} in sheet {version} is {price}, and the rule gives {wanted}")]
    Price {
        version: u32,
        class: usize,
        price: u32,
        wanted: u64,
    },
}
