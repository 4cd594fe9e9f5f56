//! What stems are worth without grades.
ghost use Rattle.std.specs.Prelude.{◌*◌, ◌≤◌, ◌^◌};
ghost use Rattle.buck_book_postings.specs.declared.posting.TheConstants.{MOST_POSTINGS};

use std::collections::BTreeMap;

/// Worth of some best cuttings at base prices if every assortment takes every grade.
#[derive(Clone, Copy)]
pub struct Free {
    /// Worth in millionths of the price unit.
    pub worth: u128,
    ghost small: { worth ≤ MOST_POSTINGS * 2 ^ 64 },
}

/// Worth of the best cuttings at base prices if every assortment takes every grade: of all stems, and by harvester.
#[derive(Drop)]
pub struct GradeFree {
    pub total: Free,
    /// By the harvester's number, from 1: those that have a cut.
    pub harvesters: BTreeMap<u32, Free>,
}
