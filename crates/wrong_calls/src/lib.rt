//! Wrong answers of the calls that C makes, each proved wrong by a caller.
//!
//! A function is named for a wrong body of a public call, and its comment says what that body does wrong. It makes the
//! real call, of which it knows the public contract alone, and proves that the answer isn't the wrong one. A `requires`
//! says in which cases the wrong body would answer otherwise.
#![tactic(auto)]

pub mod book;
pub mod files;
pub mod ledger;
pub mod looking;
pub mod trials;
pub mod turns;

use buck_c_calls::Numbers;
use buck_c_session::{Felled, Zone};

/// A felled stem as C hands it over.
pub struct Handed<'a> {
    pub felled: &'a Felled,
    pub samples: &'a [u16],
    pub zones: &'a [Zone],
}

/// The files of a call that C makes, one behind the other, with their lengths.
pub struct Joined<'a> {
    pub bytes: &'a [u8],
    pub lengths: &'a [usize],
}

/// The instruction's own numbers.
const OWN: Numbers = Numbers {
    period: u32::MAX,
    limit: u32::MAX,
};
