//! Wrong bodies of fleets, each proved wrong by a caller: it makes the real call, and proves that the answer isn't that
//! body's. A caller knows of a call what its contract says and nothing else, so each function here is proved only while
//! a public clause rules its wrong body out. Each is named for that body.
#![tactic(auto)]

pub mod calls;
pub mod closed;
pub mod closing;
pub mod opening;
pub mod runs;
pub mod seats;
pub mod turns;
