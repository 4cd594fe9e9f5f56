//! What each harvester is at.
use crate::stage::Stage;

/// The state of a harvester.
#[derive(Drop)]
pub struct Harvester {
    pub stage: Stage,
    /// Newest version that it has seen, from 0.
    pub seen: u32,
    /// Number of stale attempts in its call, 0 to 3.
    pub stale: u32,
}
