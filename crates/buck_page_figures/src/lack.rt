//! A class that lacks logs.
ghost use Rattle.std.specs.Prelude.{◌*◌, ◌<◌, ◌≤◌, ◌^◌};

/// A class that lacks logs: of the logs cut of its assortment it has less than its target's share.
#[derive(Clone, Copy)]
pub struct Lack {
    /// Index of the assortment in the instruction, from 0.
    pub assortment: usize,
    /// Index among the classes of its assortment, row by row, from 0.
    pub class: usize,
    /// Its target, in logs.
    pub target: u32,
    /// Number of its logs cut.
    pub count: u32,
    /// Number of its logs in the best cuttings at base prices.
    pub unsteered: u32,
    /// Targets of its assortment together, in logs.
    pub targets: u64,
    /// Number of logs cut of its assortment.
    pub counts: u64,
    ghost few: { (targets ≤ 1024 * 2 ^ 32) × (counts ≤ 1024 * 2 ^ 32) },
    ghost some: { (0 < targets) × (0 < counts) },
    ghost lacks: { count * targets < target * counts },
}
