//! What the harvesters are at, in a list from harvester 1 on: reading it, and changing one of them.
ghost use Rattle.std.specs.Prelude.{◌≡◌, ◌≢◌, ◌↔◌, ℕ, ◌+◌, ◌-◌, ◌<◌, ◌≤◌, IsTrue, length, slice_index_or, slice_set, vec_len};
ghost use Rattle.buck_fleet_world.specs.World.{newcomer};

use crate::harvester::Harvester;
use crate::stage::Stage;
use std::mem;

/// An idle harvester that has seen a version and has so many stale attempts.
pub fn idle(seen: u32, stale: u32) -> Harvester
    ensures { result ≡ record { stage = Stage.Idle; seen = seen; stale = stale } }
{
    Harvester {
        stage: Stage::Idle,
        seen,
        stale,
    }
}

/// Whether there is a harvester of this number.
pub fn is_harvester(harvesters: &[Harvester], h: u32) -> bool
    ensures { IsTrue result ↔ (1 ≤ h) × (h ≤ length harvesters.now) }
{
    1 <= h && h as usize <= harvesters.len()
}

/// The harvester of a number.
pub fn at(harvesters: &[Harvester], h: u32) -> &Harvester
    requires { (1 ≤ h) × (h ≤ length harvesters.now) }
    ensures { result.now ≡ slice_index_or harvesters.now (h - 1) newcomer }
{
    &harvesters[h as usize - 1]
}

/// Puts one harvester at something else.
pub fn set(harvesters: &mut Vec<Harvester>, h: u32, x: Harvester)
    requires { (1 ≤ h) × (h ≤ vec_len harvesters.old) }
    ensures { harvesters.new.items ≡ slice_set harvesters.old.items (h - 1) x }
{
    let place = &mut harvesters[h as usize - 1];
    *place = x;
}

/// Sets one harvester's stage to `Answered`, and gives the stage that it was in.
pub fn answer(harvesters: &mut Vec<Harvester>, h: u32) -> Stage
    requires { (1 ≤ h) × (h ≤ vec_len harvesters.old) }
    ensures was { result ≡ (slice_index_or harvesters.old.items (h - 1) newcomer).stage }
    ensures now { harvesters.new.items ≡ slice_set harvesters.old.items (h - 1) (record {
      stage = Stage.Answered;
      seen = (slice_index_or harvesters.old.items (h - 1) newcomer).seen;
      stale = (slice_index_or harvesters.old.items (h - 1) newcomer).stale;
    }) }
{
    let place = &mut harvesters[h as usize - 1];
    mem::replace(&mut place.stage, Stage::Answered)
}

/// Whether a stage is `Answered`.
pub fn is_answered(stage: &Stage) -> bool
    ensures { IsTrue result ↔ (stage.now ≡ Stage.Answered) }
{
    matches!(stage, Stage::Answered)
}

/// Whether no harvester is answered.
pub fn is_nobody_answered(harvesters: &[Harvester]) -> bool
    ensures { IsTrue result
        ↔ ((h : ℕ) → (1 ≤ h) × (h ≤ length harvesters.now)
        → (slice_index_or harvesters.now (h - 1) newcomer).stage ≢ Stage.Answered) }
{
    for x in harvesters {
        if is_answered(&x.stage) {
            return false;
        }
    }
    true
}
