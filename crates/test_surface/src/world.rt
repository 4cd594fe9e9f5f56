//! The fleet's world.
ghost use Rattle.std.specs.Prelude.{◌≤◌};
ghost use Rattle.buck_fleet.specs.world.World.{IsHarvester};
ghost use Rattle.buck_rule.specs.Stored.{Answers};

use buck_apt::Instruction;
use buck_book::Posting;
use buck_fleet::world::{Event, Memory, Stage, StepFault, World, laws};
use buck_rule::{Rule, Standing};
use std::alloc::Global;
use std::sync::Arc;

/// `buck_fleet::world::World::open`.
pub fn world_open<F: Fn(&Standing) -> u64 + Drop>(
    alloc: Global,
    instruction: Arc<Instruction>,
    rule: Rule<F>,
    harvesters: u32,
    capacity: u32,
) -> Result<World<F>, Memory>
    requires harvesters { (1 ≤ harvesters) × (harvesters ≤ 64) }
    requires capacity { (1 ≤ capacity) × (capacity ≤ 1000000) }
{
    World::open(alloc, instruction, rule, harvesters, capacity)
}

/// `buck_fleet::world::World::step`.
pub fn world_step<F: Fn(&Standing) -> u64 + Drop>(
    world: &mut World<F>,
    alloc: Global,
    event: Event,
) -> Result<(), StepFault>
    requires answers { Answers F.Fn world.old.rule }
{
    world.step(alloc, event)
}

/// `buck_fleet::world::World`: `entries`, `version`, `front`, `seen`, `stale` and `stage`.
pub fn world<F: Drop>(world: &World<F>, harvester: u32)
    requires { IsHarvester world.now.world harvester }
{
    let _entries: &[Posting] = world.entries();
    let _version: u32 = world.version();
    let _front: u32 = world.front();
    let _seen: u32 = world.seen(harvester);
    let _stale: u32 = world.stale(harvester);
    let _stage: &Stage = world.stage(harvester);
}

/// `buck_fleet::world::laws`: `every_history`, `every_world`, `every_read` and `every_fresh_run`.
pub fn laws_of_worlds() {
    laws::every_history();
    laws::every_world();
    laws::every_read();
    laws::every_fresh_run();
}
