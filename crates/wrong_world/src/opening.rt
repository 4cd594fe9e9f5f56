//! Wrong bodies of new worlds, and of what is asked of a world.
ghost use Rattle.std.specs.Prelude.{◌≡◌, ◌≢◌, []};
ghost use Rattle.buck_book_postings.specs.History.{version_of};
ghost use Rattle.buck_fleet_world.specs.World.{IsHarvester, at};

use buck_apt_instruction::Instruction;
use buck_fleet_world::{Memory, Stage, World};
use buck_rule::{Rule, Standing};
use std::alloc::Global;
use std::sync::Arc;

/// Half of the harvesters are counted.
pub fn harvesters_halved<F: Fn(&Standing) -> u64 + Drop>(
    alloc: Global,
    instruction: Arc<Instruction>,
    rule: Rule<F>,
) -> Result<World<F>, Memory> {
    let world = World::open(alloc, instruction, rule, 4, 10)?;
    let right = world.harvesters();
    let wrong = 2;
    prove!(right != wrong);
    Ok(world)
}

/// No posting is shown.
pub fn entries_hidden<F: Drop>(world: &World<F>)
    requires some { world.now.world.history.postings ≢ [] }
{
    let right = world.entries().len();
    let wrong = 0;
    prove!(right != wrong);
}

/// The front is given for the version in force.
pub fn version_is_front<F: Drop>(world: &World<F>)
    requires differ { world.now.world.front ≢ version_of world.now.world.history }
{
    let right = world.version();
    let wrong = world.front();
    prove!(right != wrong);
}

/// The number of stale attempts is given for the version seen.
pub fn seen_is_stale<F: Drop>(world: &World<F>, harvester: u32, wrong: u32)
    requires there { IsHarvester world.now.world harvester }
    requires wrong { wrong ≡ (at world.now.world harvester).stale }
    requires differ { (at world.now.world harvester).seen ≢ (at world.now.world harvester).stale }
{
    let right = world.seen(harvester);
    prove!(right != wrong);
}

/// The version seen is given for the number of stale attempts.
pub fn stale_is_seen<F: Drop>(world: &World<F>, harvester: u32, wrong: u32)
    requires there { IsHarvester world.now.world harvester }
    requires wrong { wrong ≡ (at world.now.world harvester).seen }
    requires differ { (at world.now.world harvester).seen ≢ (at world.now.world harvester).stale }
{
    let right = world.stale(harvester);
    prove!(right != wrong);
}

/// Harvester 1's stage, which is idle, is given for another's, which has read.
pub fn stage_of_the_first<F: Drop>(world: &World<F>, harvester: u32)
    requires there { IsHarvester world.now.world harvester }
    requires reading { (at world.now.world harvester).stage ≡ Stage.Reading }
{
    let right = matches!(world.stage(harvester), Stage::Idle);
    let wrong = true;
    prove!(right != wrong);
}
