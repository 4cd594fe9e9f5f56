//! Wrong bodies of events that are answered `Ok`: what they leave in the world.
ghost use Rattle.std.specs.Prelude.{◌≡◌, ◌≢◌, ◌<◌};
ghost use Rattle.buck_rule.specs.Stored.{Answers};
ghost use Rattle.buck_book_postings.specs.History.{version_of};
ghost use Rattle.buck_fleet_world.specs.World.{IsHarvester, at};

use buck_fleet_world::{Event, Stage, World};
use buck_rule::Standing;
use buck_stem_shape::Stem;
use std::alloc::Global;
use std::sync::Arc;

/// The plan is made under the sheet in force, though the harvester has seen another version.
pub fn plan_under_version_in_force<F: Fn(&Standing) -> u64 + Drop>(
    alloc: Global,
    world: &mut World<F>,
    harvester: u32,
    stem: Arc<Stem>,
)
    requires answers { Answers F.Fn world.old.rule }
    requires older { (at world.old.world harvester).seen ≢ version_of world.old.world.history }
{
    if world.step(alloc, Event::Plan { harvester, stem }).is_err() {
        return;
    }
    if let Stage::Planned(plan) = world.stage(harvester) {
        let right = plan.sheet().version();
        let wrong = world.version();
        prove!(right != wrong);
    }
}

/// A stale attempt isn't counted.
pub fn stale_not_counted<F: Fn(&Standing) -> u64 + Drop>(
    alloc: Global,
    world: &mut World<F>,
    harvester: u32,
)
    requires answers { Answers F.Fn world.old.rule }
    requires there { IsHarvester world.old.world harvester }
    requires older { (at world.old.world harvester).seen ≢ version_of world.old.world.history }
{
    let wrong = world.stale(harvester);
    if world.step(alloc, Event::Try { harvester }).is_err() {
        return;
    }
    let right = world.stale(harvester);
    prove!(right != wrong);
}

/// A stale attempt is answered as if its plan had been added.
pub fn stale_try_is_answered<F: Fn(&Standing) -> u64 + Drop>(
    alloc: Global,
    world: &mut World<F>,
    harvester: u32,
)
    requires answers { Answers F.Fn world.old.rule }
    requires there { IsHarvester world.old.world harvester }
    requires older { (at world.old.world harvester).seen ≢ version_of world.old.world.history }
{
    if world.step(alloc, Event::Try { harvester }).is_err() {
        return;
    }
    let right = matches!(world.stage(harvester), Stage::Answered);
    let wrong = true;
    prove!(right != wrong);
}

/// A plan of an older sheet is added to the history.
pub fn old_plan_is_added<F: Fn(&Standing) -> u64 + Drop>(
    alloc: Global,
    world: &mut World<F>,
    harvester: u32,
)
    requires answers { Answers F.Fn world.old.rule }
    requires older { (at world.old.world harvester).seen ≢ version_of world.old.world.history }
{
    let before = world.entries().len();
    if world.step(alloc, Event::Try { harvester }).is_err() {
        return;
    }
    let right = world.entries().len();
    let wrong = before.saturating_add(1);
    prove!(right != wrong);
}

/// The front is raised to 1, however many sheets there are.
pub fn raise_to_one<F: Fn(&Standing) -> u64 + Drop>(
    alloc: Global,
    world: &mut World<F>,
    harvester: u32,
)
    requires answers { Answers F.Fn world.old.rule }
    requires later { 1 < version_of world.old.world.history }
{
    if world.step(alloc, Event::Raise { harvester }).is_err() {
        return;
    }
    let right = world.front();
    let wrong = 1;
    prove!(right != wrong);
}

/// A raise leaves the stale attempts of the call that ends.
pub fn raise_leaves_stale<F: Fn(&Standing) -> u64 + Drop>(
    alloc: Global,
    world: &mut World<F>,
    harvester: u32,
)
    requires answers { Answers F.Fn world.old.rule }
    requires there { IsHarvester world.old.world harvester }
    requires some { 0 < (at world.old.world harvester).stale }
{
    let wrong = world.stale(harvester);
    if world.step(alloc, Event::Raise { harvester }).is_err() {
        return;
    }
    let right = world.stale(harvester);
    prove!(right != wrong);
}
