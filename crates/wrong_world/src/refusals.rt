//! Wrong bodies of events that are let in, or refused as something else.
ghost use Rattle.std.specs.Prelude.{◌≡◌, ◌<◌, length};
ghost use Rattle.buck_rule.specs.Stored.{Answers};
ghost use Rattle.buck_fleet_world.specs.World.{IsHarvester, IsAnswered, at};
ghost use Rattle.buck_fleet_world.specs.Step.{IsPlanned};
ghost use Rattle.buck_fleet_world.specs.Refused.{IsFull, IsBelow};

use buck_fleet_world::{Event, Stage, StepFault, World};
use buck_rule::Standing;
use buck_stem_shape::Stem;
use std::alloc::Global;
use std::sync::Arc;

/// An event that isn't allowed is answered `Ok`: that of a harvester which the world hasn't.
pub fn not_allowed_is_ok<F: Fn(&Standing) -> u64 + Drop>(
    alloc: Global,
    world: &mut World<F>,
    harvester: u32,
)
    requires answers { Answers F.Fn world.old.rule }
    requires nobody { length world.old.world.harvesters < harvester }
{
    let right = world.step(alloc, Event::Leave { harvester });
    let wrong = Ok(());
    prove!(right != wrong);
}

/// There is a harvester 0.
pub fn harvester_0<F: Fn(&Standing) -> u64 + Drop>(alloc: Global, world: &mut World<F>)
    requires answers { Answers F.Fn world.old.rule }
{
    let right = world.step(alloc, Event::Leave { harvester: 0 });
    let wrong = Ok(());
    prove!(right != wrong);
}

/// A read of a version past the front.
pub fn read_above_the_front<F: Fn(&Standing) -> u64 + Drop>(
    alloc: Global,
    world: &mut World<F>,
    harvester: u32,
    version: u32,
)
    requires answers { Answers F.Fn world.old.rule }
    requires above { world.old.world.front < version }
{
    let right = world.step(alloc, Event::Read { harvester, version });
    let wrong = Ok(());
    prove!(right != wrong);
}

/// A read of an older version than the harvester has seen.
pub fn read_below_seen<F: Fn(&Standing) -> u64 + Drop>(
    alloc: Global,
    world: &mut World<F>,
    harvester: u32,
    version: u32,
)
    requires answers { Answers F.Fn world.old.rule }
    requires below { version < (at world.old.world harvester).seen }
{
    let right = world.step(alloc, Event::Read { harvester, version });
    let wrong = Ok(());
    prove!(right != wrong);
}

/// A read after a read.
pub fn read_in_any_stage<F: Fn(&Standing) -> u64 + Drop>(
    alloc: Global,
    world: &mut World<F>,
    harvester: u32,
    version: u32,
)
    requires answers { Answers F.Fn world.old.rule }
    requires reading { (at world.old.world harvester).stage ≡ Stage.Reading }
{
    let right = world.step(alloc, Event::Read { harvester, version });
    let wrong = Ok(());
    prove!(right != wrong);
}

/// A read after three stale attempts, for a fourth.
pub fn fourth_stale_attempt<F: Fn(&Standing) -> u64 + Drop>(
    alloc: Global,
    world: &mut World<F>,
    harvester: u32,
    version: u32,
)
    requires answers { Answers F.Fn world.old.rule }
    requires three { (at world.old.world harvester).stale ≡ 3 }
{
    let right = world.step(alloc, Event::Read { harvester, version });
    let wrong = Ok(());
    prove!(right != wrong);
}

/// A plan of a harvester that hasn't read.
pub fn plan_without_read<F: Fn(&Standing) -> u64 + Drop>(
    alloc: Global,
    world: &mut World<F>,
    harvester: u32,
    stem: Arc<Stem>,
)
    requires answers { Answers F.Fn world.old.rule }
    requires idle { (at world.old.world harvester).stage ≡ Stage.Idle }
{
    let right = world.step(alloc, Event::Plan { harvester, stem });
    let wrong = Ok(());
    prove!(right != wrong);
}

/// A try while another harvester is answered.
pub fn try_while_one_is_answered<F: Fn(&Standing) -> u64 + Drop>(
    alloc: Global,
    world: &mut World<F>,
    harvester: u32,
    another: u32,
)
    requires answers { Answers F.Fn world.old.rule }
    requires another { IsHarvester world.old.world another }
    requires answered { IsAnswered world.old.world another }
{
    let right = world.step(alloc, Event::Try { harvester });
    let wrong = Ok(());
    prove!(right != wrong);
}

/// A locked cut while another harvester is answered.
pub fn locked_while_one_is_answered<F: Fn(&Standing) -> u64 + Drop>(
    alloc: Global,
    world: &mut World<F>,
    harvester: u32,
    another: u32,
    stem: Arc<Stem>,
)
    requires answers { Answers F.Fn world.old.rule }
    requires another { IsHarvester world.old.world another }
    requires answered { IsAnswered world.old.world another }
{
    let right = world.step(alloc, Event::Locked { harvester, stem });
    let wrong = Ok(());
    prove!(right != wrong);
}

/// New targets while another harvester is answered.
pub fn retarget_while_one_is_answered<F: Fn(&Standing) -> u64 + Drop>(
    alloc: Global,
    world: &mut World<F>,
    harvester: u32,
    another: u32,
    targets: Arc<Vec<u32>>,
)
    requires answers { Answers F.Fn world.old.rule }
    requires another { IsHarvester world.old.world another }
    requires answered { IsAnswered world.old.world another }
{
    let right = world.step(alloc, Event::Retarget { harvester, targets });
    let wrong = Ok(());
    prove!(right != wrong);
}

/// A raise by a harvester that has a plan and no answer.
pub fn raise_unanswered<F: Fn(&Standing) -> u64 + Drop>(
    alloc: Global,
    world: &mut World<F>,
    harvester: u32,
)
    requires answers { Answers F.Fn world.old.rule }
    requires planned { IsPlanned (at world.old.world harvester).stage }
{
    let right = world.step(alloc, Event::Raise { harvester });
    let wrong = Ok(());
    prove!(right != wrong);
}

/// A leave by a harvester that is answered and hasn't raised the front.
pub fn leave_while_answered<F: Fn(&Standing) -> u64 + Drop>(
    alloc: Global,
    world: &mut World<F>,
    harvester: u32,
)
    requires answers { Answers F.Fn world.old.rule }
    requires answered { IsAnswered world.old.world harvester }
{
    let right = world.step(alloc, Event::Leave { harvester });
    let wrong = Ok(());
    prove!(right != wrong);
}

/// A try at the capacity is answered as a stale attempt.
pub fn full_after_stale<F: Fn(&Standing) -> u64 + Drop>(
    alloc: Global,
    world: &mut World<F>,
    harvester: u32,
)
    requires answers { Answers F.Fn world.old.rule }
    requires full { IsFull world.old }
{
    let right = world.step(alloc, Event::Try { harvester });
    let wrong = Ok(());
    prove!(right != wrong);
}

/// New targets at the capacity are refused for want of memory.
pub fn full_as_memory<F: Fn(&Standing) -> u64 + Drop>(
    alloc: Global,
    world: &mut World<F>,
    harvester: u32,
    targets: Arc<Vec<u32>>,
)
    requires answers { Answers F.Fn world.old.rule }
    requires full { IsFull world.old }
{
    let right = world.step(alloc, Event::Retarget { harvester, targets });
    let wrong = Err(StepFault::Memory);
    prove!(right != wrong);
}

/// A locked cut is refused as full though one more posting fits.
pub fn full_one_early<F: Fn(&Standing) -> u64 + Drop>(
    alloc: Global,
    world: &mut World<F>,
    harvester: u32,
    stem: Arc<Stem>,
)
    requires answers { Answers F.Fn world.old.rule }
    requires below { IsBelow world.old }
{
    let right = world.step(alloc, Event::Locked { harvester, stem });
    let wrong = Err(StepFault::Full);
    prove!(right != wrong);
}
