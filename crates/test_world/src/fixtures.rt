//! What harvesters do in a world, and what is expected of it.
ghost use Rattle.std.specs.Prelude.{◌≡◌};
ghost use Rattle.buck_rule.specs.Stored.{Answers};

use buck_apt_instruction::Instruction;
use buck_fleet_world::{Event, Memory, Stage, StepFault, World};
use buck_rule::Standing;
use buck_stem_shape::Stem;
use fixture_samples::{saw_instruction, uniform_stem};
use std::sync::Arc;
use std::test::Fail;

/// What is done, with the stem and the targets of the kit; a read is of a version.
#[derive(Clone, Copy)]
pub enum Act {
    Read(u32),
    Plan,
    Try,
    Locked,
    Raise,
    Retarget,
    Leave,
}

/// What a harvester does.
#[derive(Clone, Copy)]
pub struct Do(pub Act, pub u32);

/// The instruction of a world, a stem to be cut and targets to be put in force.
#[derive(Drop)]
pub struct Kit {
    pub instruction: Arc<Instruction>,
    pub stem: Arc<Stem>,
    pub targets: Arc<Vec<u32>>,
}

/// Where a harvester is in its call.
#[derive(Clone, Copy, PartialEq, Eq)]
pub enum Place {
    Idle,
    Reading,
    Planned,
    Answered,
}

/// The event is answered `Ok`.
pub const OK: Option<StepFault> = None;

/// The event isn't allowed.
pub const NO: Option<StepFault> = Some(StepFault::NotAllowed);

/// The history is full.
pub const FULL: Option<StepFault> = Some(StepFault::Full);

/// The saw instruction with this period in stems, a stem of 4,000 mm and 250 mm, and targets for logs of one class alone.
pub fn kit_of(rt: &HostRuntime, period: u32) -> Result<Kit, Fail> {
    let instruction = saw_instruction(rt.alloc(), period, 500, "1 1 1 1")?;
    let stem = Arc::new(rt.alloc(), uniform_stem(rt.alloc(), 41, 250)?)?;
    let targets = Arc::new(rt.alloc(), Vec::from_slice(rt.alloc(), &[0, 0, 0, 4])?)?;
    Ok(Kit {
        instruction,
        stem,
        targets,
    })
}

/// The event of what a harvester does.
fn event_of(kit: &Kit, what: Do) -> Result<Event, Memory> {
    let Do(act, harvester) = what;
    Ok(match act {
        Act::Read(version) => Event::Read { harvester, version },
        Act::Plan => Event::Plan {
            harvester,
            stem: kit.stem.clone()?,
        },
        Act::Try => Event::Try { harvester },
        Act::Locked => Event::Locked {
            harvester,
            stem: kit.stem.clone()?,
        },
        Act::Retarget => Event::Retarget {
            harvester,
            targets: kit.targets.clone()?,
        },
        Act::Raise => Event::Raise { harvester },
        Act::Leave => Event::Leave { harvester },
    })
}

/// Does one thing, and once more if memory was refused, which is then noted: the answer.
pub fn go<F: Fn(&Standing) -> u64 + Drop>(
    rt: &HostRuntime,
    world: &mut World<F>,
    kit: &Kit,
    what: Do,
    is_short: &mut bool,
) -> Result<Option<StepFault>, Memory>
    requires { Answers F.Fn world.old.rule }
    ensures { world.new.rule ≡ world.old.rule }
{
    let told = world.step(rt.alloc(), event_of(kit, what)?).err();
    if told != Some(StepFault::Memory) {
        return Ok(told);
    }
    *is_short = true;
    Ok(world.step(rt.alloc(), event_of(kit, what)?).err())
}

/// Where a stage is.
fn place_of(stage: &Stage) -> Place {
    match stage {
        Stage::Idle => Place::Idle,
        Stage::Reading => Place::Reading,
        Stage::Planned(_) => Place::Planned,
        Stage::Answered => Place::Answered,
    }
}

/// Whether a world has a harvester that is at this: its stage, the version seen, and its stale attempts.
pub fn is_at<F: Drop>(world: &World<F>, h: u32, place: Place, seen: u32, stale: u32) -> bool {
    if h == 0 || h > world.harvesters() {
        return false;
    }
    place_of(world.stage(h)) == place && world.seen(h) == seen && world.stale(h) == stale
}
