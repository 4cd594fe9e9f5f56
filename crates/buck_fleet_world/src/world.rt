//! Worlds, one event at a time.
ghost use Rattle.std.specs.Prelude.{◌≡◌, ◌≢◌, ℕ, ◌+◌, ◌-◌, ◌<◌, ◌≤◌, ◌↔◌, IsTrue, IfOk, IfErr, OnOk, OnErr, length, replicate};
ghost use Rattle.buck_rule.specs.Stored.{Answers};
ghost use Rattle.buck_book_postings.specs.History.{version_of};
ghost use Rattle.buck_fleet_world.specs.World.{newcomer, opening, IsHarvester, at};
ghost use Rattle.buck_fleet_world.specs.Step.{Allowed, Step};
ghost use Rattle.buck_fleet_world.specs.Kept.{IsKept};
ghost use Rattle.buck_fleet_world.specs.Refused.{IsFull, MayAdd, HasRoom, IsRefusal};
ghost use Rattle.buck_book_postings.specs.declared.posting.TheConstants.{MOST_POSTINGS};

use crate::acts::act;
use crate::event::Event;
use crate::fault::StepFault;
use crate::harvester::Harvester;
use crate::stage::Stage;
use crate::turns;
use buck_apt_instruction::Instruction;
use buck_book_postings::{Book, Posting};
use buck_record::Memory;
use buck_rule::{Rule, Standing};
use buck_stem_shape::Stem;
use std::alloc::Global;
use std::marker::Model;
use std::sync::Arc;

/// A world: a book, the front, and what each harvester is at. At every moment its history is lawful, at most one
/// harvester is answered, nobody has made more than three stale attempts in its call or seen a version past the front,
/// each plan that is held was made under the sheet of the version seen, and the front is at most the version in force,
/// which it equals if nobody is answered.
#[derive(Drop)]
pub struct World<F> {
    book: Book<F>,
    front: u32,
    harvesters: Vec<Harvester>,
}

impl<F> Model for World<F> {
    ghost use Rattle.buck_fleet_world.specs.Kept.{RuledWorld};
    ghost use Rattle.buck_fleet_world.specs.inner.Sound.{Keeps, ruled};

    ghost Value = { RuledWorld F };

    ghost view = { λ w. ruled w.book w.front w.harvesters.items };

    ghost invariant = { λ w. Keeps (ruled w.book w.front w.harvesters.items) };
}

/// As many harvesters as asked for, who begin: idle, with version 0 seen and no stale attempt.
fn newcomers(alloc: Global, harvesters: u32) -> Result<Vec<Harvester>, Memory>
    ensures { IfOk result (λ all. all.items ≡ replicate harvesters newcomer) }
{
    let mut all = Vec::new(alloc);
    for _ in 0..harvesters {
        all.push(turns::idle(0, 0))?;
    }
    Ok(all)
}

impl<F: Drop> World<F> {
    /// The newest version that is shown: at most the version in force.
    pub fn front(&self) -> u32
        ensures front { result ≡ self.now.world.front }
        ensures kept { IsKept self.now }
    {
        self.front
    }

    /// The version in force.
    pub fn version(&self) -> u32
        ensures { result ≡ version_of self.now.world.history }
    {
        self.book.version()
    }

    /// The postings, in the order in which they were added.
    pub fn entries(&self) -> &[Posting]
        ensures postings { result.now ≡ self.now.world.history.postings }
        ensures kept { IsKept self.now }
    {
        self.book.entries()
    }

    /// How many harvesters the world has, 1 to 64; they count from 1.
    pub fn harvesters(&self) -> u32
        ensures number { result ≡ length self.now.world.harvesters }
        ensures kept { IsKept self.now }
    {
        self.harvesters.len() as u32
    }

    /// The newest version that a harvester of the world has seen.
    pub fn seen(&self, harvester: u32) -> u32
        requires { IsHarvester self.now.world harvester }
        ensures { result ≡ (at self.now.world harvester).seen }
    {
        turns::at(self.harvesters.as_slice(), harvester).seen
    }

    /// How many stale attempts a harvester of the world made in its call, at most three.
    pub fn stale(&self, harvester: u32) -> u32
        requires { IsHarvester self.now.world harvester }
        ensures { result ≡ (at self.now.world harvester).stale }
    {
        turns::at(self.harvesters.as_slice(), harvester).stale
    }

    /// The stage of a harvester's call.
    pub fn stage(&self, harvester: u32) -> &Stage
        requires { IsHarvester self.now.world harvester }
        ensures { result.now ≡ (at self.now.world harvester).stage }
    {
        &turns::at(self.harvesters.as_slice(), harvester).stage
    }

    /// Whether an event is allowed.
    fn allows(&self, event: &Event) -> bool
        ensures { IsTrue result ↔ Allowed self.now.world event.now }
    {
        let h = event.harvester();
        if !turns::is_harvester(self.harvesters.as_slice(), h) {
            return false;
        }
        let x = turns::at(self.harvesters.as_slice(), h);
        let is_nobody = turns::is_nobody_answered(self.harvesters.as_slice());
        match event {
            Event::Read { version, .. } => {
                matches!(x.stage, Stage::Idle)
                    && x.stale < 3
                    && x.seen <= *version
                    && *version <= self.front
            }
            Event::Plan { .. } => matches!(x.stage, Stage::Reading),
            Event::Try { .. } => matches!(x.stage, Stage::Planned(_)) && is_nobody,
            Event::Locked { .. } | Event::Retarget { .. } => {
                matches!(x.stage, Stage::Idle | Stage::Reading) && is_nobody
            }
            Event::Raise { .. } => turns::is_answered(&x.stage),
            Event::Leave { .. } => !turns::is_answered(&x.stage),
        }
    }
}

impl<F: Fn(&Standing) -> u64 + Drop> World<F> {
    /// A world of so many harvesters, 1 to 64, of whom nobody has begun, and with no posting; it may have from 1 to
    /// 1,000,000 of these. Refused as `Memory` alone.
    pub fn open(
        alloc: Global,
        instruction: Arc<Instruction>,
        rule: Rule<F>,
        harvesters: u32,
        capacity: u32,
    ) -> Result<World<F>, Memory>
        requires harvesters { (1 ≤ harvesters) × (harvesters ≤ 64) }
        requires capacity { (1 ≤ capacity) × (capacity ≤ MOST_POSTINGS) }
        ensures rule { IfOk result (λ w. w.rule ≡ rule) }
        ensures capacity { IfOk result (λ w. w.capacity ≡ capacity) }
        ensures opening { IfOk result (λ w. w.world ≡ opening instruction.value harvesters) }
    {
        let book = Book::open(alloc, instruction, rule, capacity)?;
        let harvesters = newcomers(alloc, harvesters)?;
        Ok(World {
            book,
            front: 0,
            harvesters,
        })
    }

    /// One event, if it is allowed: what follows is a world step. Else, and if it is refused otherwise, the world
    /// stays as it was. A try that is stale is answered `Ok`. Refused as `NotAllowed` if no case of the event holds,
    /// as `Full` if it would try to add a posting at the capacity, as `Targets` if new targets aren't valid, and as
    /// `Memory` if an allocation failed.
    pub fn step(&mut self, alloc: Global, event: Event) -> Result<(), StepFault>
        requires answers { Answers F.Fn self.old.rule }
        ensures ok { OnOk result (Step self.old.world event self.new.world) }
        ensures room { OnOk result (HasRoom self.old event) }
        ensures refused { IfErr result (IsRefusal self.old event) }
        ensures not_allowed { (result ≡ Err StepFault.NotAllowed) ↔ (Allowed self.old.world event → ⊥) }
        ensures full { (result ≡ Err StepFault.Full)
            ↔ (Allowed self.old.world event × MayAdd event × IsFull self.old) }
        ensures left { OnErr result (self.new ≡ self.old) }
        ensures rule { self.new.rule ≡ self.old.rule }
        ensures capacity { self.new.capacity ≡ self.old.capacity }
        ensures harvesters { length self.new.world.harvesters ≡ length self.old.world.harvesters }
    {
        if !self.allows(&event) {
            return Err(StepFault::NotAllowed);
        }
        act(
            alloc,
            &mut self.book,
            &mut self.front,
            &mut self.harvesters,
            event,
        )
    }
}
