//! What the events do that go to the book.
ghost use Rattle.std.specs.Prelude.{◌≡◌, ◌≢◌, ℕ, ◌+◌, ◌-◌, ◌<◌, ◌≤◌, slice_set, vec_len, IfErr, OnOk, OnErr, IfOk};
ghost use Rattle.buck_rule.specs.Stored.{Answers};
ghost use Rattle.buck_book_postings.specs.History.{version_of, in_force};
ghost use Rattle.buck_fleet_world.specs.declared.event.Event.{Event};
ghost use Rattle.buck_fleet_world.specs.Step.{IsPlanUnder, Allowed, Follows};
ghost use Rattle.buck_fleet_world.specs.Refused.{HasRoom, IsRefusal};
ghost use Rattle.buck_fleet_world.specs.inner.Sound.{Keeps, world_of, ruled};

use crate::event::Event;
use crate::fault::StepFault;
use crate::harvester::Harvester;
use crate::stage::Stage;
use crate::turns::{answer, at, idle, set};
use buck_book_postings::{Book, CutFault, DemandRefusal, Plan, Refusal};
use buck_record::Memory;
use buck_rule::Standing;
use buck_stem_shape::Stem;
use std::alloc::Global;
use std::sync::Arc;

/// A plan for a stem, under the sheet of a version up to the one in force.
#[tactic(auto, using(crate::proofs::Sheets::shown_within, crate::proofs::Sheets::shown_is))]
fn plan_under<F: Drop>(
    alloc: Global,
    book: &Book<F>,
    version: u32,
    stem: Arc<Stem>,
) -> Result<Plan, Memory>
    requires { version ≤ version_of book.now.history }
    ensures stem { IfOk result (λ p. p.stem ≡ stem.value) }
    ensures under { IfOk result (λ p. IsPlanUnder book.now.history version p) }
{
    let sheet = &book.sheets()[version as usize];
    Plan::make(alloc, sheet.clone()?, stem)
}

/// Does what an allowed event does. Refused as `Full`, `Targets` or `Memory`; book, front and harvesters are then as
/// before.
pub fn act<F: Fn(&Standing) -> u64 + Drop>(
    alloc: Global,
    book: &mut Book<F>,
    front: &mut u32,
    harvesters: &mut Vec<Harvester>,
    event: Event,
) -> Result<(), StepFault>
    requires answers { Answers F.Fn book.old.rule }
    requires kept { Keeps (ruled book.old front.old harvesters.old.items) }
    requires allowed { Allowed (world_of book.old.history front.old harvesters.old.items) event }
    ensures ok { OnOk result (Follows (world_of book.old.history front.old harvesters.old.items) event
        (world_of book.new.history front.new harvesters.new.items)) }
    ensures room { OnOk result (HasRoom (ruled book.old front.old harvesters.old.items) event) }
    ensures refused { IfErr result (IsRefusal (ruled book.old front.old harvesters.old.items) event) }
    ensures left { OnErr result ((book.new.history ≡ book.old.history)
        × (front.new ≡ front.old) × (harvesters.new.items ≡ harvesters.old.items)) }
    ensures rule { book.new.rule ≡ book.old.rule }
    ensures capacity { book.new.capacity ≡ book.old.capacity }
    ensures number { vec_len harvesters.new ≡ vec_len harvesters.old }
{
    match event {
        Event::Read {
            harvester: h,
            version,
        } => {
            let stale = at(harvesters.as_slice(), h).stale;
            let x = Harvester {
                stage: Stage::Reading,
                seen: version,
                stale,
            };
            set(harvesters, h, x);
            Ok(())
        }
        Event::Plan { harvester: h, stem } => {
            let x = at(harvesters.as_slice(), h);
            let (seen, stale) = (x.seen, x.stale);
            let plan = plan_under(alloc, book, seen, stem)?;
            let x = Harvester {
                stage: Stage::Planned(plan),
                seen,
                stale,
            };
            set(harvesters, h, x);
            Ok(())
        }
        Event::Try { harvester: h } => {
            let Stage::Planned(plan) = &at(harvesters.as_slice(), h).stage else {
                unreachable!()
            };
            match book.prepare(alloc, plan) {
                Ok(ready) => {
                    let Stage::Planned(plan) = answer(harvesters, h) else {
                        unreachable!()
                    };
                    let _entry = book.commit(ready, h, plan);
                    Ok(())
                }
                Err(Refusal::Stale { .. }) => {
                    let x = at(harvesters.as_slice(), h);
                    let x = idle(x.seen, x.stale + 1);
                    set(harvesters, h, x);
                    Ok(())
                }
                Err(Refusal::Full) => Err(StepFault::Full),
                Err(Refusal::Memory) => Err(StepFault::Memory),
            }
        }
        Event::Locked { harvester: h, stem } => {
            // First, so a full book is answered `Full`, whatever memory there is for a plan.
            if book.len() >= book.capacity() as usize {
                return Err(StepFault::Full);
            }
            let plan = plan_under(alloc, book, book.version(), stem)?;
            match book.prepare_in_force(alloc, &plan) {
                Ok(ready) => {
                    let _stage = answer(harvesters, h);
                    let _entry = book.commit(ready, h, plan);
                    Ok(())
                }
                Err(CutFault::Full) => Err(StepFault::Full),
                Err(CutFault::Memory) => Err(StepFault::Memory),
            }
        }
        Event::Retarget {
            harvester: h,
            targets,
        } => match book.prepare_demand(alloc, &targets) {
            Ok(ready) => {
                let _stage = answer(harvesters, h);
                let _demand = book.commit_demand(ready, h);
                Ok(())
            }
            Err(DemandRefusal::Full) => Err(StepFault::Full),
            Err(DemandRefusal::Memory) => Err(StepFault::Memory),
            Err(DemandRefusal::Targets(fault)) => Err(StepFault::Targets(fault)),
        },
        Event::Raise { harvester: h } => {
            let version = book.version();
            *front = version;
            set(harvesters, h, idle(version, 0));
            Ok(())
        }
        Event::Leave { harvester: h } => {
            let seen = at(harvesters.as_slice(), h).seen;
            set(harvesters, h, idle(seen, 0));
            Ok(())
        }
    }
}
