//! Wrong bodies of prices that are tuned, and of the instruction that is printed.
ghost use Rattle.std.specs.Prelude.{◌≡◌, ◌≢◌, ◌∷◌, [], Ok, IfSome, Some, None, map, slice_index};
ghost use Rattle.buck_apt.specs.Apt.{apt_of};
ghost use Rattle.buck_apt_instruction.specs.Instruction.{InstructionParts};
ghost use Rattle.buck_value.specs.Sheet.{base_prices};
ghost use Rattle.buck_book_postings.specs.History.{prices_at};
ghost use Rattle.buck_book_postings.specs.Posting.{planned_version};
ghost use Rattle.buckfleet_trial.specs.Inputs.{held_with};
ghost use Rattle.buckfleet_trial_tune.specs.Tune.{tuned_price};

use buck_apt::read_apt;
use buck_book_postings::Parts;
use buckfleet_engine_files::{Nobody, OneThread};
use buckfleet_trial::Opened;
use buckfleet_trial_tune::{TuneTask, run_tune, tuned_prices};
use std::alloc::Global;

/// The base price that a history tunes for a class.
fn tuned_of(alloc: Global, parts: &Parts, class: usize) -> Option<u32>
    ensures { IfSome result (λ price. price ≡ tuned_price parts.now class) }
{
    match tuned_prices(alloc, parts) {
        Ok(prices) => prices.as_slice().get(class).copied(),
        Err(_) => None,
    }
}

/// Of prices that were 10 twice under one sheet and 20 once under the next, each sheet counts once.
pub fn tuned_by_sheets(alloc: Global, parts: &Parts, class: usize)
    requires bought { slice_index (base_prices parts.now.instruction) class ≢ 0 }
    requires prices { map (λ x. slice_index (prices_at parts.now.sheets (planned_version x)) class)
        parts.now.postings ≡ 10 ∷ 10 ∷ 20 ∷ [] }
{
    if let Some(right) = tuned_of(alloc, parts, class) {
        let wrong = 15;
        prove!(right != wrong);
    }
}

/// A class that isn't bought gets the least price.
pub fn tuned_a_class_that_is_not_bought(alloc: Global, parts: &Parts, class: usize)
    requires { slice_index (base_prices parts.now.instruction) class ≡ 0 }
{
    if let Some(right) = tuned_of(alloc, parts, class) {
        let wrong = 1;
        prove!(right != wrong);
    }
}

/// An instruction and one stem file, open.
fn opened<'x>(alloc: Global, apt: &'x [u8], stm: &'x [u8]) -> Option<Opened<&'x [u8]>>
    ensures apt { IfSome result (λ o. o.apt.now ≡ apt.now) }
    ensures targets { IfSome result (λ o. held_with (λ s. Some s.now) o.targets ≡ None) }
{
    let mut stms = Vec::new(alloc);
    let Ok(()) = stms.push(stm) else {
        return None;
    };
    Some(Opened {
        apt,
        stms,
        targets: None,
    })
}

/// The limit of the run is printed in the place of the instruction's own.
pub fn limit_of_the_run_printed<'x>(
    alloc: Global,
    task: &TuneTask<'_>,
    apt: &'x [u8],
    stm: &'x [u8],
)
    requires own { (i : InstructionParts) → apt_of apt.now ≡ Ok i → i.limit ≡ 300 }
    requires run { task.now.settings.limit ≡ Some 50 }
{
    let Some(files) = opened(alloc, apt, stm) else {
        return;
    };
    let mut out = Vec::new(alloc);
    if let Ok(()) = run_tune(&OneThread, alloc, task, &Nobody, files, &mut out) {
        if let Ok(right) = read_apt(alloc, out.as_slice()) {
            let right = right.limit();
            let wrong = 50;
            prove!(right != wrong);
        }
    }
}
