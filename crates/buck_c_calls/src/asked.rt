//! What C asks of runs over files: their rules, their numbers and their draws.
ghost use Rattle.std.specs.Prelude.{◌≡◌, ◌↔◌, IfNone, IfOk, IfErr, IfSome, IsTrue};
ghost use Rattle.std.specs.List.{AllZip};
ghost use Rattle.buck_apt_instruction.specs.Instruction.{IsWithin};
ghost use Rattle.buck_apt_instruction.specs.Settings.{SettingsParts};
ghost use Rattle.buckfleet_tasks.specs.declared.journals.CrossCheck.{CrossCheck};
ghost use Rattle.buckfleet_tasks.specs.declared.combination.Combination.{Combination};
ghost use Rattle.buck_c_calls.specs.Asked.{AreSettings, IsCombination, IsCrossCheck, draws_by, told};
ghost use Rattle.buck_c_calls.specs.inner.Stopped.{AreUncombined};

use crate::book::rule_of;
use crate::several::Stop;
use buck_apt_instruction::Settings;
use buck_rule::NamedRule;
use buckfleet_engine_cross_check::CrossCheck;
use buckfleet_trial::Draws;
use buckfleet_trial_sweep::Combination;
use std::alloc::Global;

/// In the place of a number: the instruction's own stays.
const OWN: u32 = u32::MAX;

/// In the place of a rule's number: prices need follow none.
const ANY_RULE: u8 = u8::MAX;

/// Numbers that a run puts in the place of the instruction's own.
#[repr(C)]
#[derive(Clone, Copy, Drop)]
pub struct Numbers {
    /// The period, 1 to 1,000 stems; 4,294,967,295 for the instruction's own.
    pub period: u32,
    /// The limit, 0 to 1,000 per mille; 4,294,967,295 for the instruction's own.
    pub limit: u32,
}

/// The numbers of two runs that are compared.
#[repr(C)]
#[derive(Clone, Copy, Drop)]
pub struct Pair {
    /// Those of the first journal.
    pub first: Numbers,
    /// Those of the second.
    pub second: Numbers,
}

/// A run: its numbers and its rule.
#[repr(C)]
#[derive(Clone, Copy, Drop)]
pub struct Run {
    /// The numbers in the place of the instruction's own.
    pub numbers: Numbers,
    /// Number of the rule that makes the prices: 0 steady, 1 linear, 2 step, 3 root; of a check also 255, for any.
    pub rule: u8,
}

/// Orders of the stems that are drawn by chance.
#[repr(C)]
#[derive(Clone, Copy, Drop)]
pub struct Orders {
    /// State of the generator before the first draw; any number.
    pub seed: u64,
    /// Number of orders; 0 for none.
    pub number: u16,
}

/// A run that is made in drawn orders too.
#[repr(C)]
#[derive(Clone, Copy, Drop)]
pub struct DrawnRun {
    /// The run.
    pub run: Run,
    /// The orders.
    pub draws: Orders,
}

/// Runs that are compared, each of which is made in drawn orders too.
#[derive(Clone, Copy, Drop)]
pub struct DrawnRuns<'x> {
    /// The runs, in the order of their lines.
    pub runs: &'x [Run],
    /// The orders.
    pub draws: &'x Orders,
}

/// A number, if one is given.
fn told(number: u32) -> Option<u32>
    ensures { result ≡ told number }
{
    if number == OWN { None } else { Some(number) }
}

/// Whether a number, if one is given, is from a least one to 1,000.
fn is_within(number: Option<u32>, least: u32) -> bool
    ensures { IsTrue result ↔ IfSome number (IsWithin least 1000) }
{
    match number {
        None => true,
        Some(number) => least <= number && number <= 1000,
    }
}

/// What numbers put in the place of the instruction's own; none if one of them isn't allowed.
pub(crate) fn settings_of(numbers: &Numbers) -> Option<Settings>
    ensures some { IfSome result (AreSettings numbers.now) }
    ensures none { IfNone result ((s : SettingsParts) → AreSettings numbers.now s → ⊥) }
{
    let period = told(numbers.period);
    let limit = told(numbers.limit);
    if !is_within(period, 1) {
        return None;
    }
    if !is_within(limit, 0) {
        return None;
    }
    Settings::of(period, limit)
}

/// A run as the engines are asked for it; none if its rule or one of its numbers isn't allowed.
pub(crate) fn combination_of(run: &Run) -> Option<Combination>
    ensures some { IfSome result (IsCombination run.now) }
    ensures none { IfNone result ((c : Combination) → IsCombination run.now c → ⊥) }
{
    let Some(rule) = rule_of(run.rule) else {
        return None;
    };
    match settings_of(&run.numbers) {
        None => None,
        Some(settings) => Some(Combination { rule, settings }),
    }
}

/// Runs as the engines are asked for them.
pub(crate) fn combinations_of(alloc: Global, runs: &[Run]) -> Result<Vec<Combination>, Stop>
    ensures made { IfOk result (λ made. AllZip IsCombination runs.now made.items) }
    ensures refused { IfErr result (AreUncombined runs.now) }
{
    let mut made = Vec::new(alloc);
    for run in runs {
        let Some(combination) = combination_of(run) else {
            return Err(Stop::Misused);
        };
        made.push(combination)?;
    }
    Ok(made)
}

/// What a journal is held against, beside stem files; none if the rule or one of the numbers isn't allowed.
pub(crate) fn cross_check_of(run: &Run) -> Option<CrossCheck>
    ensures some { IfSome result (IsCrossCheck run.now) }
    ensures none { IfNone result ((by : CrossCheck) → IsCrossCheck run.now by → ⊥) }
{
    let Some(settings) = settings_of(&run.numbers) else {
        return None;
    };
    if run.rule == ANY_RULE {
        return Some(CrossCheck {
            rule: None,
            settings,
        });
    }
    match rule_of(run.rule) {
        None => None,
        Some(rule) => Some(CrossCheck {
            rule: Some(rule),
            settings,
        }),
    }
}

/// The orders that are to be drawn, if there are some.
pub(crate) fn draws_of(orders: &Orders) -> Option<Draws>
    ensures { result ≡ draws_by orders.now }
{
    if orders.number == 0 {
        return None;
    }
    Some(Draws {
        number: orders.number,
        seed: orders.seed,
    })
}
