//! Which runs a table has a line for.
ghost use Rattle.std.specs.Prelude.{◌≡◌, IfNone, IfOk, IfSome};
ghost use Rattle.buckfleet_tasks.specs.Combinations.{AreNumbers, combinations_of};

use buck_apt_instruction::Settings;
use buck_record::Memory;
use buck_rule::NamedRule;
use std::alloc::Global;

/// A run of a table: its rule, and the numbers that are put in the place of the instruction's own.
#[derive(Drop)]
pub struct Combination {
    /// How prices follow what was cut.
    pub rule: NamedRule,
    /// The numbers that are put in the place of the instruction's own.
    pub settings: Settings,
}

/// Each rule with each period and each limit: for the first rule all periods, for each of these all limits, and then
/// the next rule. A period or a limit that isn't given is the instruction's own. None if a period isn't from 1 to 1,000
/// stems, or a limit is above 1,000 per mille, and there is a run with it; `Memory` if an allocation failed.
pub fn combinations(
    alloc: Global,
    rules: &[NamedRule],
    periods: &[Option<u32>],
    limits: &[Option<u32>],
) -> Result<Option<Vec<Combination>>, Memory>
    ensures made { IfOk result (λ o.
        IfSome o (λ made. made.items ≡ combinations_of rules.now periods.now limits.now)) }
    ensures refused { IfOk result (λ o. IfNone o (AreNumbers periods.now limits.now → ⊥)) }
{
    let mut made = Vec::new(alloc);
    for rule in rules {
        for period in periods {
            for limit in limits {
                let Some(settings) = Settings::of(*period, *limit) else {
                    return Ok(None);
                };
                made.push(Combination {
                    rule: *rule,
                    settings,
                })?;
            }
        }
    }
    Ok(Some(made))
}
