//! Wrong bodies of which runs a table has.
use buck_apt_instruction::Instruction;
use buck_rule::NamedRule;
use buckfleet_trial_sweep::combinations;
use std::alloc::Global;

/// A period of no stem is accepted: an instruction would have it, and none has one of less than a stem.
pub fn period_of_nothing_accepted(alloc: Global, instruction: Instruction) {
    if let Ok(right) = combinations(alloc, &[NamedRule::Steady], &[Some(0)], &[None]) {
        let _period = match &right {
            Some(made) => instruction.with(&made[0].settings).period(),
            None => return,
        };
        prove!(right.is_none());
    }
}

/// A period and a limit are refused, though they may stand in an instruction.
pub fn greatest_numbers_refused(alloc: Global) {
    if let Ok(right) = combinations(alloc, &[NamedRule::Steady], &[Some(1000)], &[Some(1000)]) {
        prove!(right.is_some());
    }
}
