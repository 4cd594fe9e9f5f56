//! What comes of a case.
ghost use Rattle.buck_rule.specs.Stored.{AllAnswer};

use crate::commanding::outcome_of_words;
use buck_rule::{NamedRule, Rule, Standing};
use buckfleet_engine::{run_bare, run_buck, run_check, run_fleet_files};
use buckfleet_engine_files::{EngineFault, status, write_fault};
use fixture_cases::{Case, Engine, Inputs, Outcome};
use std::alloc::Global;
use std::sync::Wait;
use std::thread::Threads;

/// A fleet of one harvester.
fn run_by<F: Fn(&Standing) -> u64 + Drop + Send, T: Threads + Wait + Sync>(
    rt: &T,
    alloc: Global,
    rule: Rule<F>,
    inputs: &Inputs,
    got: &mut Outcome,
) -> Result<(), EngineFault>
    requires { AllAnswer F.Fn }
{
    let mut apt = inputs.apt.as_slice();
    let mut stms = [inputs.stm.as_slice()];
    let journal = Some(&mut got.journal);
    run_fleet_files(rt, alloc, &mut apt, &mut stms, rule, journal, &mut got.text)
}

/// The same by a rule of a name.
fn run_fleet<T: Threads + Wait + Sync>(
    rt: &T,
    alloc: Global,
    rule: NamedRule,
    inputs: &Inputs,
    got: &mut Outcome,
) -> Result<(), EngineFault> {
    run_by(
        rt,
        alloc,
        Rule::new(move |s: &Standing| rule.price(s)),
        inputs,
        got,
    )
}

/// Runs the engine of a case over its files.
fn run_engine<T: Threads + Wait + Sync>(
    rt: &T,
    alloc: Global,
    engine: Engine,
    inputs: &Inputs,
    got: &mut Outcome,
) -> Result<(), EngineFault> {
    let mut apt = inputs.apt.as_slice();
    match engine {
        Engine::Bare => run_bare(alloc, &mut inputs.input.as_slice(), &mut got.text),
        Engine::Buck => run_buck(alloc, &mut apt, &mut inputs.stm.as_slice(), &mut got.text),
        Engine::Check => run_check(alloc, &mut apt, &mut inputs.jrn.as_slice(), &mut got.text),
        Engine::Fleet(rule) => run_fleet(rt, alloc, rule, inputs, got),
        Engine::Words => Ok(()),
    }
}

/// What comes of a case.
pub fn outcome_of<T: Threads + Wait + Sync>(rt: &T, alloc: Global, case: &Case<'_>) -> Outcome {
    if let Engine::Words = case.engine {
        return outcome_of_words(rt, alloc, &case.words, &case.inputs);
    }
    let mut got = Outcome::none(alloc);
    if let Err(fault) = run_engine(rt, alloc, case.engine, &case.inputs, &mut got) {
        got.status = status(&fault);
        if !write_fault(&mut got.line, &fault) {
            got.line.clear();
        }
    }
    got
}
