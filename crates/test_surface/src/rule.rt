//! Price rules.
ghost use Rattle.buck_rule.specs.Standing.{IsInRange};
ghost use Rattle.buck_rule.specs.Stored.{Answers};

use buck_rule::{Rule, Standing};

/// `buck_rule::Rule`: `new` and `answer`.
pub fn rule<F: Fn(&Standing) -> u64>(f: F, standing: &Standing) -> (Rule<F>, u64)
    requires answers { Answers F.Fn f }
    requires range { IsInRange standing.now }
{
    let rule: Rule<F> = Rule::new(f);
    let answer: u64 = rule.answer(standing);
    (rule, answer)
}

/// `buck_rule`: `meets`, `steady`, `linear` and `step`.
pub fn ready_rules(standing: &Standing, price: u64)
    requires { IsInRange standing.now }
{
    let _meets: bool = buck_rule::meets(standing, price);
    let _steady: u64 = buck_rule::steady(standing);
    let _linear: u64 = buck_rule::linear(standing);
    let _step: u64 = buck_rule::step(standing);
}
