//! Wrong answers of price rules.
use buck_rule::{NamedRule, Rule, Standing, linear, meets, root, steady, step};

/// A class under its target: one piece of four is wanted, and one log of another class was cut.
const UNDER: Standing = Standing {
    base: 600,
    limit: 500,
    target: 1,
    targets: 4,
    count: 0,
    counts: 1,
};

/// The same class over its target: it is the one that was cut.
const OVER: Standing = Standing {
    base: 600,
    limit: 500,
    target: 1,
    targets: 4,
    count: 1,
    counts: 1,
};

/// A class under its target by one standard deviation: two of sixteen logs are of it.
const LACKING: Standing = Standing {
    base: 600,
    limit: 500,
    target: 1,
    targets: 4,
    count: 2,
    counts: 16,
};

/// The base price in the place of what the closure answers.
pub fn closure_not_asked() {
    let standing = UNDER;
    let rule = Rule::new(|s: &Standing| step(s));
    let right = rule.answer(&standing);
    let wrong = 600;
    prove!(right != wrong);
}

/// The steady price is the base price and its span.
pub fn steady_by_span() {
    let standing = UNDER;
    let right = steady(&standing);
    let wrong = 900;
    prove!(right != wrong);
}

/// A step down for a class under its target.
pub fn step_under_and_over_swapped() {
    let standing = UNDER;
    let right = step(&standing);
    let wrong = 300;
    prove!(right != wrong);
}

/// The part over the target is taken of both shares together.
pub fn linear_of_wrong_whole() {
    let standing = OVER;
    let right = linear(&standing);
    let wrong = 600 - 300 * (4 - 1) / (4 + 1);
    prove!(right != wrong);
}

/// Wanted and cut are swapped: the deviation is that of what was cut.
#[tactic(auto, unfolding(buck_rule::specs::Root::root_up_to))]
pub fn root_of_what_was_cut() {
    let standing = LACKING;
    let right = root(&standing);
    let wrong = 600 + 300 * 8 / (8 + 6);
    prove!(right != wrong);
}

/// The rule root by its name gives what linear does.
#[tactic(auto, unfolding(buck_rule::specs::Root::root_up_to))]
pub fn price_of_another_rule() {
    let standing = UNDER;
    let right = NamedRule::Root.price(&standing);
    let wrong = 900;
    prove!(right != wrong);
}

/// A word that no rule has is taken for the steady rule.
pub fn rule_of_no_word() {
    let right = NamedRule::of_name("rot");
    let wrong = Some(NamedRule::Steady);
    prove!(right != wrong);
}

/// Under the target one price more is let in than the span reaches.
pub fn meets_wide_above_the_span() {
    let standing = UNDER;
    let right = meets(&standing, 901);
    let wrong = true;
    prove!(right != wrong);
}
