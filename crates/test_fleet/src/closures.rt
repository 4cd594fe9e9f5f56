//! Closures of a caller at the ends of the price relation.
ghost use Rattle.std.specs.Prelude.{◌≡◌};
ghost use Rattle.buck_rule.specs.Stored.{AllAnswer};

use buck_rule::{Rule, Standing, step};
use fixture_plays::fixtures::*;
use fixture_plays::play::Do;
use fixture_plays::stage::Stage;
use fixture_plays::turns::*;
use std::alloc::Global;
use std::sync::Wait;
use std::test::Fail;
use std::thread::Threads;

/// Whether two stems of 4,000 mm are cut so by a rule, in periods of one stem and with a limit of 500 per mille: the length
/// in mm of the second one's log and what it is worth, and the sheets after the base sheet.
fn cuts<F: Fn(&Standing) -> u64 + Drop + Send, R: Threads + Wait + Sync>(
    rt: &R,
    alloc: Global,
    rule: Rule<F>,
    second: (u32, u64),
    sheets: [[u32; 4]; 2],
) -> Result<bool, Fail>
    requires { AllAnswer F.Fn }
{
    let stage = Stage::open(alloc)?;
    let whats = [Do::Cut(41), Do::Cut(41)];
    let closed = lone_play(rt, alloc, rule, (1, 500, 100), &whats, &stage)?;
    let postings = [
        Want::Cut(OneLog(0, 4000, LONG)),
        Want::Cut(OneLog(1, second.0, second.1)),
    ];
    Ok(has_postings(&closed, &postings) && has_sheets(&closed, &[BASE, sheets[0], sheets[1]]))
}

#[test]
fn ends_of_the_relation(rt: HostRuntime) -> Result<(), Fail> {
    let alloc = rt.alloc();
    let dearer = Rule::new(|s: &Standing| step(s).max(s.base));
    let sheets = [[600, 750, 900, 800], [600, 750, 900, 800]];
    assert!(rt; cuts(&rt, alloc, dearer, (4000, LONG), sheets)?);
    let cheaper = Rule::new(|s: &Standing| step(s).min(s.base));
    let sheets = [[400, 500, 600, 400], [400, 500, 300, 400]];
    assert!(rt; cuts(&rt, alloc, cheaper, (3000, 88_357_200), sheets)?);
    let cap = 700;
    let capped = Rule::new(move |s: &Standing| step(s).min(s.base.max(cap)));
    let sheets = [[600, 700, 700, 400], [600, 700, 300, 400]];
    assert!(rt; cuts(&rt, alloc, capped, (3000, 103_083_400), sheets)?);
    Ok(())
}
