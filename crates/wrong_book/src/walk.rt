//! Wrong answers of a way through the postings of a history.
ghost use Rattle.std.specs.Prelude.{◌≡◌, ◌<◌, [], ◌∷◌, length};
ghost use Rattle.buck_apt_instruction.specs.Instruction.{classes};
ghost use Rattle.buck_book_postings.specs.Counts.{calls_of};
ghost use Rattle.buck_book_postings.specs.History.{PricesMeet};
ghost use Rattle.buck_book_postings.specs.Targets.{AreTargets};
ghost use Rattle.buck_rule.specs.Stored.{Answers};
ghost use Rattle.buck_book_postings.specs.Pricing.{AreAnswers};
ghost use Rattle.buck_book_postings.specs.Walk.{StandsAfter, passed};
ghost use Rattle.wrong_book.specs.Books.{IsRightPriceAt};

use buck_apt_instruction::Instruction;
use buck_book_postings::{Demand, Memory, Posting, Walk};
use buck_rule::{Rule, Standing};
use buck_value::Sheet;
use std::alloc::Global;

/// No period begins at the opening.
pub fn begins_after_a_cut(alloc: Global, instruction: &Instruction) -> Result<(), Memory> {
    let walk = Walk::opening(alloc, instruction, &[])?;
    let right = walk.begins_period();
    let wrong = false;
    prove!(right != wrong);
    Ok(())
}

/// The first posting comes again after it was passed.
pub fn first_posting_again(walk: &Walk<'_>)
    requires one { length walk.now.postings ≡ 1 }
    requires passed { walk.now.at ≡ 1 }
{
    let right = walk.next().is_some();
    let wrong = true;
    prove!(right != wrong);
}

/// The next call is given the number of the harvester's last one.
pub fn next_number_of_the_last_call(walk: &Walk<'_>)
    requires { calls_of 3 (passed walk.now) ≡ 1 }
{
    let right = walk.next_number(3);
    let wrong = 1;
    prove!(right != wrong);
}

/// A demand that is passed ends no period.
pub fn passed_demand_is_no_end<'a>(
    alloc: Global,
    sheet: &'a Sheet,
    postings: &'a [Posting],
    posting: &Posting,
    demand: &Demand,
) -> Result<(), Memory>
    requires one { postings.now ≡ posting.now ∷ [] }
    requires demand { posting.now ≡ Posting.Demand demand.now }
    requires valid { AreTargets sheet.now.instruction demand.now.targets }
{
    let walk = Walk::opening(alloc, sheet.instruction(), postings)?;
    let walk = walk.pass(sheet, posting)?;
    let right = walk.version();
    let wrong = 0;
    prove!(right != wrong);
    Ok(())
}

/// A class whose price is right is reported, such as the first in the row of a wrong one.
pub fn wrong_price_at_its_row(walk: &Walk<'_>, prices: &[u32], wrong: usize)
    requires number { length prices.now ≡ classes walk.now.instruction }
    requires right { IsRightPriceAt walk.now prices.now wrong }
{
    let Some(right) = walk.wrong_price(prices) else {
        return;
    };
    prove!(right != wrong);
}

/// A wrong price is passed over.
pub fn wrong_price_not_seen(walk: &Walk<'_>, prices: &[u32])
    requires number { length prices.now ≡ classes walk.now.instruction }
    requires against { PricesMeet walk.now.instruction (passed walk.now) prices.now → ⊥ }
{
    let right = walk.wrong_price(prices).is_none();
    let wrong = true;
    prove!(right != wrong);
}

/// The standing is that of another class, or of an earlier time: against other targets, or by other counts.
pub fn standing_of_another_place(walk: &Walk<'_>, class: usize, wrong: &Standing)
    requires exists { class < classes walk.now.instruction }
    requires another { StandsAfter walk.now.instruction (passed walk.now) class wrong.now → ⊥ }
{
    let right = walk.standing(class);
    prove!(right != *wrong);
}

/// A price that the closure can't answer to the standing of its class here, as if it were asked for an earlier one.
pub fn prices_of_another_place<F: Fn(&Standing) -> u64>(
    alloc: Global,
    walk: &Walk<'_>,
    rule: &Rule<F>,
    wrong: &[u32],
) -> Result<(), Memory>
    requires answers { Answers F.Fn rule.now }
    requires another { AreAnswers F.Fn rule.now walk.now.instruction (passed walk.now) wrong.now → ⊥ }
{
    let right = walk.prices(alloc, rule)?;
    prove!(right.as_slice() != wrong);
    Ok(())
}
