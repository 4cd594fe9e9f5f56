//! Prices that aren't what they may be.
ghost use Rattle.buck_rule.specs.Standing.{IsInRange};

use crate::class::ClassName;
use crate::replay::Unlawful;
use buck_apt_instruction::Instruction;
use buck_book_postings::Walk;
use buck_rule::{Standing, step};
use buckfleet_reason::{Said, Several, Source};
use std::alloc::Global;
use std::cmp::Ordering;
use std::fmt;

/// The prices that a class may have.
#[derive(Clone, Copy)]
enum Allowed {
    One(u64),
    /// From the first to the second, which a span of 0 leaves the same.
    Between(u64, u64),
}

impl fmt::Display for Allowed {
    fn fmt<W: fmt::Write>(&self, f: &mut fmt::Formatter<W>) -> fmt::Result {
        match *self {
            Allowed::One(price) => write!(f, "{price}"),
            Allowed::Between(least, most) => write!(f, "{least} to {most}"),
        }
    }
}

/// The prices that a class may have by its standing: its base price if it is on its target, up to the span more if
/// it is under it, and down to the span less if it is over it.
fn allowed_prices(standing: &Standing) -> Allowed
    requires { IsInRange standing.now }
{
    let base = standing.base;
    let furthest = step(standing);
    let cut = standing.count * standing.targets;
    match cut.cmp(&(standing.target * standing.counts)) {
        Ordering::Equal => Allowed::One(base),
        Ordering::Less => Allowed::Between(base, furthest),
        Ordering::Greater => Allowed::Between(furthest, base),
    }
}

/// The price of a class in a version of a journal.
#[derive(Clone, Copy)]
struct Price {
    version: u32,
    /// The place of the class among all.
    class: usize,
    price: u32,
}

impl Price {
    /// Says at its place which price is expected.
    fn say<T: fmt::Display + Drop>(
        &self,
        alloc: Global,
        source: &Source<'_>,
        instruction: &Instruction,
        wanted: T,
    ) -> Said {
        let Price {
            version,
            class,
            price,
        } = *self;
        let Some(name) = ClassName::of(instruction, class) else {
            return Ok(None);
        };
        let item = source.sheet_item(version);
        let at = item.map_or(0, |item| item.word(class.saturating_add(1)).at);
        source.here(at).say(
            alloc,
            format_args!("price of version {version}, class {class} ({name}): {price}, {wanted}"),
        )
    }
}

/// Says that a price of the version in force is out of its bounds, at the place where it came into force.
pub(crate) fn price_reason(
    alloc: Global,
    unlawful: &Unlawful<'_>,
    walk: &Walk<'_>,
    class: usize,
) -> Said {
    let instruction = walk.instruction();
    let version = walk.version();
    let journal = unlawful.journal;
    let prices = journal.sheets.get(version as usize);
    let Some(price) = prices.and_then(|prices| prices.get(class).copied()) else {
        return Ok(None);
    };
    if class >= instruction.classes() {
        return Ok(None);
    }
    let allowed = allowed_prices(&walk.standing(class));
    let price = Price {
        version,
        class,
        price,
    };
    price.say(
        alloc,
        &unlawful.source,
        instruction,
        format_args!("expected {allowed}"),
    )
}

/// Says that the prices of a version are missing, are not one for each class, or are too many.
pub(crate) fn sheet_reason(alloc: Global, unlawful: &Unlawful<'_>, version: u32) -> Said {
    let source = &unlawful.source;
    let journal = unlawful.journal;
    let classes = unlawful.instruction.classes();
    let Some(item) = source.sheet_item(version) else {
        let numbers = Several(classes, "number");
        return source.whole().say(
            alloc,
            format_args!("prices (971 1) of version {version}: missing, expected {numbers}"),
        );
    };
    let here = source.here(item.at);
    match journal.sheets.get(version as usize) {
        Some(prices) if prices.len() != classes => {
            let numbers = Several(prices.len(), "number");
            here.say(
                alloc,
                format_args!(
                    "prices (971 1) of version {version}: {numbers}, expected {classes}, one for each class"
                ),
            )
        }
        _ => here.say(
            alloc,
            format_args!(
                "prices (971 1) of version {version}: one list too many, expected {version}"
            ),
        ),
    }
}

/// A price of a journal that isn't what a rule gives.
#[derive(Clone, Copy)]
pub struct Mispriced {
    /// Version of the sheet, from 0.
    pub version: u32,
    /// Index of the class among all, from 0.
    pub class: usize,
    /// Price in the journal, in price units.
    pub price: u32,
    /// Price that the rule gives, in price units.
    pub wanted: u64,
}

/// Returns why the journal of a file isn't that of a rule, in a line of text. Refused as `Memory` alone.
pub fn rule_reason(
    alloc: Global,
    source: &Source<'_>,
    instruction: &Instruction,
    rule: &str,
    mispriced: &Mispriced,
) -> Said {
    let Mispriced {
        version,
        class,
        price,
        wanted,
    } = *mispriced;
    let price = Price {
        version,
        class,
        price,
    };
    price.say(
        alloc,
        source,
        instruction,
        format_args!("expected {wanted} by the rule {rule}"),
    )
}
