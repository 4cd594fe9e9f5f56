//! The lines of the order of refusals.
ghost use Rattle.std.specs.Prelude.{◌≡◌, ◌<◌, ◌≤◌, ◌*◌, ◌==◌, length, slice_index, sum, position, nat_lt};
ghost use Rattle.buck_apt.specs.declared.fault.AptFault.TheVariants.{Module};
ghost use Rattle.buck_apt.specs.Apt.{groups, begins_with_name, group_present, present, group_single, single, draft_range, in_range, draft_order, in_order, draft_count, in_number, is_number_of, none_found, first_off_module, on_module};
ghost use Rattle.buck_apt.specs.Apt.{in_targets, within_limits};

use crate::fault::AptFault;
use crate::rules::{all_above, first_off_module, is_name, sum_of};
use buck_apt_instruction::slots::{
    ALONE, COUNT, DIAMETERS, GRADES, HEAD, IN_ASSORTMENT, LENGTHS, LIMIT, MEMBERS, MODULE,
    MOST_COLUMNS, MOST_GRADES, MOST_ROWS, MOST_TARGETS_TOGETHER, NAME, PERIOD, PRICE_KIND, PRICES,
    SPECIES, TARGETS, TRIM, UPPER,
};
use buck_apt_instruction::{Draft, FileDraft};
use buck_record::check::{all_absent, all_single, all_there, check, each, is_there};
use buck_record::rules::{all_in_range, counted_to, is_rising};
use buck_record::table::front;
use buck_record::{FormFault, Group, Piece};

/// There is a name, and no item of an assortment stands before the first one.
fn begins_with_name<'a>(items: &'a [Piece<'a>]) -> bool
    ensures { result ≡ begins_with_name items.now }
{
    is_there(items, NAME) && all_absent(&IN_ASSORTMENT, front(items, NAME))
}

#[tactic(auto, unfolding(crate::specs::Apt::group_present))]
fn group_present<'a>(group: &'a [Piece<'a>]) -> Result<(), AptFault>
    ensures { result ≡ group_present group.now }
{
    all_there(&MEMBERS, group)
}

/// Each item that must be there is.
#[tactic(auto, unfolding(crate::specs::Apt::present))]
pub(crate) fn present<'a>(items: &'a [Piece<'a>], assortments: &[Group<'_>]) -> Result<(), AptFault>
    requires { assortments.now ≡ groups items.now }
    ensures { result ≡ present items.now }
{
    all_there::<AptFault>(&HEAD, items)?;
    check(begins_with_name(items), AptFault::missing(NAME))?;
    each(assortments, |group| group_present(group.items()))
}

#[tactic(auto, unfolding(crate::specs::Apt::group_single))]
fn group_single<'a>(group: &'a [Piece<'a>]) -> Result<(), AptFault>
    ensures { result ≡ group_single group.now }
{
    all_single(&IN_ASSORTMENT, group)
}

/// No item stands twice in the file or in its assortment.
#[tactic(auto, unfolding(crate::specs::Apt::single))]
pub(crate) fn single<'a>(items: &'a [Piece<'a>], assortments: &[Group<'_>]) -> Result<(), AptFault>
    requires { assortments.now ≡ groups items.now }
    ensures { result ≡ single items.now }
{
    all_single::<AptFault>(&ALONE, items)?;
    each(assortments, |group| group_single(group.items()))
}

#[tactic(auto, unfolding(crate::specs::Apt::draft_range))]
fn draft_range(draft: &Draft) -> Result<(), AptFault>
    ensures { result ≡ draft_range draft.now }
{
    check(is_name(draft.name.as_slice()), AptFault::range(NAME))?;
    all_in_range::<AptFault>(SPECIES, draft.species.as_slice())?;
    all_in_range::<AptFault>(GRADES, draft.grades.as_slice())?;
    all_in_range::<AptFault>(PRICE_KIND, draft.price_kind.as_slice())?;
    all_in_range::<AptFault>(DIAMETERS, draft.diameters.as_slice())?;
    all_in_range::<AptFault>(UPPER, draft.upper.as_slice())?;
    all_in_range::<AptFault>(LENGTHS, draft.lengths.as_slice())?;
    all_in_range::<AptFault>(PRICES, draft.prices.as_slice())?;
    all_in_range::<AptFault>(TARGETS, draft.targets.as_slice())?;
    all_in_range(TRIM, draft.trim.as_slice())
}

/// Each number is in its range, and each name meets its rule.
#[tactic(auto, unfolding(crate::specs::Apt::in_range))]
pub(crate) fn in_range(file: &FileDraft) -> Result<(), AptFault>
    ensures { result ≡ in_range file.now }
{
    all_in_range::<AptFault>(MODULE, file.module.as_slice())?;
    all_in_range::<AptFault>(PERIOD, file.period.as_slice())?;
    all_in_range::<AptFault>(LIMIT, file.limit.as_slice())?;
    all_in_range::<AptFault>(COUNT, file.count.as_slice())?;
    each(file.drafts.as_slice(), |draft| draft_range(draft))
}

#[tactic(auto, unfolding(crate::specs::Apt::draft_order))]
fn draft_order(draft: &Draft) -> Result<(), AptFault>
    ensures { result ≡ draft_order draft.now }
{
    let diameters = draft.diameters.as_slice();
    check(is_rising(draft.grades.as_slice()), AptFault::order(GRADES))?;
    check(is_rising(diameters), AptFault::order(DIAMETERS))?;
    check(
        all_above(diameters, draft.upper.as_slice()),
        AptFault::order(UPPER),
    )?;
    check(
        is_rising(draft.lengths.as_slice()),
        AptFault::order(LENGTHS),
    )
}

/// Each list is in its order.
#[tactic(auto, unfolding(crate::specs::Apt::in_order))]
pub(crate) fn in_order(file: &FileDraft) -> Result<(), AptFault>
    ensures { result ≡ in_order file.now }
{
    each(file.drafts.as_slice(), |draft| draft_order(draft))
}

/// There is one number for each row and column.
fn is_full(numbers: &[u32], rows: usize, columns: usize) -> bool
    requires rows { rows ≤ MOST_ROWS }
    requires columns { columns ≤ MOST_COLUMNS }
    ensures { result ≡ (length numbers.now == rows * columns) }
{
    numbers.len() == rows * columns
}

#[tactic(auto, unfolding(crate::specs::Apt::draft_count))]
fn draft_count(draft: &Draft) -> Result<(), AptFault>
    ensures { result ≡ draft_count draft.now }
{
    let diameters = draft.diameters.as_slice();
    let lengths = draft.lengths.as_slice();
    let prices = draft.prices.as_slice();
    let targets = draft.targets.as_slice();
    counted_to::<AptFault>(SPECIES, 1, draft.species.as_slice())?;
    counted_to::<AptFault>(GRADES, MOST_GRADES, draft.grades.as_slice())?;
    counted_to::<AptFault>(PRICE_KIND, 1, draft.price_kind.as_slice())?;
    counted_to::<AptFault>(DIAMETERS, MOST_ROWS, diameters)?;
    counted_to::<AptFault>(UPPER, 1, draft.upper.as_slice())?;
    counted_to::<AptFault>(LENGTHS, MOST_COLUMNS, lengths)?;
    check(
        is_full(prices, diameters.len(), lengths.len()),
        AptFault::count(PRICES),
    )?;
    check(
        is_full(targets, diameters.len(), lengths.len()),
        AptFault::count(TARGETS),
    )?;
    counted_to(TRIM, 1, draft.trim.as_slice())
}

/// There is one number, and it is that of the drafts.
fn is_number_of(drafts: &[Draft], numbers: &[u32]) -> bool
    ensures { result ≡ is_number_of drafts.now numbers.now }
{
    numbers.len() == 1 && numbers[0] as usize == drafts.len()
}

/// There are as many numbers as there should be.
#[tactic(auto, unfolding(crate::specs::Apt::in_number))]
pub(crate) fn in_number(file: &FileDraft) -> Result<(), AptFault>
    ensures { result ≡ in_number file.now }
{
    let drafts = file.drafts.as_slice();
    counted_to::<AptFault>(MODULE, 1, file.module.as_slice())?;
    counted_to::<AptFault>(PERIOD, 1, file.period.as_slice())?;
    counted_to::<AptFault>(LIMIT, 1, file.limit.as_slice())?;
    check(
        is_number_of(drafts, file.count.as_slice()),
        AptFault::count(COUNT),
    )?;
    each(drafts, |draft| draft_count(draft))
}

fn draft_on_module(module: u32, draft: &Draft) -> Result<(), AptFault>
    requires { 0 < «module» }
    ensures { result ≡ none_found (first_off_module «module» draft.now.lengths) (λ l. Module l) }
{
    match first_off_module(module, draft.lengths.as_slice()) {
        None => Ok(()),
        Some(length) => Err(AptFault::Module { length }),
    }
}

/// Each length is a multiple of the module.
#[tactic(auto, unfolding(crate::specs::Apt::on_module))]
pub(crate) fn on_module(file: &FileDraft) -> Result<(), AptFault>
    requires one { length file.now.«module» ≡ 1 }
    requires above_zero { 0 < slice_index file.now.«module» 0 }
    ensures { result ≡ on_module file.now }
{
    let module = file.module.as_slice()[0];
    let drafts = file.drafts.as_slice();
    each(drafts, |draft| draft_on_module(module, draft))
}

/// The first of the drafts whose targets are too many together.
fn first_with_too_many_targets(drafts: &[Draft]) -> Option<usize>
    ensures { result ≡ position (λ d. nat_lt MOST_TARGETS_TOGETHER (sum d.targets)) drafts.now }
{
    drafts.iter().position(|draft| sum_of(draft.targets.as_slice())
        > u128::from(MOST_TARGETS_TOGETHER))
}

/// No assortment's targets are too many together.
#[tactic(auto, unfolding(crate::specs::Apt::in_targets))]
pub(crate) fn in_targets(file: &FileDraft) -> Result<(), AptFault>
    ensures { result ≡ in_targets file.now }
{
    match first_with_too_many_targets(file.drafts.as_slice()) {
        None => Ok(()),
        Some(assortment) => Err(AptFault::Targets { assortment }),
    }
}

/// What the items say is within the limits.
#[tactic(auto, using(crate::proofs::PassLemmas::one_module), unfolding(crate::specs::Apt::within_limits))]
pub(crate) fn within_limits(file: &FileDraft) -> Result<(), AptFault>
    ensures { result ≡ within_limits file.now }
{
    in_range(file)?;
    in_order(file)?;
    in_number(file)?;
    on_module(file)?;
    in_targets(file)
}
