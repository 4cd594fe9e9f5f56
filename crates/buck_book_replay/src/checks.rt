//! What a journal's sheets and postings have to be.
ghost use Rattle.std.specs.Prelude.{◌≡◌, ◌≢◌, ◌+◌, ◌<◌, ◌≤◌, OnOk, IfOk, IfErr, IfNone, IfSome, length};
ghost use Rattle.buck_book_postings.specs.Posting.{harvester_of, number_of, planned_version};
ghost use Rattle.buck_book_postings.specs.Walk.{passed};
ghost use Rattle.buck_book_journal.specs.Journal.{Begins};
ghost use Rattle.buck_book_replay.specs.Replay.{IsSheetFault, IsSheetRight, IsContentFault, IsNumbered, IsOfVersion, IsCallFault, IsPostingFault, IsNumberFault, IsFaultAtEnd};
ghost use Rattle.buck_book_journal.specs.declared.replay_fault.ReplayFault.TheVariants.{Memory};
ghost use Rattle.buck_book_replay.specs.Order.{HoldsUnder, IsRightUnder, IsEndRight};
ghost use Rattle.buck_book_replay.specs.inner.Replay.{along, sheet_then};
ghost use Rattle.buck_book_postings.specs.declared.posting.TheConstants.{MOST_POSTINGS};

use crate::case::Case;
use buck_book_journal::ReplayFault;
use buck_book_postings::{Posting, Walk, check_targets};
use buck_dp::worth_if_admissible;
use buck_record::check::check;
use buck_value::Sheet;
use std::alloc::Global;
use std::sync::Arc;

/// Checks the prices of the sheet in force at a place.
fn check_prices(case: &Case<'_, '_>, walk: &Walk<'_>) -> Result<(), ReplayFault>
    requires { walk.now.instruction ≡ case.now.instruction }
    ensures right { OnOk result (IsSheetRight (along walk.now case.now.sheets) walk.now.at) }
    ensures refused { IfErr result (λ fault.
        IsSheetFault (along walk.now case.now.sheets) walk.now.at fault) }
{
    let version = walk.version();
    let Some(prices) = case.prices(version) else {
        return Err(ReplayFault::Sheet { version });
    };
    if prices.len() != case.instruction().classes() {
        return Err(ReplayFault::Sheet { version });
    }
    match walk.wrong_price(prices) {
        Some(class) => Err(ReplayFault::Price { version, class }),
        None => Ok(()),
    }
}

/// The sheet in force at a place: a right one, if a period begins there, and else the one that is kept.
pub(crate) fn sheet_in_force(
    alloc: Global,
    case: &Case<'_, '_>,
    walk: &Walk<'_>,
    kept: Option<Arc<Sheet>>,
) -> Result<Arc<Sheet>, ReplayFault>
    requires instruction { walk.now.instruction ≡ case.now.instruction }
    requires none { IfNone kept (Begins (along walk.now case.now.sheets) walk.now.at) }
    requires kept { IfSome kept (λ s. (Begins (along walk.now case.now.sheets) walk.now.at → ⊥)
        → s.value ≡ sheet_then (along walk.now case.now.sheets) walk.now.at) }
    ensures right { OnOk result (Begins (along walk.now case.now.sheets) walk.now.at
        → IsSheetRight (along walk.now case.now.sheets) walk.now.at) }
    ensures sheet { IfOk result (λ s. s.value ≡ sheet_then (along walk.now case.now.sheets) walk.now.at) }
    ensures refused { IfErr result (λ fault. fault ≢ Memory
        → Begins (along walk.now case.now.sheets) walk.now.at
        × IsSheetFault (along walk.now case.now.sheets) walk.now.at fault) }
{
    if !walk.begins_period() {
        match kept {
            Some(sheet) => return Ok(sheet),
            None => unreachable!(),
        }
    }
    check_prices(case, walk)?;
    match case.sheet(alloc, walk.version())? {
        Some(sheet) => Ok(sheet),
        None => unreachable!(),
    }
}

/// Checks what a posting at a place says under a sheet, but for lists of logs that are worth more.
fn check_content(sheet: &Sheet, posting: &Posting, at: usize) -> Result<(), ReplayFault>
    ensures right { OnOk result (HoldsUnder sheet.now posting.now) }
    ensures refused { IfErr result (IsContentFault sheet.now posting.now at) }
{
    match posting {
        Posting::Cut(entry) => {
            match worth_if_admissible(sheet, &entry.stem, &entry.cutting) {
                Some(worth) => check(worth == entry.worth, ReplayFault::Worth { at }),
                None => Err(ReplayFault::Cutting { at }),
            }
        }
        Posting::Demand(demand) => {
            match check_targets(sheet.instruction(), demand.targets.as_slice()) {
                Ok(()) => Ok(()),
                Err(_) => Err(ReplayFault::Targets { at }),
            }
        }
    }
}

/// Who a posting is of, which of its harvester's postings it is, and its version.
fn call_of(posting: &Posting) -> (u32, u32, u32)
    ensures harvester { result.0 ≡ harvester_of posting.now }
    ensures number { result.1 ≡ number_of posting.now }
    ensures version { result.2 ≡ planned_version posting.now }
{
    match posting {
        Posting::Cut(entry) => (entry.harvester, entry.number, entry.version),
        Posting::Demand(demand) => (demand.harvester, demand.number, demand.version),
    }
}

/// The version that a posting says was in force before it.
pub(crate) fn version_of(posting: &Posting) -> u32
    ensures { result ≡ planned_version posting.now }
{
    let (_, _, version) = call_of(posting);
    version
}

/// Checks the number and the version of a posting at a place.
fn check_call(walk: &Walk<'_>, posting: &Posting) -> Result<(), ReplayFault>
    ensures numbered { OnOk result (IsNumbered (passed walk.now) posting.now) }
    ensures version { OnOk result (IsOfVersion walk.now.instruction (passed walk.now) posting.now) }
    ensures refused { IfErr result (λ e.
        IsCallFault walk.now.instruction (passed walk.now) posting.now walk.now.at e) }
{
    let at = walk.at();
    let (harvester, number, version) = call_of(posting);
    if number != walk.next_number(harvester) {
        return Err(ReplayFault::Numbering { at });
    }
    if version != walk.version() {
        return Err(ReplayFault::Version { at });
    }
    Ok(())
}

/// Checks the posting at a place under the sheet in force there, but for lists of logs that are worth more.
pub(crate) fn check_posting(
    sheet: &Sheet,
    walk: &Walk<'_>,
    posting: &Posting,
) -> Result<(), ReplayFault>
    requires { sheet.now.instruction ≡ walk.now.instruction }
    ensures right { OnOk result (IsRightUnder sheet.now (passed walk.now) posting.now) }
    ensures refused { IfErr result
        (IsPostingFault sheet.now (passed walk.now) posting.now walk.now.at) }
{
    check_call(walk, posting)?;
    check_content(sheet, posting, walk.at())
}

/// Checks the number of sheets, of which the last has this version.
fn check_number(case: &Case<'_, '_>, last: u32) -> Result<(), ReplayFault>
    requires { last ≤ MOST_POSTINGS }
    ensures right { OnOk result (length case.now.sheets ≡ last + 1) }
    ensures refused { IfErr result (λ e. IsNumberFault case.now.sheets last e) }
{
    let wanted = last as usize + 1;
    if case.sheets() < wanted {
        let version = case.sheets() as u32;
        return Err(ReplayFault::Sheet { version });
    }
    if case.sheets() > wanted {
        return Err(ReplayFault::Sheet { version: last + 1 });
    }
    Ok(())
}

/// Checks what stands behind the last posting.
pub(crate) fn check_end(case: &Case<'_, '_>, walk: &Walk<'_>) -> Result<(), ReplayFault>
    requires { walk.now.instruction ≡ case.now.instruction }
    ensures right { OnOk result (IsEndRight (along walk.now case.now.sheets) walk.now.at) }
    ensures refused { IfErr result (IsFaultAtEnd (along walk.now case.now.sheets) walk.now.at) }
{
    check_number(case, walk.version())?;
    if walk.begins_period() {
        check_prices(case, walk)?;
    }
    Ok(())
}
