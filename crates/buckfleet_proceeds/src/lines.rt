//! The lines of an appraisal.
ghost use Rattle.std.specs.Prelude.{◌≡◌, ◌++◌, IfOk, OnOk, length};
ghost use Rattle.buckfleet_proceeds.specs.Text.{appraisal_text, assortment_line, assortment_lines, harvester_lines, loss_rate, paid_cells, whole_line};

use crate::appraisal::Appraisal;
use crate::paid::{Account, Paid};
use buck_apt_instruction::{Assortment, Instruction};
use buck_page_cells::{Change, put_change, put_number, put_numbers};
use buck_page_text::{half_up, put_quoted};
use buck_record::Memory;
use std::alloc::Global;
use std::collections::BTreeMap;

/// The names of the columns.
const HEAD: &[u8] =
    b"line,number,stems,logs,best_logs,unbought_logs,volume_cm3,best_volume_cm3,worth_millionths,best_worth_millionths,\
loss_millionths,loss_ten_thousandths,name\n";

/// What is lost of the best, in ten-thousandths, to the nearest; 0 if that is nothing.
fn loss_rate(account: &Account) -> u128
    ensures { result ≡ loss_rate account.now }
{
    let best = account.best.worth;
    if best == 0 {
        return 0;
    }
    half_up(10_000 * (best - account.cut.worth), best)
}

/// Puts what logs come to as cut and of the best cuttings, up to the loss.
fn put_paid(out: &mut Vec<u8>, cut: &Paid, best: &Paid) -> Result<(), Memory>
    ensures { OnOk result (out.new.items ≡ out.old.items ++ paid_cells cut.now best.now) }
{
    put_numbers(
        out,
        &[
            u128::from(cut.logs),
            u128::from(best.logs),
            u128::from(cut.unbought),
            cut.volume,
            best.volume,
            cut.worth,
            best.worth,
        ],
    )?;
    put_change(
        out,
        Some(Change {
            from: cut.worth,
            to: best.worth,
        }),
    )
}

/// Puts the line of a harvester or of all.
fn put_whole(
    out: &mut Vec<u8>,
    what: &[u8],
    number: Option<u128>,
    account: &Account,
) -> Result<(), Memory>
    ensures { OnOk result (out.new.items ≡ out.old.items ++ whole_line what.now number account.now) }
{
    out.extend_from_slice(what)?;
    put_number(out, number)?;
    put_number(out, Some(u128::from(account.stems)))?;
    put_paid(out, &account.cut, &account.best)?;
    put_number(out, Some(loss_rate(account)))?;
    out.extend_from_slice(b",\n")?;
    Ok(())
}

/// Puts the line of an assortment.
fn put_assortment(
    out: &mut Vec<u8>,
    at: usize,
    cut: &Paid,
    best: &Paid,
    name: &[u8],
) -> Result<(), Memory>
    ensures { OnOk result (out.new.items ≡ out.old.items ++ assortment_line at cut.now best.now name.now) }
{
    out.extend_from_slice(b"assortment")?;
    put_number(out, Some(at as u128))?;
    put_number(out, None)?;
    put_paid(out, cut, best)?;
    out.extend_from_slice(b",,")?;
    put_quoted(out, name)?;
    out.push(b'\n')?;
    Ok(())
}

/// Puts the lines of harvesters, by number.
fn put_harvesters(out: &mut Vec<u8>, harvesters: &BTreeMap<u32, Account>) -> Result<(), Memory>
    ensures { OnOk result (out.new.items ≡ out.old.items ++ harvester_lines harvesters.now) }
{
    for (harvester, account) in harvesters {
        let number = Some(u128::from(*harvester));
        put_whole(out, b"harvester", number, account)?;
    }
    Ok(())
}

/// Puts the lines of assortments.
#[tactic(auto, using(crate::proofs::Texts::lines_end))]
fn put_assortments(
    out: &mut Vec<u8>,
    assortments: &[Assortment],
    cut: &[Paid],
    best: &[Paid],
) -> Result<(), Memory>
    requires cut { length cut.now ≡ length assortments.now }
    requires best { length best.now ≡ length assortments.now }
    ensures { OnOk result (out.new.items ≡ out.old.items ++ assortment_lines 0 assortments.now cut.now best.now) }
{
    for at in 0..assortments.len() {
        put_assortment(out, at, &cut[at], &best[at], assortments[at].name())?;
    }
    Ok(())
}

/// The text of an appraisal: a line of columns, then one for each harvester, by number, for each assortment, and for
/// all. The names are those of the instruction of the journals.
#[tactic(auto, unfolding(crate::specs::Text::appraisal_text))]
pub(crate) fn appraisal_text(
    alloc: Global,
    instruction: &Instruction,
    appraisal: &Appraisal,
) -> Result<Vec<u8>, Memory>
    requires cut { length appraisal.now.assortments.items ≡ length instruction.now.assortments }
    requires best { length appraisal.now.best_assortments.items ≡ length instruction.now.assortments }
    ensures { IfOk result (λ text. text.items ≡ appraisal_text instruction.now appraisal.now) }
{
    let mut out = Vec::new(alloc);
    out.extend_from_slice(HEAD)?;
    put_harvesters(&mut out, &appraisal.harvesters)?;
    put_assortments(
        &mut out,
        instruction.assortments(),
        appraisal.assortments.as_slice(),
        appraisal.best_assortments.as_slice(),
    )?;
    put_whole(&mut out, b"total", None, &appraisal.total)?;
    Ok(out)
}
