//! A file of targets: the lists that stand in its items `918 1`, the first of the first assortment.
ghost use Rattle.std.specs.Prelude.{◌≡◌, ◌↔◌, IfErr, IfOk, IsTrue, OnOk, length};
ghost use Rattle.std.specs.List.{concat};
ghost use Rattle.buck_record.specs.Reading.{Gives, listed, with_fault};
ghost use Rattle.buck_record.specs.bytes.Record.{numbers_of};
ghost use Rattle.buck_apt_instruction.specs.Instruction.{classes};
ghost use Rattle.buck_book_postings.specs.Targets.{AreTargets};
ghost use Rattle.buckfleet_terms_files.specs.declared.fault.TargetsFault.TheVariants.{Digits, Memory};
ghost use Rattle.buckfleet_terms_files.specs.Targets.{AreFitting, HasTargets, IsRefused, all_of, lists_of};
ghost use Rattle.buckfleet_terms_files.specs.inner.Checked.{IsCheckFault};

use crate::fault::TargetsFault;
use buck_apt_instruction::slots::TARGETS;
use buck_apt_instruction::{Assortment, Instruction};
use buck_book_postings::check_targets;
use buck_record::{Listed, Piece, RecordFault, numbers, pieces_at};
use std::alloc::Global;

/// The numbers of the list at a place.
fn numbers_in(alloc: Global, list: usize, item: &Piece<'_>) -> Result<Vec<u32>, TargetsFault>
    ensures { Gives Memory (listed result) (with_fault (λ place. Digits list place) (numbers_of item.now.rest)) }
{
    match numbers(alloc, item.rest) {
        Ok(numbers) => Ok(numbers),
        Err(RecordFault::Digits { place }) => Err(TargetsFault::Digits { list, place }),
        Err(_) => Err(TargetsFault::Memory),
    }
}

/// The lists of targets that stand in a file.
fn lists_in(alloc: Global, bytes: &[u8]) -> Result<Vec<Listed<u32>>, TargetsFault>
    ensures { Gives Memory (listed result) (lists_of bytes.now) }
{
    let items = match pieces_at(alloc, bytes, &[TARGETS]) {
        Ok(items) => items,
        Err(RecordFault::Head { item }) => return Err(TargetsFault::Head { item }),
        Err(_) => return Err(TargetsFault::Memory),
    };
    let mut lists = Vec::new(alloc);
    for list in 0..items.len() {
        let numbers = numbers_in(alloc, list, &items[list])?;
        lists.push(Listed::of(numbers))?;
    }
    Ok(lists)
}

/// Whether there is a list for each assortment, with a number for each class.
fn are_fitting(lists: &[Listed<u32>], assortments: &[Assortment]) -> bool
    ensures { IsTrue result ↔ AreFitting lists.now assortments.now }
{
    if lists.len() != assortments.len() {
        return false;
    }
    for at in 0..lists.len() {
        if lists[at].len() != assortments[at].classes() {
            return false;
        }
    }
    true
}

/// The numbers of all lists, one after the other.
fn joined(alloc: Global, lists: &[Listed<u32>]) -> Result<Vec<u32>, TargetsFault>
    ensures ok { IfOk result (λ all. all.items ≡ concat lists.now) }
    ensures refused { IfErr result (λ fault. fault ≡ Memory) }
{
    let mut all = Vec::new(alloc);
    for list in lists {
        all.extend_from_slice(list.as_slice())?;
    }
    Ok(all)
}

/// All numbers of the items `918 1` of a file, one list after the other, whatever they are. Refused as `Head`, else as
/// `Digits`, and as `Memory`, as by [`targets_in`].
pub fn all_numbers(alloc: Global, bytes: &[u8]) -> Result<Vec<u32>, TargetsFault>
    ensures { Gives Memory (listed result) (all_of bytes.now) }
{
    let lists = lists_in(alloc, bytes)?;
    joined(alloc, lists.as_slice())
}

/// What is wrong with targets that are one for each class.
fn check_all(instruction: &Instruction, targets: &[u32]) -> Result<(), TargetsFault>
    requires { length targets.now ≡ classes instruction.now }
    ensures valid { OnOk result (AreTargets instruction.now targets.now) }
    ensures refused { IfErr result (IsCheckFault instruction.now targets.now) }
{
    match check_targets(instruction, targets) {
        Ok(()) => Ok(()),
        Err(buck_book_postings::TargetsFault::Count) => Err(TargetsFault::Count),
        Err(buck_book_postings::TargetsFault::Range { at }) => Err(TargetsFault::Range { at }),
        Err(buck_book_postings::TargetsFault::Sum { assortment }) => Err(TargetsFault::Sum {
            assortment,
        }),
    }
}

/// The targets that the bytes of a file have, one for each class of an instruction, assortment by assortment and row by
/// row: its k-th item `918 1` has those of assortment k. All other items are skipped, so that an instruction file will
/// do.
///
/// Refused as `Head` if an item has no head, else as `Digits` with the first word that is no number, else as `Count`
/// if there isn't one list for each assortment, with one number for each class, else as `Range` with the least class
/// whose target is above 1,000,000, else as `Sum` with the least assortment whose targets are above 1,000,000,000
/// together; and as `Memory` if an allocation failed.
pub fn targets_in(
    alloc: Global,
    bytes: &[u8],
    instruction: &Instruction,
) -> Result<Vec<u32>, TargetsFault>
    ensures targets { IfOk result (λ targets. HasTargets instruction.now bytes.now targets.items) }
    ensures refused { IfErr result (IsRefused instruction.now bytes.now) }
{
    let lists = lists_in(alloc, bytes)?;
    let lists = lists.as_slice();
    if !are_fitting(lists, instruction.assortments()) {
        return Err(TargetsFault::Count);
    }
    let targets = joined(alloc, lists)?;
    check_all(instruction, targets.as_slice())?;
    Ok(targets)
}
