//! The page of a journal that isn't lawful.
use buck_apt_instruction::Instruction;
use buck_book_journal::ReplayFault;
use buck_book_postings::Posting;
use buck_page_sections::{Files, PAGE_END, SIGN, begin_page};
use buck_page_text::{Apart, Grouped, class_text};
use buck_record::{Memory, Numbered};
use std::alloc::Global;
use std::slice::from_ref;

/// The posting that a fault is of, if it is of one, and what is wrong with it.
fn wrong_posting(fault: &ReplayFault) -> Option<(usize, &'static str)> {
    match fault {
        ReplayFault::Numbering { at } => Some((
            *at,
            "its number is not the harvester&#8217;s next",
        )),
        ReplayFault::Version { at } => Some((*at, "it was not planned at the prices in force")),
        ReplayFault::Cutting { at } => Some((*at, "its logs can&#8217;t be cut from the stem")),
        ReplayFault::Worth { at } => Some((*at, "its worth is not the worth of its logs")),
        ReplayFault::Outvalued { at } => Some((*at, "another cutting of the stem is worth more")),
        ReplayFault::Targets { at } => Some((*at, "its targets are not valid")),
        ReplayFault::Sheet { .. } | ReplayFault::Price { .. } | ReplayFault::Memory => None,
    }
}

/// Writes the class at a place among all, if there is one, behind its assortment.
fn write_class(out: &mut String, instruction: &Instruction, place: usize) -> Result<(), Memory> {
    let mut rest = place;
    for assortment in instruction.assortments() {
        let classes = assortment.classes();
        if rest < classes {
            let name = Apart(assortment.name());
            return Ok(write!(out, "{name}, {}", class_text(assortment, rest))?);
        }
        rest -= classes;
    }
    Ok(())
}

/// Writes whose posting it is, and of what.
fn write_who(out: &mut String, posting: Option<&Posting>) -> Result<(), Memory> {
    match posting {
        Some(Posting::Cut(entry)) => write!(
            out,
            " (harvester {}, stem {})",
            entry.harvester,
            entry.stem.number()
        )?,
        Some(Posting::Demand(demand)) => write!(
            out,
            " (harvester {}, a change of targets)",
            demand.harvester
        )?,
        None => {}
    }
    Ok(())
}

/// Writes the fault as a sentence.
fn write_sentence(
    out: &mut String,
    instruction: &Instruction,
    postings: &[Posting],
    fault: &ReplayFault,
) -> Result<(), Memory> {
    match fault {
        ReplayFault::Sheet { version } => write!(
            out,
            "The prices of version {} are missing, are not one for each class, or are one list too many.",
            Grouped(u128::from(*version))
        )?,
        ReplayFault::Price { version, class } => {
            write!(
                out,
                "In the prices of version {}, that of ",
                Grouped(u128::from(*version))
            )?;
            write_class(out, instruction, *class)?;
            write!(out, ", is out of its bounds after what was cut before.")?;
        }
        _ => {
            if let Some((at, why)) = wrong_posting(fault) {
                write!(out, "Posting {}", Grouped(at as u128))?;
                write_who(out, postings.get(at))?;
                write!(out, ": {why}.")?;
            }
        }
    }
    Ok(())
}

/// Writes that the journal of this number, from 1, isn't lawful, and which one if there are several.
fn write_heading(out: &mut String, number: usize, of: usize) -> Result<(), Memory> {
    if of > 1 {
        write!(out, "Journal {number} of {of} is not lawful")?;
    } else {
        write!(out, "This journal is not lawful")?;
    }
    Ok(())
}

/// Writes the fault as the line that `replay` writes.
fn write_line(
    out: &mut String,
    number: usize,
    of: usize,
    fault: &ReplayFault,
) -> Result<(), Memory> {
    if of > 1 {
        write!(out, "replay {number} fault")?;
    } else {
        write!(out, "replay fault")?;
    }
    for number in fault.numbers().as_slice() {
        write!(out, " {number}")?;
    }
    Ok(())
}

/// Returns the page of the first journal that isn't lawful, given its fault, which is not `Memory`, the names of all
/// files, and the index of the journal among all, from 0. It shows no figure. Refused as `Memory` alone.
pub fn fault_page(
    alloc: Global,
    instruction: &Instruction,
    postings: &[Posting],
    fault: &ReplayFault,
    files: &Files<'_>,
    at: usize,
) -> Result<String, Memory> {
    let number = at.saturating_add(1);
    let of = files.journals.len();
    let mut out = begin_page(alloc, "Not lawful")?;
    write_heading(&mut out, number, of)?;
    write!(&mut out, "</h1>")?;
    if let Some(journal) = files.journals.get(at) {
        let shown = Files {
            instruction: files.instruction,
            journals: from_ref(journal),
        };
        write!(&mut out, "{shown}")?;
    }
    write!(
        &mut out,
        "<p class=\"verdict bad\">{SIGN}\"M6,6L14,14M14,6L6,14\"/></svg><span><b>"
    )?;
    write_sentence(&mut out, instruction, postings, fault)?;
    write!(
        &mut out,
        "</b> This is the first fault in the order of the postings; nothing after it was checked, and no figure of \
         this journal is shown. <code>"
    )?;
    write_line(&mut out, number, of, fault)?;
    write!(&mut out, "</code></span></p></header>{PAGE_END}")?;
    Ok(out)
}
