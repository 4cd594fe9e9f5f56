//! Warnings after a successful run: nothing went wrong, but a mistake is likely.
use crate::reason::Inquest;
use buck_apt_instruction::Instruction;
use buck_record::Memory;
use buckfleet_command_streams::Known;
use buckfleet_engine_files::HasStem;
use buckfleet_notes::{first_again, first_namesake, first_untaken, is_too_long, is_unsteered};
use buckfleet_reason::{Quoted, Several, Shown};
use buckfleet_tasks::Subject;
use std::alloc::Global;
use std::fmt;

/// Says something of the stem at a place of those of all files.
fn put_stem_note<F: HasStem, D: fmt::Display + Drop>(
    out: &mut String,
    subject: &Subject<'_>,
    files: &[Vec<F>],
    at: usize,
    what: D,
) -> Result<(), Memory> {
    let mut file = subject.others;
    let mut left = at;
    for stems in files {
        if let Some(stem) = stems.get(left) {
            let name = Shown(subject.name(file).as_bytes());
            let number = stem.stem().number();
            let place = left.saturating_add(1);
            return Ok(write!(out, "note: {name}: stem {number} (place {place}): {what}\n")?);
        }
        file = file.saturating_add(1);
        left = left.saturating_sub(stems.len());
    }
    Ok(())
}

/// That an assortment has the name of another.
fn name_note(
    out: &mut String,
    subject: &Subject<'_>,
    instruction: &Instruction,
) -> Result<(), Memory> {
    let all = instruction.assortments();
    let again = first_namesake(instruction);
    if let Some((at, assortment)) = again.and_then(|at| Some((at, all.get(at)?))) {
        let file = Shown(subject.name(0).as_bytes());
        let name = Quoted(assortment.name());
        write!(
            out,
            "note: {file}: assortment {at} {name}: an earlier one has the same name\n"
        )?;
    }
    Ok(())
}

/// That no assortment takes the species of a stem, that its number stands twice, or that the first period is as long as
/// the list of all stems, or longer.
fn stem_notes<F: HasStem>(
    alloc: Global,
    out: &mut String,
    subject: &Subject<'_>,
    instruction: &Instruction,
    files: &[Vec<F>],
) -> Result<(), Memory> {
    let mut numbers = Vec::new(alloc);
    let mut species = Vec::new(alloc);
    for stems in files {
        for stem in stems {
            numbers.push(stem.stem().number())?;
            species.push(stem.stem().species())?;
        }
    }
    if let Some(at) = first_untaken(instruction, species.as_slice()) {
        let species = species.get(at).copied().unwrap_or(0);
        let what = format_args!("no assortment takes its species, {species}");
        put_stem_note(out, subject, files, at, what)?;
    }
    if let Some(at) = first_again(alloc, numbers.as_slice())? {
        put_stem_note(
            out,
            subject,
            files,
            at,
            "an earlier stem has the same number",
        )?;
    }
    let period = instruction.period();
    if subject.is_steered && is_unsteered(numbers.len(), period) {
        let stems = Several(numbers.len(), "stem");
        write!(
            out,
            "note: {stems}, and a period of {period}: no price moves before all are cut\n"
        )?;
    }
    Ok(())
}

/// The warnings about an instruction and the stems of files that are cut by it, a line each. Refused as `Memory` alone.
pub(crate) fn input_notes<F: HasStem>(
    alloc: Global,
    subject: &Subject<'_>,
    instruction: &Instruction,
    files: &[Vec<F>],
) -> Result<String, Memory> {
    let mut out = String::new(alloc);
    name_note(&mut out, subject, instruction)?;
    stem_notes(alloc, &mut out, subject, instruction, files)?;
    Ok(out)
}

impl<'a, A: Known> Inquest<'a, A> {
    /// That a journal is too long to be read again.
    fn journal_note(&self, out: &mut String) -> Result<(), Memory> {
        let Some(name) = self.subject.out else {
            return Ok(());
        };
        let bytes = self.known.size(name).unwrap_or(0);
        if is_too_long(bytes) {
            let name = Shown(name.as_bytes());
            write!(
                out,
                "note: {name}: {bytes} bytes: check, report, view and table read at most 67108864\n"
            )?;
        }
        Ok(())
    }

    /// That a journal is named twice.
    fn twice_note(&self, out: &mut String) -> Result<(), Memory> {
        let names = self.subject.names.as_slice();
        for at in 1..names.len().min(self.subject.journals.saturating_add(1)) {
            let name = names[at];
            if names[1..at].contains(&name) {
                let name = Shown(name.as_bytes());
                write!(out, "note: {name}: named twice, so it counts twice\n")?;
                break;
            }
        }
        Ok(())
    }

    /// The warnings after some work, a line each, with those about what it has read. Refused as `Memory` alone.
    pub fn notes(&self, input: Option<&Result<String, Memory>>) -> Result<String, Memory> {
        let mut out = String::new(self.alloc);
        self.journal_note(&mut out)?;
        self.twice_note(&mut out)?;
        match input {
            Some(Ok(notes)) => out.push_str(notes.as_str())?,
            Some(Err(memory)) => return Err(*memory),
            None => {}
        }
        Ok(out)
    }
}
