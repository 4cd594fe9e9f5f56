//! What stands under the drawing of a stem: labels, the cutting unsteered, grades and metres.
use crate::drawing::Scale;
use buck_apt_instruction::Instruction;
use buck_page_figures::Piece;
use buck_page_text::{Percent, length_text, letter, percent_at, tick_step};
use buck_record::Memory;
use buck_stem_shape::Stem;
use buck_value::Log;
use std::fmt;

/// Where a stretch stands in its drawing, as a style.
#[derive(Clone, Copy)]
struct Block {
    left: Percent,
    width: Percent,
}

/// Where a stretch of this length from a place on stands in a drawing.
fn block_at(from: u32, length: u32, scale: &Scale) -> Block {
    Block {
        left: percent_at(u64::from(from), scale.whole),
        width: percent_at(u64::from(length), scale.whole),
    }
}

impl fmt::Display for Block {
    fn fmt<W: fmt::Write>(&self, f: &mut fmt::Formatter<W>) -> fmt::Result {
        write!(f, "style=\"left:{};width:{}\"", self.left, self.width)
    }
}

/// Whether a log is long enough for labels.
fn is_labelled(length: u32, scale: &Scale) -> bool {
    16 * u64::from(length) >= scale.whole
}

/// The lengths of the assortment of a log.
fn lengths_of(instruction: &Instruction, log: Log) -> &[u32] {
    match instruction.assortments().get(log.assortment as usize) {
        Some(assortment) => assortment.lengths(),
        None => &[],
    }
}

/// Writes the labels under the logs that are long enough.
pub(crate) fn write_labels(
    out: &mut String,
    instruction: &Instruction,
    pieces: &[Piece],
    scale: &Scale,
) -> Result<(), Memory> {
    for piece in pieces {
        let log = piece.log;
        if is_labelled(log.length, scale) {
            write!(
                out,
                "<span class=\"\" {}><b>{}</b> {}<br>{}</span>",
                block_at(log.start, log.length, scale),
                letter(usize::from(log.assortment)),
                length_text(log.length, lengths_of(instruction, log)),
                piece.top
            )?;
        }
    }
    Ok(())
}

/// Writes a cutting as a strip.
pub(crate) fn write_strip(
    out: &mut String,
    instruction: &Instruction,
    logs: &[Log],
    scale: &Scale,
) -> Result<(), Memory> {
    write!(
        out,
        "<div class=\"rowname low\">unsteered</div><div class=\"blocks\">"
    )?;
    for log in logs {
        write!(
            out,
            "<span class=\"\" {}><i class=\"a{}\"></i>",
            block_at(log.start, log.length, scale),
            log.assortment
        )?;
        if is_labelled(log.length, scale) {
            write!(
                out,
                "<b>{}</b> {}",
                letter(usize::from(log.assortment)),
                length_text(log.length, lengths_of(instruction, *log))
            )?;
        }
        write!(out, "</span>")?;
    }
    Ok(write!(out, "</div>")?)
}

/// Writes a stretch of one grade, unless it is empty.
fn write_grade(
    out: &mut String,
    grade: u8,
    from: u32,
    to: u32,
    scale: &Scale,
) -> Result<(), Memory> {
    if from < to {
        write!(
            out,
            "<span class=\"g{grade}\" {}>{grade}</span>",
            block_at(from, to - from, scale)
        )?;
    }
    Ok(())
}

/// Writes the grades along a stem: 1 up to its first zone.
pub(crate) fn write_grades(out: &mut String, stem: &Stem, scale: &Scale) -> Result<(), Memory> {
    let whole = stem.length();
    let mut from = 0;
    let mut grade = 1;
    for zone in stem.zones() {
        write_grade(out, grade, from, zone.0.min(whole), scale)?;
        from = zone.0;
        grade = zone.1;
    }
    write_grade(out, grade, from, whole, scale)
}

/// Writes the metres under a stem.
pub(crate) fn write_metres(out: &mut String, scale: &Scale) -> Result<(), Memory> {
    let whole = scale.whole;
    let step = tick_step(whole / 1000);
    for k in 0..6u64 {
        let x = k * step;
        if 1000 * x <= whole {
            let left = percent_at(1000 * x, whole);
            write!(out, "<span style=\"left:{left}\">{x}</span>")?;
        }
    }
    Ok(())
}
