//! The degree of apportionment of each assortment, and of it that of diameters and that of lengths.
ghost use Rattle.std.specs.Prelude.{◌<◌, length};

use crate::list::LIST_END;
use buck_page_figures::{Figures, degrees_at, part, sum_of};
use buck_page_text::{Apart, Chip, Signed, degree_text, difference_of};
use buck_record::Memory;

/// Whether anything is wanted of the assortment at an index, from 0, by the targets last in force.
pub fn is_steered(figures: &Figures<'_>, at: usize) -> bool
    requires { at < length figures.now.instruction.now.assortments }
{
    sum_of(part(figures.instruction, figures.targets.as_slice(), at)) > 0
}

/// Writes a bar of the degree as cut, with a stroke at the degree of the best cuttings at base prices.
fn write_bar(out: &mut String, degree: Option<u32>, unsteered: Option<u32>) -> Result<(), Memory> {
    write!(
        out,
        "<svg class=\"bar\" viewBox=\"0 0 10000 14\" preserveAspectRatio=\"none\" aria-hidden=\"true\">\
         <rect class=\"back\" y=\"3\" width=\"10000\" height=\"8\"/>"
    )?;
    if let Some(n) = degree {
        write!(
            out,
            "<rect class=\"fill\" y=\"3\" width=\"{n}\" height=\"8\"/>"
        )?;
    }
    if let Some(n) = unsteered {
        write!(
            out,
            "<path class=\"halo\" d=\"M{n},0V14\"/><path class=\"tick\" d=\"M{n},0V14\"/>"
        )?;
    }
    Ok(write!(out, "</svg>")?)
}

/// Writes how far a degree lies above another one.
fn write_gain(out: &mut String, degree: Option<u32>, unsteered: Option<u32>) -> Result<(), Memory> {
    let (Some(degree), Some(unsteered)) = (degree, unsteered) else {
        write!(out, "&#8211;")?;
        return Ok(());
    };
    Ok(write!(
        out,
        "{}",
        Signed::of(difference_of(u128::from(unsteered), u128::from(degree)), 2)
    )?)
}

/// Writes the degrees of the assortment at a place, after the head of its row.
fn write_degrees_of(out: &mut String, figures: &Figures<'_>, at: usize) -> Result<(), Memory>
    requires { at < length figures.now.instruction.now.assortments }
{
    let instruction = figures.instruction;
    let targets = figures.targets.as_slice();
    let cut = degrees_at(instruction, targets, figures.counts.as_slice(), at);
    let unsteered = degrees_at(instruction, targets, figures.unsteered.as_slice(), at);
    write!(out, "<td class=\"wide\">")?;
    write_bar(out, cut.whole, unsteered.whole)?;
    write!(
        out,
        "</td><td class=first><b>{}</b></td><td>{}</td><td>",
        degree_text(cut.whole),
        degree_text(unsteered.whole)
    )?;
    write_gain(out, cut.whole, unsteered.whole)?;
    Ok(write!(
        out,
        "</td><td class=first><b>{}</b></td><td>{}</td><td class=first><b>{}</b></td><td>{}</td></tr>",
        degree_text(cut.diameter),
        degree_text(unsteered.diameter),
        degree_text(cut.length),
        degree_text(unsteered.length)
    )?)
}

/// Writes the section of the degrees. Refused as `Memory` alone.
pub fn write_degrees(out: &mut String, figures: &Figures<'_>) -> Result<(), Memory> {
    write!(
        out,
        "\n<section id=\"degrees\"><h2>Degree of apportionment</h2><p class=\"lead\">How close the logs came to the \
         wanted proportions: 100 if they have them exactly, 0 if nothing that was cut was wanted. The tick in a bar \
         marks the degree unsteered. The degree of diameters compares the diameter rows alone, and depends mostly on \
         the stand. The degree of lengths compares the lengths within each row, and depends on bucking.</p><div \
         class=\"scroll\"><table class=\"list\"><thead><tr class=\"groups\"><td></td><td class=\"wide\"></td><th \
         scope=\"colgroup\" colspan=\"3\">Degree, %</th><th scope=\"colgroup\" colspan=\"2\">of diameters, %</th><th \
         scope=\"colgroup\" colspan=\"2\">of lengths, %</th></tr><tr><th scope=\"col\">Assortment</th><td \
         class=\"wide\"></td><th scope=\"col\" class=first>as cut</th><th scope=\"col\">unsteered</th><th \
         scope=\"col\">gained</th><th scope=\"col\" class=first>as cut</th><th scope=\"col\">unsteered</th><th \
         scope=\"col\" class=first>as cut</th><th scope=\"col\">unsteered</th></tr></thead><tbody>"
    )?;
    for at in 0..figures.instruction.assortments().len() {
        write!(
            out,
            "<tr><th scope=\"row\"><a href=\"#a{at}\">{} {}</a></th>",
            Chip(at),
            Apart(figures.instruction.assortments()[at].name())
        )?;
        if is_steered(figures, at) {
            write_degrees_of(out, figures, at)?;
        } else {
            write!(
                out,
                "<td class=\"wide\"></td><td class=\"first none\" colspan=\"7\">no target, not steered</td></tr>"
            )?;
        }
    }
    Ok(write!(out, "{LIST_END}")?)
}
