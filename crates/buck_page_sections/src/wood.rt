//! What steering did to the wood: logs, volume and worth of each assortment, as cut and unsteered.
ghost use Rattle.std.specs.Prelude.{◌<◌, ◌≤◌, ◌^◌, length};

use crate::list::{Group, LIST_END, open_list};
use crate::rates::share_of;
use buck_page_figures::{Figures, Part};
use buck_page_text::{Apart, Chip, Grouped, Millionths, Signed, difference_of, permille};
use buck_record::Memory;

/// What some logs come to.
#[derive(Clone, Copy)]
struct Wood {
    logs: u128,
    /// In cm³.
    volume: u128,
    /// In millionths of the price unit, at base prices.
    at_base: u128,
    ghost small: { volume < 2 ^ 112 },
}

impl Wood {
    /// What the logs of an assortment come to.
    fn of(part: &Part) -> Wood {
        Wood {
            logs: u128::from(part.logs),
            volume: part.volume,
            at_base: part.at_base,
        }
    }

    /// What the logs of all assortments come to.
    fn of_all(parts: &[Part]) -> Wood
        requires { length parts.now ≤ 16 }
    {
        let mut logs = 0;
        let mut volume = 0;
        let mut at_base = 0;
        for part in parts {
            logs += u128::from(part.logs);
            volume += part.volume;
            at_base += part.at_base;
        }
        Wood {
            logs,
            volume,
            at_base,
        }
    }
}

/// What steering made of some wood.
#[derive(Clone, Copy)]
struct Steered {
    cut: Wood,
    unsteered: Wood,
}

/// Writes one bar of the assortments' volumes. Places are sums in ten-thousandths of a whole, rounded down, so that no
/// gap opens.
fn write_stack(
    out: &mut String,
    label: &'static str,
    parts: &[Part],
    whole: u128,
) -> Result<(), Memory>
    requires some { 0 < whole }
    requires few { length parts.now ≤ 16 }
{
    write!(
        out,
        "<div class=\"rowname\">{label}</div><svg class=\"stack\" viewBox=\"0 0 10000 14\" \
         preserveAspectRatio=\"none\" aria-hidden=\"true\">"
    )?;
    let mut before: u128 = 0;
    for (at, part) in parts.iter().enumerate() {
        let with = before + part.volume;
        let x = 10_000 * before / whole;
        let end = 10_000 * with / whole;
        if end > x {
            write!(
                out,
                "<rect class=\"a{at}\" x=\"{x}\" width=\"{}\" height=\"14\"/>",
                end - x
            )?;
        }
        before = with;
    }
    Ok(write!(out, "</svg>")?)
}

/// Writes the bars of the volumes as cut and unsteered, both in the scale of the greater, if there is any wood.
fn write_stacks(
    out: &mut String,
    cut: &[Part],
    unsteered: &[Part],
    all: &Steered,
) -> Result<(), Memory>
    requires cut { length cut.now ≤ 16 }
    requires unsteered { length unsteered.now ≤ 16 }
{
    let whole = all.cut.volume.max(all.unsteered.volume);
    if whole == 0 {
        return Ok(());
    }
    write!(out, "<div class=\"rows stacks\">")?;
    write_stack(out, "as cut", cut, whole)?;
    write_stack(out, "unsteered", unsteered, whole)?;
    Ok(write!(out, "</div>")?)
}

/// Writes by how many points the share of the volume lies above that unsteered, each as it is printed.
fn write_points(out: &mut String, wood: &Steered, all: &Steered) -> Result<(), Memory> {
    if all.cut.volume == 0 || all.unsteered.volume == 0 {
        write!(out, "&#8211;")?;
        return Ok(());
    }
    let here = permille(wood.cut.volume, all.cut.volume);
    let there = permille(wood.unsteered.volume, all.unsteered.volume);
    Ok(write!(out, "{}", Signed::of(difference_of(there, here), 1))?)
}

/// Writes what steering made of some wood, after the head of its row, as a part of all wood.
fn write_wood(out: &mut String, wood: &Steered, all: &Steered) -> Result<(), Memory> {
    let Steered { cut, unsteered } = wood;
    write!(
        out,
        "<td class=first><b>{}</b></td><td>{}</td><td class=first><b>{}</b></td><td>{}</td>\
         <td class=first><b>{}</b></td><td>{}</td><td>",
        Grouped(cut.logs),
        Grouped(unsteered.logs),
        Millionths(cut.volume),
        Millionths(unsteered.volume),
        share_of(cut.volume, all.cut.volume),
        share_of(unsteered.volume, all.unsteered.volume)
    )?;
    write_points(out, wood, all)?;
    Ok(write!(
        out,
        "</td><td class=first><b>{}</b></td><td>{}</td></tr>",
        Millionths(cut.at_base),
        Millionths(unsteered.at_base)
    )?)
}

/// Writes the section that shows what steering did to the wood. Refused as `Memory` alone.
pub fn write_wood_section(out: &mut String, figures: &Figures<'_>) -> Result<(), Memory> {
    let groups = [
        Group("Logs", &["as cut", "unsteered"]),
        Group("Volume, m&#179;", &["as cut", "unsteered"]),
        Group("Share of volume, %", &["as cut", "unsteered", "points"]),
        Group("Worth at base", &["as cut", "unsteered"]),
    ];
    let assortments = figures.instruction.assortments();
    let cut = figures.assortments.as_slice();
    let unsteered = figures.unsteered_assortments.as_slice();
    let all = Steered {
        cut: Wood::of_all(cut),
        unsteered: Wood::of_all(unsteered),
    };
    write!(
        out,
        "<section id=\"wood\"><h2>What steering did to the wood</h2><p class=\"lead\">The same stems as cut, and \
         unsteered: cut for the most worth at base prices. Both worths are at base prices.</p>"
    )?;
    write_stacks(out, cut, unsteered, &all)?;
    open_list(out, "Assortment", groups.as_slice())?;
    for (at, assortment) in assortments.iter().enumerate() {
        write!(
            out,
            "<tr><th scope=\"row\"><a href=\"#a{at}\">{} {}</a></th>",
            Chip(at),
            Apart(assortment.name())
        )?;
        let wood = Steered {
            cut: Wood::of(&cut[at]),
            unsteered: Wood::of(&unsteered[at]),
        };
        write_wood(out, &wood, &all)?;
    }
    write!(out, "<tr class=\"total\"><th scope=\"row\">All</th>")?;
    write_wood(out, &all, &all)?;
    Ok(write!(out, "{LIST_END}")?)
}
