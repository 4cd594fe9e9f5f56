//! The classes that cost the degree most: how many logs they lack, and what their price does about it.
ghost use Rattle.buck_page_figures.specs.Lacking.{IsLackOf};

use crate::list::{Group, LIST_END, open_list};
use buck_page_figures::{Figures, Lack, lacking, number_at, part};
use buck_page_text::{Chip, Fixed, Grouped, Signed, change_of, class_text};
use buck_record::Memory;
use std::alloc::Global;

/// At most so many classes are shown.
const MOST_LACKING: usize = 10;

/// Writes a class's price now, its base price and the change, after the figures of its row.
fn write_price(out: &mut String, price: u32, base: u32) -> Result<(), Memory> {
    if base == 0 {
        write!(
            out,
            "<td class=first>not bought</td><td></td><td></td></tr>"
        )?;
    } else {
        write!(
            out,
            "<td class=first>{}</td><td>{}</td><td>{}</td></tr>",
            Grouped(u128::from(price)),
            Grouped(u128::from(base)),
            Signed::of(change_of(price, base), 1)
        )?;
    }
    Ok(())
}

/// Writes the row of a class that lacks logs.
fn write_lack(out: &mut String, figures: &Figures<'_>, lack: &Lack) -> Result<(), Memory>
    requires { IsLackOf figures.now.instruction.now figures.now.targets.value.items figures.now.counts.items
        figures.now.unsteered.items lack.now }
{
    let at = lack.assortment;
    let assortment = &figures.instruction.assortments()[at];
    let prices = part(figures.instruction, figures.prices, at);
    write!(
        out,
        "<tr><th scope=\"row\"><a href=\"#a{at}\">{}</a> {}</th><td class=first><b>{}</b></td><td>{}</td><td>{}</td>\
         <td>{}</td><td class=first><b>{}</b></td>",
        Chip(at),
        class_text(assortment, lack.class),
        Fixed::of(lack.tenths(), 1),
        Fixed::of(lack.wanted_tenths(), 1),
        Grouped(u128::from(lack.count)),
        Grouped(u128::from(lack.unsteered)),
        Fixed::of(lack.cost(), 2)
    )?;
    write_price(
        out,
        number_at(prices, lack.class),
        assortment.prices()[lack.class],
    )
}

/// Writes the section of the classes that lack most, if one lacks and something was cut. Refused as `Memory` alone.
pub fn write_lacking(alloc: Global, out: &mut String, figures: &Figures<'_>) -> Result<(), Memory> {
    let found = lacking(alloc, figures)?;
    if found.is_empty() {
        return Ok(());
    }
    let groups = [
        Group("Logs", &["lacking", "wanted", "as cut", "unsteered"]),
        Group("Degree", &["cost, points"]),
        Group("Price", &["now", "base", "change, %"]),
    ];
    write!(
        out,
        "\n<section id=\"lacking\"><h2>Lacking most</h2><p class=\"lead\">Targets are proportions: wanted is the \
         number of logs that a class should have of those cut of its assortment. Together the classes of an assortment \
         cost its degree all that it lacks of 100."
    )?;
    let left = found.len().saturating_sub(MOST_LACKING);
    if left == 1 {
        write!(out, " 1 more class lacks less.")?;
    } else if left > 1 {
        write!(out, " {} more classes lack less.", Grouped(left as u128))?;
    }
    write!(out, "</p>")?;
    open_list(out, "Class", groups.as_slice())?;
    for lack in found.as_slice().iter().take(MOST_LACKING) {
        write_lack(out, figures, lack)?;
    }
    Ok(write!(out, "{LIST_END}")?)
}
