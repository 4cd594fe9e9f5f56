//! Heads of tables whose columns stand in groups.
use buck_record::Memory;

/// The head of some columns of a table together, and that of each.
#[derive(Clone, Copy)]
pub(crate) struct Group(pub &'static str, pub &'static [&'static str]);

/// Writes a table down to its first row: what its rows are of, and its columns in their groups.
pub(crate) fn open_list(
    out: &mut String,
    rows: &'static str,
    groups: &[Group],
) -> Result<(), Memory> {
    write!(
        out,
        "<div class=\"scroll\"><table class=\"list\"><thead><tr class=\"groups\"><td></td>"
    )?;
    for group in groups {
        write!(
            out,
            "<th scope=\"colgroup\" colspan=\"{}\">{}</th>",
            group.1.len(),
            group.0
        )?;
    }
    write!(out, "</tr><tr><th scope=\"col\">{rows}</th>")?;
    for group in groups {
        for (at, column) in group.1.iter().enumerate() {
            let first = if at == 0 { " class=first" } else { "" };
            write!(out, "<th scope=\"col\"{first}>{column}</th>")?;
        }
    }
    Ok(write!(out, "</tr></thead><tbody>")?)
}

/// What ends a table, and the section that it stands in.
pub(crate) const LIST_END: &str = "</tbody></table></div></section>";
