//! A figure of a run, and the difference of two.
ghost use Rattle.std.specs.Prelude.{◌<◌, ◌^◌};

use buck_page_cells::{Change, put_number};
use buck_record::Memory;

/// A number of a line.
#[derive(Clone, Copy)]
pub(crate) struct Figure {
    size: u128,
    ghost small: { size < 2 ^ 100 },
}

/// A figure that is there.
pub(crate) fn number(size: u128) -> Option<Figure>
    requires { size < 2 ^ 100 }
{
    Some(Figure { size })
}

/// Puts a figure, if it is there.
pub(crate) fn put_figure(out: &mut Vec<u8>, figure: Option<Figure>) -> Result<(), Memory> {
    match figure {
        Some(figure) => put_number(out, Some(figure.size)),
        None => put_number(out, None),
    }
}

/// The difference of two figures, if there are both.
pub(crate) fn change_of(first: Option<Figure>, second: Option<Figure>) -> Option<Change> {
    match (first, second) {
        (Some(first), Some(second)) => Some(Change {
            from: first.size,
            to: second.size,
        }),
        _ => None,
    }
}
