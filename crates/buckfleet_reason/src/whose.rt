//! Whose an item is.
use crate::item::Item;
use crate::shown::{Quoted, Shown};
use std::fmt;

/// The most bytes of a stem's number that are shown.
const MOST: usize = 20;

/// The owner of the items between one opener and the next.
#[derive(Clone, Copy)]
pub enum Kind {
    Assortment,
    Stem,
    /// The only stem of a request.
    Request,
    Posting,
}

/// An assortment, a stem or a posting of a file: `assortment 1 "saw"`, `stem 412 (place 3)`, `posting 4`.
#[derive(Clone, Copy)]
pub struct Group<'a> {
    pub kind: Kind,
    /// Index among those of its file, from 0.
    pub place: usize,
    /// The item that it begins with.
    pub opener: Item<'a>,
}

/// A stem's number as it stands, or its first bytes.
fn first_bytes(number: &[u8]) -> &[u8] {
    match number.split_at_checked(MOST) {
        Some((first, _)) => first,
        None => number,
    }
}

impl fmt::Display for Group<'_> {
    fn fmt<W: fmt::Write>(&self, f: &mut fmt::Formatter<W>) -> fmt::Result {
        let place = self.place;
        let rest = self.opener.rest();
        match self.kind {
            Kind::Assortment => write!(f, "assortment {place} {}", Quoted(rest)),
            Kind::Stem => {
                let place = place.saturating_add(1);
                write!(f, "stem {} (place {place})", Shown(first_bytes(rest)))
            }
            Kind::Request => write!(f, "stem {}", Shown(first_bytes(rest))),
            Kind::Posting => write!(f, "posting {place}"),
        }
    }
}
