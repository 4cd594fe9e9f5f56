//! Classes by their names.
use buck_apt_instruction::{Assortment, Instruction};
use buckfleet_reason::Quoted;
use std::fmt;

/// A class, by its assortment and by its row and column there.
#[derive(Clone, Copy)]
pub(crate) struct ClassName<'a> {
    /// The place of the assortment, counted from 0.
    place: usize,
    assortment: &'a Assortment,
    /// The place of the class in its assortment.
    at: usize,
}

impl<'a> ClassName<'a> {
    /// The class at a place among all, if there is one.
    pub(crate) fn of(instruction: &'a Instruction, class: usize) -> Option<ClassName<'a>> {
        let mut at = class;
        for (place, assortment) in instruction.assortments().iter().enumerate() {
            let classes = assortment.classes();
            if at < classes {
                return Some(ClassName {
                    place,
                    assortment,
                    at,
                });
            }
            at -= classes;
        }
        None
    }
}

impl fmt::Display for ClassName<'_> {
    fn fmt<W: fmt::Write>(&self, f: &mut fmt::Formatter<W>) -> fmt::Result {
        let place = self.place;
        let columns = self.assortment.lengths().len().max(1);
        let row = self.at / columns;
        let column = self.at % columns;
        write!(
            f,
            "assortment {place} {}, row {row}, column {column}",
            Quoted(self.assortment.name())
        )
    }
}
