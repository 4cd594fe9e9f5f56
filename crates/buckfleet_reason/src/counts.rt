//! Numbers that are too few, too many, or wrong together.
use crate::form::Seen;
use crate::shown::Several;
use crate::source::Said;
use buck_apt_instruction::slots::{DIAMETERS, LENGTHS, MODULE, MOST_TARGETS_TOGETHER, NAME};
use buck_record::{Count, Slot};
use std::fmt;

/// How many numbers an item must have.
#[derive(Clone, Copy)]
struct Wanted<'a>(Seen<'a>);

impl fmt::Display for Wanted<'_> {
    fn fmt<W: fmt::Write>(&self, f: &mut fmt::Formatter<W>) -> fmt::Result {
        let Wanted(seen) = *self;
        match seen.row.count {
            Count::Any | Count::Text(_) => Ok(()),
            Count::One | Count::Names => write!(f, "expected 1"),
            Count::Slots => write!(f, "expected {}", seen.row.slots.len()),
            Count::UpTo(most) => write!(f, "expected 1 to {most}"),
            Count::AtMost(most) => write!(f, "expected at most {most}"),
            Count::Pairs(most) => {
                write!(f, "expected an even count up to {}", most.saturating_mul(2))
            }
            Count::Triples(most) => {
                let all = most.saturating_mul(3);
                write!(f, "expected three for each log, at most {all}")
            }
            Count::Classes => {
                let all = seen.classes();
                let columns = seen.size_of(LENGTHS);
                let rows = Several(seen.size_of(DIAMETERS), "row");
                write!(f, "expected {all} ({rows} of {columns})")
            }
        }
    }
}

impl Seen<'_> {
    /// How many numbers an item of its group has.
    fn size_of(&self, slot: Slot) -> usize {
        self.sibling(slot).map_or(0, |item| item.count())
    }

    /// How many classes its assortment has.
    fn classes(&self) -> usize {
        self.size_of(DIAMETERS)
            .saturating_mul(self.size_of(LENGTHS))
    }

    /// Whether so many numbers are right.
    fn takes(&self, count: usize) -> bool {
        match self.row.count {
            Count::Any | Count::Text(_) => true,
            Count::One | Count::Names => count == 1,
            Count::Slots => count == self.row.slots.len(),
            Count::UpTo(most) => 1 <= count && count <= most,
            Count::AtMost(most) => count <= most,
            Count::Pairs(most) => count % 2 == 0 && count / 2 <= most,
            Count::Triples(most) => count % 3 == 0 && count / 3 <= most,
            Count::Classes => count == self.classes(),
        }
    }

    /// Says that it has too few or too many numbers, or doesn't have the number of the names.
    pub(crate) fn miscounted(&self) -> Said {
        let count = self.item.count();
        if !self.takes(count) {
            let numbers = Several(count, "number");
            return self
                .place()
                .say(format_args!("{numbers}, {}", Wanted(*self)));
        }
        if self.row.count != Count::Names {
            return Ok(None);
        }
        let names = self.file.source.count_of(NAME);
        let said = self.item.word(1).number().unwrap_or(0);
        if usize::try_from(said) == Ok(names) {
            return Ok(None);
        }
        self.place().say(format_args!("{said}, expected {names}, the number of names (911 1)"))
    }

    /// Says that a length is no multiple of the module.
    pub(crate) fn uneven(&self, length: u32) -> Said {
        let module = self.file.source.first_of(MODULE);
        let Some(module) = module.and_then(|item| item.word(1).number()) else {
            return Ok(None);
        };
        for (before, word) in self.item.words().enumerate() {
            if word.number() == Some(length) {
                let place = before.saturating_add(1);
                return self.at(word.at).say(format_args!(
                    "{length} at place {place}, expected a multiple of the module, {module}"
                ));
            }
        }
        Ok(None)
    }

    /// Says that the targets of an assortment are too great together.
    pub(crate) fn too_great(&self) -> Said {
        let sum = self.item.words().fold(0u64, |sum, word| {
            sum.saturating_add(u64::from(word.number().unwrap_or(0)))
        });
        if sum <= MOST_TARGETS_TOGETHER {
            return Ok(None);
        }
        self.place().say(format_args!("{sum} together, expected at most {MOST_TARGETS_TOGETHER}"))
    }
}
