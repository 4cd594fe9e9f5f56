//! Why an instruction or a stem file is refused.
use crate::form::{Refused, Seen};
use crate::item::Key;
use crate::placing::headless;
use crate::source::{Said, Source};
use crate::whose::Kind;
use buck_apt::AptFault;
use buck_apt_instruction::slots::{LENGTHS, TARGETS};
use buck_stem::StmFault;
use std::alloc::Global;

/// What is wrong with the items of a kind.
#[derive(Clone, Copy)]
enum Wrong {
    Missing,
    Twice,
    Digits,
    Range,
    Order,
    Count,
    /// This length isn't a multiple of the module.
    Module(u32),
    /// Targets are too great together.
    Targets,
}

impl Seen<'_> {
    /// What is wrong with an item, if something is.
    fn complaint(&self, wrong: Wrong) -> Said {
        match wrong {
            Wrong::Missing | Wrong::Twice => Ok(None),
            Wrong::Digits => self.no_number(),
            Wrong::Range => self.out_of_range(),
            Wrong::Order => self.out_of_order(),
            Wrong::Count => self.miscounted(),
            Wrong::Module(length) => self.uneven(length),
            Wrong::Targets => self.too_great(),
        }
    }
}

/// What is wrong with the first item of a kind with which something is.
fn of_items(file: &Refused<'_>, key: Key, wrong: Wrong) -> Said {
    let Some(row) = file.row_of(key) else {
        return Ok(None);
    };
    match wrong {
        Wrong::Missing => return file.missing(row),
        Wrong::Twice => return file.twice(row),
        _ => {}
    }
    for item in file.source.items() {
        if item.key() != Some(key) {
            continue;
        }
        let seen = Seen {
            file: *file,
            item,
            row,
        };
        let said = seen.complaint(wrong)?;
        if said.is_some() {
            return Ok(said);
        }
    }
    Ok(None)
}

/// Returns why an instruction file is refused, in lines of text, given its fault. None if nothing in the file is as the
/// fault says. Refused as `Memory` alone.
pub fn apt_reason(alloc: Global, source: &Source<'_>, fault: &AptFault) -> Said {
    let file = Refused {
        alloc,
        source: *source,
        rows: [&buck_apt_instruction::ITEMS, &[]],
        kind: Kind::Assortment,
    };
    let (key, wrong) = match *fault {
        AptFault::Head { item } => return headless(alloc, source, item),
        AptFault::NotApt => return file.other_kind("APT"),
        AptFault::Missing { number, kind } => (Key { number, kind }, Wrong::Missing),
        AptFault::Twice { number, kind } => (Key { number, kind }, Wrong::Twice),
        AptFault::Digits { number, kind, .. } => (Key { number, kind }, Wrong::Digits),
        AptFault::Range { number, kind } => (Key { number, kind }, Wrong::Range),
        AptFault::Order { number, kind } => (Key { number, kind }, Wrong::Order),
        AptFault::Count { number, kind } => (Key { number, kind }, Wrong::Count),
        AptFault::Module { length } => (Key::of(LENGTHS), Wrong::Module(length)),
        AptFault::Targets { .. } => (Key::of(TARGETS), Wrong::Targets),
        AptFault::Memory => return Ok(None),
    };
    of_items(&file, key, wrong)
}

/// Why stems are refused, in a file or in a request, in lines of text, given the fault.
pub(crate) fn stems_reason(file: &Refused<'_>, fault: &StmFault) -> Said {
    let (key, wrong) = match *fault {
        StmFault::Head { item } => return headless(file.alloc, &file.source, item),
        StmFault::NotStm => return file.other_kind("STM"),
        StmFault::Missing { number, kind } => (Key { number, kind }, Wrong::Missing),
        StmFault::Twice { number, kind } => (Key { number, kind }, Wrong::Twice),
        StmFault::Digits { number, kind, .. } => (Key { number, kind }, Wrong::Digits),
        StmFault::Range { number, kind } => (Key { number, kind }, Wrong::Range),
        StmFault::Order { number, kind } => (Key { number, kind }, Wrong::Order),
        StmFault::Count { number, kind } => (Key { number, kind }, Wrong::Count),
        StmFault::Memory => return Ok(None),
    };
    of_items(file, key, wrong)
}

/// Returns why a stem file is refused, in lines of text, given its fault. None if nothing in the file is as the fault
/// says. Refused as `Memory` alone.
pub fn stm_reason(alloc: Global, source: &Source<'_>, fault: &StmFault) -> Said {
    let file = Refused {
        alloc,
        source: *source,
        rows: [&buck_stem_shape::ITEMS, &[]],
        kind: Kind::Stem,
    };
    stems_reason(&file, fault)
}
