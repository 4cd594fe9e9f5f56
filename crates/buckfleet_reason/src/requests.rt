//! Why a request is refused.
use crate::files::stems_reason;
use crate::form::Refused;
use crate::item::Key;
use crate::rows::{HARVESTER, NEW_TARGETS, REQUEST, Tag};
use crate::source::{Said, Source};
use crate::whose::Kind;
use buck_record::Level;
use buck_stem::StmFault;
use buck_stem_shape::ITEMS;
use buck_stem_shape::slots::STEM;
use std::alloc::Global;

/// Whether an item of a stem stands before the stem's number.
fn is_unopened(file: &Refused<'_>) -> bool {
    file.first_grouped()
        .is_some_and(|seen| seen.row.level == Level::Member)
}

/// Whether it is refused because it asks for two things.
fn is_second(source: &Source<'_>, key: Key) -> bool {
    key.is(STEM) || (key.is(NEW_TARGETS) && source.count_of(NEW_TARGETS) == 1)
}

/// Returns why a request is refused, in lines of text, given its fault. None if nothing in it is as the fault says.
/// Refused as `Memory` alone.
pub fn request_reason(alloc: Global, source: &Source<'_>, fault: &StmFault) -> Said {
    let file = Refused {
        alloc,
        source: *source,
        rows: [&REQUEST, &ITEMS],
        kind: Kind::Request,
    };
    let (key, words) = match *fault {
        StmFault::Missing { number, kind }
            if Key { number, kind }.is(STEM) && !is_unopened(&file) => {
            return source.whole().say(
                alloc,
                "expected a stem (951 1 and more) or new targets (982 2)",
            );
        }
        StmFault::Twice { number, kind } if is_second(source, Key { number, kind }) => {
            (
                Key { number, kind },
                "a second request in one line, expected one",
            )
        }
        StmFault::Order { number, kind } if Key { number, kind }.is(HARVESTER) => {
            (
                Key { number, kind },
                "comes after other items, expected before them",
            )
        }
        _ => return stems_reason(&file, fault),
    };
    match file.row_of(key) {
        Some(row) => source
            .whole()
            .say(alloc, format_args!("{}: {words}", Tag(row))),
        None => Ok(None),
    }
}
