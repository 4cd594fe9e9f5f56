//! Files of cases, counted.
use crate::case::Case;
use crate::outcome::Outcome;
use buck_record::{Memory, put_number};
use std::alloc::Global;

/// How many differences of a file are shown.
const SHOWN: u32 = 3;

/// What is said of the cases of a file so far.
#[derive(Drop)]
pub struct Count {
    cases: u32,
    differ: u32,
    /// What differs, for a reader.
    told: Vec<u8>,
}

/// Adds what came of a case, or what it wanted.
fn put_outcome(told: &mut Vec<u8>, name: &str, outcome: &Outcome) -> Result<(), Memory> {
    told.extend_from_slice(name.as_bytes())?;
    told.extend_from_slice(outcome.text.as_slice())?;
    told.extend_from_slice(outcome.journal.as_slice())?;
    told.extend_from_slice(outcome.line.as_slice())?;
    Ok(())
}

impl Count {
    /// No case yet.
    pub fn none(alloc: Global) -> Count {
        Count {
            cases: 0,
            differ: 0,
            told: Vec::new(alloc),
        }
    }

    /// Counts a case that was run, by what came of it.
    pub fn compare(&mut self, case: &Case<'_>, got: &Outcome) -> Result<(), Memory> {
        self.cases = self.cases.saturating_add(1);
        if got.is_same(&case.wanted) {
            return Ok(());
        }
        self.tell(case.title)?;
        if self.differ <= SHOWN {
            put_outcome(&mut self.told, "  wanted:\n", &case.wanted)?;
            put_outcome(&mut self.told, "  got:\n", got)?;
        }
        Ok(())
    }

    /// Counts a case that differs, and names it if it is among the first.
    fn tell(&mut self, title: &str) -> Result<(), Memory> {
        self.differ = self.differ.saturating_add(1);
        if self.differ <= SHOWN {
            self.told.extend_from_slice(b"  differs: ")?;
            self.told.extend_from_slice(title.as_bytes())?;
            self.told.extend_from_slice(b"\n")?;
        }
        Ok(())
    }
}

/// Reads the next line of a file of cases. One that can't be read is counted as a case that differs.
pub fn read_line<'a>(
    alloc: Global,
    line: &'a str,
    case: &mut Case<'a>,
    count: &mut Count,
) -> Result<(), Memory> {
    match line.strip_prefix("== ") {
        // The files of the next case are those of the case before; it has no words and wants nothing yet.
        Some(title) => {
            case.title = title;
            case.words.clear();
            case.wanted = Outcome::none(alloc);
        }
        None => {
            if !case.read(alloc, line)? {
                count.tell(line)?;
            }
        }
    }
    Ok(())
}

/// Puts the line of a file of cases, and below it what differs.
pub fn put_report(out: &mut Vec<u8>, name: &str, count: &Count) -> Result<(), Memory> {
    out.extend_from_slice(name.as_bytes())?;
    out.extend_from_slice(b":")?;
    put_number(out, u128::from(count.cases))?;
    out.extend_from_slice(b" cases,")?;
    put_number(out, u128::from(count.differ))?;
    out.extend_from_slice(b" differ\n")?;
    out.extend_from_slice(count.told.as_slice())?;
    Ok(())
}
