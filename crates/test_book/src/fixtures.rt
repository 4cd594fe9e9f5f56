//! Books of a short saw instruction, and what is expected of them.
use buck_apt_instruction::Instruction;
use buck_book_postings::Book;
use buck_book_writer::journal_text;
use buck_stem_shape::Stem;
use fixture_samples::{instruction_of, uniform_stem};
use std::alloc::Global;
use std::fmt::{Debug, Display};
use std::sync::Arc;
use std::test::Fail;

/// The instruction of the books: the saw instruction with logs of 600 and 800 mm, a limit of 500 per mille, one log of
/// each class wanted, and this period in stems.
pub fn short_saw(alloc: Global, period: u32) -> Result<Arc<Instruction>, Fail> {
    let text = format!(in alloc;
        "1 2 APT~901 1 100~902 1 {period}~903 1 500~910 1 1~
911 1 saw~912 1 1~913 1 1~914 1 1~915 1 100 200~915 2 400~
916 1 600 800~917 1 400 500 600 800~918 1 1 1 1 1~"
    )?;
    instruction_of(alloc, text.as_str())
}

/// A stem of 800 mm and 250 mm.
pub fn short_stem(alloc: Global) -> Result<Arc<Stem>, Fail> {
    Ok(Arc::new(alloc, uniform_stem(alloc, 9, 250)?)?)
}

/// Targets for a demand.
pub fn targets_of(alloc: Global, targets: &[u32]) -> Result<Arc<Vec<u32>>, Fail> {
    let held = Vec::from_slice(alloc, targets)?;
    Ok(Arc::new(alloc, held)?)
}

/// What a journal says of a sheet with its prices, of a cut with its number, its version, the length in mm of its one log
/// and its worth, or of a demand with its number, its version and its targets.
#[derive(Clone, Copy)]
pub enum Part {
    Sheet([u32; 4]),
    Cut(u32, u32, u32, u64),
    Demand(u32, u32, [u32; 4]),
}

/// The base prices.
pub const BASE: Part = Part::Sheet([400, 500, 600, 800]);

/// The prices after a cut of a log of 800 mm.
pub const LESS_LONG: Part = Part::Sheet([600, 750, 900, 400]);

/// The prices after cuts of logs of both lengths.
pub const LESS_OF_BOTH: Part = Part::Sheet([600, 750, 300, 400]);

/// What that stem is worth in a log of 800 mm under the base prices.
pub const LONG: u64 = 31_416_000;

/// What it is worth in a log of 600 mm under the prices after a cut of one of 800 mm.
pub const SHORT: u64 = 26_506_800;

/// Puts what is said of harvester 1's cut of that stem.
fn put_cut(out: &mut String, number: u32, version: u32, log: u32, worth: u64) -> Result<(), Fail> {
    Ok(write!(
        out,
        "981 1 1 {number} {version}~\n981 2 1 1~\n981 3 250 250 250 250 250 250 250 250 250~
981 4~\n981 5 0 {log} 0~\n981 6 {worth}~\n"
    )?)
}

/// Puts four numbers at the end of an item.
fn put_four(out: &mut String, head: &str, four: [u32; 4]) -> Result<(), Fail> {
    let [a, b, c, d] = four;
    Ok(write!(out, "{head} {a} {b} {c} {d}~\n")?)
}

/// Puts what is said of a demand of harvester 1.
fn put_demand(out: &mut String, number: u32, version: u32, targets: [u32; 4]) -> Result<(), Fail> {
    write!(out, "982 1 1 {number} {version}~\n")?;
    put_four(out, "982 2", targets)
}

/// Puts a part.
fn put(out: &mut String, part: Part) -> Result<(), Fail> {
    match part {
        Part::Sheet(prices) => put_four(out, "971 1", prices),
        Part::Cut(number, version, log, worth) => put_cut(out, number, version, log, worth),
        Part::Demand(number, version, targets) => put_demand(out, number, version, targets),
    }
}

/// The journal of these parts.
fn text_of(alloc: Global, parts: &[Part]) -> Result<String, Fail> {
    let mut text = String::new(alloc);
    text.push_str("1 2 JRN~\n")?;
    for part in parts {
        put(&mut text, *part)?;
    }
    Ok(text)
}

/// Whether the journal of a book is made of these parts.
pub fn has_journal<F: Drop>(alloc: Global, book: &Book<F>, parts: &[Part]) -> Result<bool, Fail> {
    let wanted = text_of(alloc, parts)?;
    Ok(journal_text(alloc, book.sheets(), book.entries())?.as_slice() == wanted.as_bytes())
}

/// Whether these are the text of a fault and its debugging form.
pub fn reads<T: Display + Debug>(alloc: Global, fault: &T, want: &str) -> Result<bool, Fail> {
    Ok(format!(in alloc; "{fault}, {fault:?}")?.as_str() == want)
}
