//! Journals.
use std::alloc::Global;
use std::test::Fail;

/// A journal of the saw instruction: one sheet, one cut of a short stem with two zones, and one demand. It isn't lawful.
pub const SHORT_JOURNAL: &str = "1 2 JRN~
971 1 400 500 600 800~
981 1 1 1 0~
981 2 7 1~
981 3 250 250~
981 4 0 1 3000 8~
981 5 0 4000 0~
981 6 157080000~
982 1 64 2 1~
982 2 0 0 1000000 4~
";

/// The journal of two stems of 4,000 mm and 250 mm, cut under the step rule by the saw instruction with period 1, limit
/// 500 and targets 1 1 1 1.
pub fn two_stem_journal(alloc: Global) -> Result<String, Fail> {
    let samples = " 250".repeat(alloc, 41)?;
    Ok(format!(in alloc;
        "1 2 JRN~
971 1 400 500 600 800~
971 1 600 750 900 400~
971 1 600 750 300 400~
981 1 1 1 0~
981 2 1 1~
981 3{samples}~
981 4~
981 5 0 4000 0~
981 6 157080000~
981 1 1 2 1~
981 2 2 1~
981 3{samples}~
981 4~
981 5 0 3000 0~
981 6 132535800~
"
    )?)
}
