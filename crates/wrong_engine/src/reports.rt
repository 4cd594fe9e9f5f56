//! Wrong bodies of the report of a closed fleet, and of the degree of apportionment.
ghost use Rattle.std.specs.Prelude.{◌≡◌, ◌≢◌, ◌++◌, ◌<◌, ◌∷◌, [], ℕ, List, Some, length, slice_get, sum};
ghost use Rattle.buck_apt_instruction.specs.Instruction.{AssortmentParts};
ghost use Rattle.buck_book_postings.specs.Counts.{AreClassCounts};
ghost use Rattle.buck_book_postings.specs.Posting.{targets_of};
ghost use Rattle.buck_book_postings.specs.Degree.{part_of};
ghost use Rattle.buckfleet_engine_text.specs.Report.{all_lines, ending_of, posting_lines, totals_line};
ghost use Rattle.wrong_engine.specs.Reports.{lines_after_first, opening_lines, postings_total};

use buck_fleet::Closed;
use buckfleet_engine::{degree, report_text};
use std::alloc::Global;

/// The first posting has no line.
pub fn report_without_an_entry(alloc: Global, closed: &Closed, wrong: &[u8])
    requires wrong { let h = closed.now.history in (counts : List ℕ) → AreClassCounts h.instruction h.postings counts
        → wrong.now ≡ lines_after_first h.postings
        ++ (all_lines (ending_of h counts) 0 h.instruction.assortments ++ totals_line h.postings) }
    requires differ { let h = closed.now.history in lines_after_first h.postings ≢ posting_lines 0 h.postings }
{
    let Ok(right) = report_text(alloc, closed) else {
        return;
    };
    prove!(right.as_slice() != wrong);
}

/// The price of a class in the last sheet is printed as its base price.
pub fn class_line_with_the_opening_price(alloc: Global, closed: &Closed, wrong: &[u8])
    requires wrong { let h = closed.now.history in (counts : List ℕ) → AreClassCounts h.instruction h.postings counts
        → wrong.now ≡ posting_lines 0 h.postings
        ++ (opening_lines (ending_of h counts) 0 h.instruction.assortments ++ totals_line h.postings) }
    requires differ { let h = closed.now.history in (counts : List ℕ) → AreClassCounts h.instruction h.postings counts
        → opening_lines (ending_of h counts) 0 h.instruction.assortments
        ≢ all_lines (ending_of h counts) 0 h.instruction.assortments }
{
    let Ok(right) = report_text(alloc, closed) else {
        return;
    };
    prove!(right.as_slice() != wrong);
}

/// The total counts demands among the cuts.
pub fn totals_count_demands(alloc: Global, closed: &Closed, wrong: &[u8])
    requires wrong { let h = closed.now.history in (counts : List ℕ) → AreClassCounts h.instruction h.postings counts
        → wrong.now ≡ posting_lines 0 h.postings
        ++ (all_lines (ending_of h counts) 0 h.instruction.assortments ++ postings_total h.postings) }
    requires differ { let h = closed.now.history in postings_total h.postings ≢ totals_line h.postings }
{
    let Ok(right) = report_text(alloc, closed) else {
        return;
    };
    prove!(right.as_slice() != wrong);
}

/// The targets of the instruction in the place of those in force at the end, by which nothing is wanted any more.
pub fn degree_by_the_opening_targets(closed: &Closed, at: usize)
    requires exists { at < length closed.now.history.instruction.assortments }
    requires unwanted { let h = closed.now.history in (a : AssortmentParts) → slice_get h.instruction.assortments at ≡ Some a
        → sum (part_of h.instruction a at (targets_of h.instruction h.postings)) ≡ 0 }
{
    let right = degree(closed, at);
    let is_none = right.is_none();
    prove!(is_none);
}

/// The sum is rounded down to ten-thousands after each class: of two classes of which one log is wanted and cut, nothing
/// is left.
pub fn degree_rounded_for_each_class(closed: &Closed, at: usize)
    requires exists { at < length closed.now.history.instruction.assortments }
    requires targets { let h = closed.now.history in (a : AssortmentParts) → slice_get h.instruction.assortments at ≡ Some a
        → part_of h.instruction a at (targets_of h.instruction h.postings) ≡ 1 ∷ 1 ∷ [] }
    requires counts { let h = closed.now.history in (a : AssortmentParts) (counts : List ℕ)
        → slice_get h.instruction.assortments at ≡ Some a → AreClassCounts h.instruction h.postings counts
        → part_of h.instruction a at counts ≡ 1 ∷ 1 ∷ [] }
{
    let right = degree(closed, at);
    let wrong = Some(0);
    prove!(right != wrong);
}
