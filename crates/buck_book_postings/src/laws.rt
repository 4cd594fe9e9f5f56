//! What follows from the definitions of a history, for all histories: each law is the contract of an empty function.
ghost use Rattle.std.specs.Prelude.{◌≡◌, ℕ, ◌+◌, ◌/◌, ◌%◌, ◌<◌, ◌≤◌, ◌↔◌, List, ◌∷◌, ◌++◌, length, Option, map};
ghost use Rattle.buck_apt_instruction.specs.Instruction.{InstructionParts, IsInstruction};
ghost use Rattle.buck_value.specs.Sheet.{SheetParts};
ghost use Rattle.buck_book_postings.specs.declared.posting.Posting.{Posting};
ghost use Rattle.buck_book_postings.specs.declared.posting.Posting.TheVariants.{Cut, Demand};
ghost use Rattle.buck_book_postings.specs.Entry.{EntryParts, DemandParts};
ghost use Rattle.buck_book_postings.specs.Posting.{ends_of, cuts_since_end};
ghost use Rattle.buck_book_postings.specs.History.{HistoryParts, IsLawful, Follows, first_of, history_with};
ghost use Rattle.buck_book_postings.specs.Book.{IsNext};
ghost use Rattle.buck_book_postings.specs.CutsAlone as alone;

/// The first postings of a lawful history, with the sheets that came up to there, are a lawful history.
pub fn prefix_is_lawful()
    ensures { (h : HistoryParts) (k : ℕ) → IsLawful h → k ≤ length h.postings → IsLawful (first_of k h) }
{}

/// A lawful history with one posting more that may follow, and with a next sheet exactly if that posting is an end, is
/// lawful.
#[tactic(auto, using(crate::proofs::Extend::one_more))]
pub fn one_more_is_lawful()
    ensures { (h : HistoryParts) (x : Posting) (next : Option SheetParts)
        → IsLawful h
        → Follows h.instruction h.sheets h.postings x
        → IsNext h x next
        → IsLawful (history_with h x next) }
{}

/// If no demand stands, the ends are the full periods.
#[tactic(auto, using(crate::proofs::Alone::ends_alone, crate::proofs::Alone::cuts_alone))]
pub fn ends_of_cuts_alone()
    ensures { (i : InstructionParts) (es : List EntryParts)
        → 0 < i.period
        → (ends_of i (map Cut es) ≡ length es / i.period) × (cuts_since_end i (map Cut es) ≡ length es % i.period) }
{}

/// If no demand stands, a history is lawful exactly if it is lawful in words that know of no demand.
pub fn lawful_of_cuts_alone()
    ensures { (i : InstructionParts) (sheets : List (List ℕ)) (es : List EntryParts)
        → IsInstruction i
        → IsLawful (alone.history_of i sheets es) ↔ alone.IsLawful i sheets es }
{}

/// A demand is an end, and what comes after it goes on as a history of its own: the ends are those before it, itself,
/// and those of what comes after, counted as from an opening.
#[tactic(auto, using(crate::proofs::Ends::ends_around, crate::proofs::Ends::cuts_around))]
pub fn ends_around_a_demand()
    ensures { (i : InstructionParts) (before after : List Posting) (d : DemandParts)
        → (ends_of i (before ++ Demand d ∷ after) ≡ ends_of i before + 1 + ends_of i after)
        × (cuts_since_end i (before ++ Demand d ∷ after) ≡ cuts_since_end i after) }
{}
