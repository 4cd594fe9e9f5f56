//! What follows from the definitions of a journal, for all journals: each law is the contract of an empty function.
ghost use Rattle.std.specs.Prelude.{◌≡◌, ℕ, ◌+◌, ◌≤◌, List, length, slice_get, sum_by, Some, Ok};
ghost use Rattle.buck_record.specs.Item.{ItemParts};
ghost use Rattle.buck_record.specs.bytes.Record.{items_of};
ghost use Rattle.buck_apt_instruction.specs.Instruction.{IsInstruction};
ghost use Rattle.buck_book_postings.specs.declared.posting.Posting.{Posting};
ghost use Rattle.buck_book_postings.specs.History.{HistoryParts, IsLawful};
ghost use Rattle.buck_book_journal.specs.Journal.{JournalParts};
ghost use Rattle.buck_book_journal.specs.Reading.{number_of_items, journal_in, journal_of};
ghost use Rattle.buck_book_laws.specs.JournalsOfCuts as alone;
ghost use Rattle.buck_book_laws.specs.Ranges.{AreInRange, IsOfBook};
ghost use Rattle.buck_book_journal.specs.Written.{journal_text};
ghost use Rattle.buck_book_postings.specs.declared.posting.TheConstants.{MOST_POSTINGS};

/// The journal of a journal's text is what was written: the prices of the sheets, and the postings. There are at most
/// 1,000,000 postings, and all numbers, and how many there are, lie within a journal's ranges, as a book's do.
#[tactic(auto, using(crate::proofs::Texts::read_again))]
pub fn what_is_written_is_read()
    ensures { (sheets : List (List ℕ)) (postings : List Posting) → AreInRange sheets postings
        → journal_of (journal_text sheets postings)
        ≡ Ok (record { sheets = sheets; entries = postings }) }
{}

/// No item of a journal is skipped: beside the kind of file there is one item for each sheet, and there are six for
/// each cut and two for each demand.
#[tactic(auto, using(crate::proofs::Sequence::none_skipped))]
pub fn no_item_is_skipped()
    ensures { (bytes : List ℕ) (journal : JournalParts) → journal_of bytes ≡ Ok journal
        → (items : List ItemParts)
        × (items_of bytes ≡ Ok items)
        × (length items ≡ 1 + length journal.sheets + sum_by number_of_items journal.entries) }
{}

/// If no item begins a demand, the items are read as in the words that know of no demand: the same journal, or the same
/// refusal.
#[tactic(auto, using(crate::proofs::Alone::journal_alone))]
pub fn cuts_alone_are_read_as_before()
    ensures { (items : List ItemParts) → alone.HasNoDemand items → journal_in items ≡ alone.journal_in items }
{}

/// A lawful history of at most 1,000,000 postings lies within a journal's ranges, if its harvesters are from 1 to 64
/// and its stems are valid, as they are in every book.
#[tactic(auto, using(crate::proofs::Within::in_range))]
pub fn histories_lie_in_range()
    ensures { (h : HistoryParts) → IsInstruction h.instruction → IsLawful h
        → length h.postings ≤ MOST_POSTINGS
        → ((k : ℕ) (x : Posting) → slice_get h.postings k ≡ Some x → IsOfBook x)
        → AreInRange h.sheets h.postings }
{}
