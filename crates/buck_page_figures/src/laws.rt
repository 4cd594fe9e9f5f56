//! Laws of the figures of a journal.
ghost use Rattle.std.specs.Prelude.{◌≡◌, ◌*◌, ◌≤◌, ℕ, List, All, Some, length, slice_get, sum_by};
ghost use Rattle.buck_apt_instruction.specs.Instruction.{InstructionParts, IsInstruction};
ghost use Rattle.buck_apt_instruction.specs.Grades.{grade_free};
ghost use Rattle.buck_book_postings.specs.declared.posting.Posting.{Posting};
ghost use Rattle.buck_book_postings.specs.History.{IsLawful};
ghost use Rattle.buck_book_journal.specs.Journal.{JournalParts, history_of};
ghost use Rattle.buck_book_postings.specs.Degree.{degree_of};
ghost use Rattle.buck_page_figures.specs.Journals.{postings_of};
ghost use Rattle.buck_page_figures.specs.Degrees.{diameter_degree_of};
ghost use Rattle.buck_page_figures.specs.Figures.{AreUnsteered, IsUnsteered, at_base_in, logged_in, logs_in, volume_in, worth_in};
ghost use Rattle.buck_page_figures.specs.Assorted.{AreParts};
ghost use Rattle.buck_page_figures.specs.declared.figures.Part.{Part};

/// The cost of steering is never below 0, of a posting nor of all: the logs cut of a stem are one of its cuttings under
/// any prices, so at base prices they aren't worth more than the best one.
pub fn steering_never_gains()
    ensures of_each { (i : InstructionParts) (j : JournalParts) (us : List Posting)
        → IsLawful (history_of i j) → AreUnsteered i j.entries us
        → (k : ℕ) (x u : Posting) → slice_get j.entries k ≡ Some x → slice_get us k ≡ Some u
        → at_base_in i x ≤ worth_in u }
    ensures of_all { (i : InstructionParts) (j : JournalParts) (us : List Posting)
        → IsLawful (history_of i j) → AreUnsteered i j.entries us
        → sum_by (at_base_in i) j.entries ≤ sum_by worth_in us }
{}

/// Grades never gain: no stem's best cutting at base prices is worth less if every assortment takes every grade,
/// because what may be cut with grades may be cut without them, and is worth the same.
pub fn grades_never_gain()
    ensures of_each { (i : InstructionParts) → IsInstruction i → (x u free : Posting)
        → IsUnsteered i x u → IsUnsteered (grade_free i) x free → worth_in u ≤ worth_in free }
    ensures of_all { (i : InstructionParts) → IsInstruction i → (ps us free : List Posting)
        → AreUnsteered i ps us → AreUnsteered (grade_free i) ps free → sum_by worth_in us ≤ sum_by worth_in free }
{}

/// Each sum over some journals is the sum of those over each: a week's is the sum of its days'.
#[tactic(auto, using(crate::proofs::JournalLemmas::sums_of_each))]
pub fn a_week_is_the_sum_of_its_days()
    ensures { (n : Posting → ℕ) (js : List JournalParts)
        → sum_by n (postings_of js) ≡ sum_by (λ j. sum_by n j.entries) js }
{}

/// The sums over assortments are the whole: what the logs of each assortment come to, their number, volume and length
/// and what they are worth at base prices, adds up to what all logs come to, as cut and unsteered.
pub fn assortments_are_the_whole()
    ensures as_cut { (i : InstructionParts) (js : List JournalParts) (parts : List Part)
        → All (λ j. IsLawful (history_of i j)) js → AreParts i (postings_of js) parts
        → (sum_by (λ p. p.logs) parts ≡ sum_by logs_in (postings_of js))
        × (sum_by (λ p. p.volume) parts ≡ sum_by volume_in (postings_of js))
        × (sum_by (λ p. p.logged) parts ≡ sum_by logged_in (postings_of js))
        × (sum_by (λ p. p.at_base) parts ≡ sum_by (at_base_in i) (postings_of js)) }
    ensures unsteered { (i : InstructionParts) (ps us : List Posting) (parts : List Part)
        → AreUnsteered i ps us → AreParts i us parts
        → (sum_by (λ p. p.logs) parts ≡ sum_by logs_in us)
        × (sum_by (λ p. p.volume) parts ≡ sum_by volume_in us)
        × (sum_by (λ p. p.logged) parts ≡ sum_by logged_in us)
        × (sum_by (λ p. p.at_base) parts ≡ sum_by worth_in us) }
{}

/// A degree is never above that of its diameters.
#[tactic(auto, using(crate::proofs::RowLemmas::no_degree_above))]
pub fn no_degree_is_above_that_of_its_diameters()
    ensures { (rows columns : ℕ) (targets counts : List ℕ) (degree diameter : ℕ)
        → length targets ≡ rows * columns → length counts ≡ rows * columns
        → degree_of targets counts ≡ Some degree → diameter_degree_of rows columns targets counts ≡ Some diameter
        → degree ≤ diameter }
{}
