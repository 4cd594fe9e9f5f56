//! Wrong answers of the writer of journals.
ghost use Rattle.std.specs.Prelude.{◌≡◌, ◌∷◌, [], map};
ghost use Rattle.wrong_book.specs.Texts.{second_demand};

use buck_book_postings::{Memory, Posting};
use buck_book_writer::journal_text;
use buck_value::Sheet;
use std::alloc::Global;
use std::sync::Arc;

/// A demand's version isn't written.
#[tactic(auto, using(crate::proofs::Texts::text_of_a_demand))]
pub fn version_of_a_demand_left_out(
    alloc: Global,
    sheets: &[Arc<Sheet>],
    postings: &[Posting],
) -> Result<(), Memory>
    requires sheet { map (λ s. s.value.prices) sheets.now ≡ (400 ∷ 500 ∷ []) ∷ [] }
    requires demand { postings.now ≡ Posting.Demand second_demand ∷ [] }
{
    let text = journal_text(alloc, sheets, postings)?;
    let right = text.as_slice() == b"1 2 JRN~\n971 1 400 500~\n982 1 3 2~\n982 2 0 4~\n".as_slice();
    let wrong = true;
    prove!(right != wrong);
    Ok(())
}
