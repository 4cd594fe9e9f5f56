//! Whether a cutting is admissible, and what it is worth.
ghost use Rattle.std.specs.Prelude.{◌≡◌, ◌↔◌, IsTrue, IfSome, IfNone};
ghost use Rattle.buck_dp.specs.Best.{IsAdmissible, cutting_worth};

use crate::cutting::Cutting;
use crate::ends::end_of;
use buck_stem_shape::Stem;
use buck_value::{Sheet, worth_if_allowed};

/// The worth of a cutting under a sheet, in millionths of the price unit, if it is admissible, and `None` if it
/// isn't; see [`admissible`] and [`worth`]. Any logs may be asked of. It takes no memory.
#[tactic(auto, using(buck_value::proofs::Rates::worth_low))]
pub fn worth_if_admissible(sheet: &Sheet, stem: &Stem, cutting: &Cutting) -> Option<u64>
    ensures admissible { IfSome result (λ _. IsAdmissible sheet.now stem.now cutting.now.logs.items) }
    ensures worth { IfSome result (λ w. w ≡ cutting_worth sheet.now stem.now cutting.now.logs.items) }
    ensures none { IfNone result (IsAdmissible sheet.now stem.now cutting.now.logs.items → ⊥) }
{
    let mut from = 0;
    let mut total = 0;
    for log in cutting.logs.as_slice() {
        if log.start < from {
            return None;
        }
        let worth = worth_if_allowed(sheet, stem, log)?;
        total += worth;
        from = end_of(sheet, stem, log);
    }
    Some(total)
}

/// Whether a cutting is admissible: each log is allowed and starts at or after the end of the one before. Any logs may
/// be asked of; the empty cutting is admissible. It takes no memory.
pub fn admissible(sheet: &Sheet, stem: &Stem, cutting: &Cutting) -> bool
    ensures { IsTrue result ↔ IsAdmissible sheet.now stem.now cutting.now.logs.items }
{
    worth_if_admissible(sheet, stem, cutting).is_some()
}

/// The worth of an admissible cutting under a sheet, in millionths of the price unit: the sum of its logs'. It takes no
/// memory.
pub fn worth(sheet: &Sheet, stem: &Stem, cutting: &Cutting) -> u64
    requires { IsAdmissible sheet.now stem.now cutting.now.logs.items }
    ensures { result ≡ cutting_worth sheet.now stem.now cutting.now.logs.items }
{
    worth_if_admissible(sheet, stem, cutting).unwrap()
}
