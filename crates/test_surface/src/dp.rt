//! The first of the best cuttings.
ghost use Rattle.buck_dp.specs.Best.{IsAdmissible};

use buck_dp::{Cutting, Memory};
use buck_stem::Stem;
use buck_value::Sheet;
use std::alloc::Global;

/// `buck_dp`: `admissible`, `worth` and `best`.
pub fn best(
    alloc: Global,
    sheet: &Sheet,
    stem: &Stem,
    cutting: &Cutting,
) -> Result<(Cutting, u64), Memory>
    requires { IsAdmissible sheet.now stem.now cutting.now.logs.items }
{
    let _is_admissible: bool = buck_dp::admissible(sheet, stem, cutting);
    let _worth: u64 = buck_dp::worth(sheet, stem, cutting);
    buck_dp::best(alloc, sheet, stem)
}
