//! Wrong answers about a felled stem that is looked at before it is cut.
ghost use Rattle.std.specs.Prelude.{◌≡◌, ◌≢◌, ◌<◌, ◌≤◌, [], ◌∷◌};
ghost use Rattle.buck_stem_shape.specs.Stem.{IsStem};
ghost use Rattle.buck_value.specs.Allowed.{IsAllowed};
ghost use Rattle.buck_c_session.specs.Felled.{stem_by};
ghost use Rattle.buck_c_session.specs.Looked.{log_by};

use buck_c_session::{FellFault, Felled, KeptBook, NamedLog, Zone};
use buck_dp_own_logs::Judged;
use std::alloc::Global;

/// A preview adds a posting.
pub fn preview_posts(
    alloc: Global,
    kept: &mut KeptBook,
    felled: &Felled,
    samples: &[u16],
    zones: &[Zone],
) -> Result<(), FellFault> {
    let wrong = kept.book().len() + 1;
    let _entry = kept.preview_felled(alloc, felled, samples, zones)?;
    let right = kept.book().len();
    prove!(right != wrong);
    Ok(())
}

/// An appraisal adds a posting.
pub fn appraisal_posts(
    alloc: Global,
    kept: &mut KeptBook,
    felled: &Felled,
    samples: &[u16],
    zones: &[Zone],
    named: &[NamedLog],
) -> Result<(), FellFault> {
    let wrong = kept.book().len() + 1;
    let _appraisal = kept.appraise_felled(alloc, felled, samples, zones, named)?;
    let right = kept.book().len();
    prove!(right != wrong);
    Ok(())
}

/// The number that is shown is that of the harvester's last call, and not of the next.
pub fn preview_numbered_as_the_last_call(
    alloc: Global,
    kept: &mut KeptBook,
    felled: &Felled,
    samples: &[u16],
    zones: &[Zone],
) -> Result<(), FellFault>
    requires { (0 < felled.now.harvester) × (felled.now.harvester ≤ 64) }
{
    let wrong = kept.book().calls(felled.harvester);
    let entry = kept.preview_felled(alloc, felled, samples, zones)?;
    let right = entry.number;
    prove!(right != wrong);
    Ok(())
}

/// A book at its capacity shows nothing.
pub fn full_book_shows_nothing(
    alloc: Global,
    kept: &mut KeptBook,
    felled: &Felled,
    samples: &[u16],
    zones: &[Zone],
) {
    let outcome = kept.preview_felled(alloc, felled, samples, zones);
    let is_full = matches!(outcome, Err(FellFault::Full));
    prove!(!is_full);
}

/// A stem outside the limits is shown.
pub fn stem_outside_the_limits_shown(
    alloc: Global,
    kept: &mut KeptBook,
    felled: &Felled,
    samples: &[u16],
    zones: &[Zone],
)
    requires { IsStem (stem_by felled.now samples.now zones.now) → ⊥ }
{
    let right = kept.preview_felled(alloc, felled, samples, zones).is_ok();
    let wrong = true;
    prove!(right != wrong);
}

/// A log that isn't allowed is admitted.
pub fn own_log_admitted_unlooked_at(
    alloc: Global,
    kept: &mut KeptBook,
    felled: &Felled,
    samples: &[u16],
    zones: &[Zone],
    named: &[NamedLog],
    log: &NamedLog,
) -> Result<(), FellFault>
    requires named { named.now ≡ log.now ∷ [] }
    requires not_allowed { IsAllowed kept.old.history.instruction (stem_by felled.now samples.now zones.now)
        (log_by log.now) → ⊥ }
{
    let appraisal = kept.appraise_felled(alloc, felled, samples, zones, named)?;
    let right = matches!(appraisal.judged, Judged::Admissible { .. });
    let wrong = true;
    prove!(right != wrong);
    Ok(())
}

/// No log at all is said to be worth something.
pub fn no_logs_worth_something(
    alloc: Global,
    kept: &mut KeptBook,
    felled: &Felled,
    samples: &[u16],
    zones: &[Zone],
) -> Result<(), FellFault> {
    let appraisal = kept.appraise_felled(alloc, felled, samples, zones, &[])?;
    if let Judged::Admissible { worth } = appraisal.judged {
        let wrong = 1;
        prove!(worth != wrong);
    }
    Ok(())
}

/// A stem is cut otherwise than its preview showed.
pub fn cut_unlike_its_preview(
    alloc: Global,
    kept: &mut KeptBook,
    felled: &Felled,
    samples: &[u16],
    zones: &[Zone],
) -> Result<(), FellFault> {
    let shown = kept.preview_felled(alloc, felled, samples, zones)?;
    let cut = kept.fell(alloc, felled, samples, zones)?;
    let right = shown.same(&cut);
    let wrong = false;
    prove!(right != wrong);
    Ok(())
}
