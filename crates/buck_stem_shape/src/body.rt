//! What a stem keeps its samples and its zones in.
ghost use Rattle.std.specs.Prelude.{◌≡◌, IfOk};
ghost use Rattle.buck_stem_shape.specs.inner.Body.{body_of};

use std::alloc::{AllocError, Global};
use std::marker::Model;

/// The samples and the zones of a stem. If there are at most seven samples and no zones, no memory is allocated.
#[derive(Drop)]
pub(crate) struct Body {
    form: Form,
}

#[derive(Drop)]
enum Form {
    /// The samples are the first `count` of the array, and there are no zones.
    Short { count: u8, samples: [u16; 7] },
    Long(Box<Lists>),
}

/// The samples and the zones of a longer stem, or of one with zones.
#[derive(Drop)]
struct Lists {
    /// The diameters in mm under bark, one per 100 mm from the butt.
    samples: Vec<u16>,
    /// The place in mm where each zone starts, and the grade from there on.
    zones: Vec<(u32, u8)>,
}

impl Model for Body {
    ghost use Rattle.buck_stem_shape.specs.inner.Body.{BodyParts, kept_in, HasRoom};

    ghost Value = { BodyParts };

    ghost view = { λ b. kept_in b.form };

    ghost invariant = { λ b. HasRoom b.form };
}

impl Body {
    /// Keeps the samples and the zones.
    pub(crate) fn keep(
        alloc: Global,
        samples: Vec<u16>,
        zones: Vec<(u32, u8)>,
    ) -> Result<Body, AllocError>
        ensures { IfOk result (λ b. b ≡ body_of samples.items zones.items) }
    {
        // Seven samples fit in the 24 bytes that a stem takes anyway. Lists for all stems would cost a file of millions
        // of short ones an allocation for each.
        if samples.len() <= 7 && zones.is_empty() {
            let mut array = [0; 7];
            array[..samples.len()].copy_from_slice(samples.as_slice());
            let form = Form::Short {
                count: samples.len() as u8,
                samples: array,
            };
            return Ok(Body { form });
        }
        let lists = Box::new(alloc, Lists { samples, zones })?;
        Ok(Body {
            form: Form::Long(lists),
        })
    }

    /// The diameters in mm under bark, one per 100 mm from the butt.
    pub(crate) fn samples(&self) -> &[u16]
        ensures { result.now ≡ self.now.samples }
    {
        match &self.form {
            Form::Short { count, samples } => &samples[..*count as usize],
            Form::Long(lists) => lists.samples.as_slice(),
        }
    }

    /// The place in mm where each zone starts, and the grade from there on.
    pub(crate) fn zones(&self) -> &[(u32, u8)]
        ensures { result.now ≡ self.now.zones }
    {
        match &self.form {
            Form::Short { .. } => &[],
            Form::Long(lists) => lists.zones.as_slice(),
        }
    }
}
