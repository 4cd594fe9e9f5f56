//! Stems.
use buck_stem_shape::Stem;
use std::alloc::Global;
use std::test::Fail;

/// Stem 1 of species 1 with these samples, in mm, and these zones, each a start in mm and a grade.
pub fn stem_of(alloc: Global, samples: &[u16], zones: &[(u32, u8)]) -> Result<Stem, Fail> {
    let samples = samples.to_vec(alloc)?;
    let zones = zones.to_vec(alloc)?;
    Ok(Stem::make(alloc, 1, 1, samples, zones)?)
}

/// Stem 1 of species 1 with `count` samples of one diameter, in mm, and no zones.
pub fn uniform_stem(alloc: Global, count: usize, diameter: u16) -> Result<Stem, Fail> {
    let samples = vec![in alloc; diameter; count]?;
    Ok(Stem::make(alloc, 1, 1, samples, Vec::new(alloc))?)
}
