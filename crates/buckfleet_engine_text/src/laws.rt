//! Laws of the definitions.
ghost use Rattle.buckfleet_engine_text.specs.Laws.{OneText};

/// The printed text is determined by the instruction and the stems: the first of the best cuttings is one cutting.
pub fn one_text()
    ensures { OneText }
{}
