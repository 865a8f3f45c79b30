//! Laws about the samples. Each law is the contract of a function with an empty body.

ghost use Rattle.shader_samples.specs.Laws.{NamesDetermineSamples, SamplesAreWellFormed};

/// States that each sample is a well-formed module, so that it can be analysed.
pub fn samples_are_well_formed()
    ensures { SamplesAreWellFormed }
{}

/// States that each sample has a name of its own.
pub fn names_determine_samples()
    ensures { NamesDetermineSamples }
{}
