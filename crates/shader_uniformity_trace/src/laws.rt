//! Laws about chains of links. Each law is the contract of a function with an empty body.
ghost use Rattle.shader_uniformity_trace.specs.Laws.{ChainsAreOfOrigins};

/// States that the end of a chain is an origin of its beginning, by the interprocedural definition.
pub fn chains_are_of_origins()
    ensures { ChainsAreOfOrigins }
{}
