//! Laws on tables of types that grow. Each law is the contract of a function that does nothing.
ghost use Rattle.shader_typifier.specs.Laws.{GrownTypesAreDerived, RegisteredTypesFit, TypesFitLargerArenas};

/// States that a table of derivable types grows by derivable types, the ones that the analysis records, as long as the context is
/// unchanged.
pub fn grown_types_are_derived()
    ensures { GrownTypesAreDerived }
{}

/// States that types that fit an arena fit any larger arena.
pub fn types_fit_larger_arenas()
    ensures { TypesFitLargerArenas }
{}

/// States that a table may continue to grow over the arena after one of its types was registered.
pub fn registered_types_fit()
    ensures { RegisteredTypesFit }
{}
