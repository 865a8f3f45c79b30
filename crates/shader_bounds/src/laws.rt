//! Laws on lengths, known indexes and checks, each the contract of a function that does nothing.
ghost use Rattle.shader_bounds.specs.Laws.{AccessesHaveLengths, ChecksAreOfDerived};
ghost use Rattle.shader_bounds.specs.LengthLaws.{GlobalsAreAmong, KnownSizesGiveLengths};

/// States that if all sizes are known, only types that aren't indexable have no length.
pub fn known_sizes_give_lengths()
    ensures { KnownSizesGiveLengths }
{}

/// States that for the global expressions themselves, the known index is that of
/// `GlobalCtx::known_index`.
pub fn globals_are_among()
    ensures { GlobalsAreAmong }
{}

/// States that if an info records the derivable types, as those of the analysis do, then these types determine the checks.
pub fn checks_are_of_derived()
    ensures { ChecksAreOfDerived }
{}

/// States that if moreover `sizes_known` returns true, each access has a length, as `access_needs_check` requires; only an access to a
/// member of a struct has none.
pub fn accesses_have_lengths()
    ensures { AccessesHaveLengths }
{}
