//! Laws on the reported accesses, each the contract of a function that does nothing.
ghost use Rattle.shader_report_bounds.specs.Laws.{AccessesAreThoseChecked};

/// States that if an info records the derivable types and sizes are known, the accesses of the report are exactly those that need a check.
pub fn accesses_are_those_checked()
    ensures { AccessesAreThoseChecked }
{}
