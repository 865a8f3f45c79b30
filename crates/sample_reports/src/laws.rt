//! Laws about reports. Each law is the contract of a function with an empty body.

ghost use Rattle.sample_reports.specs.Laws.{ReportsAreUnique};

/// States that the report on a module is unique up to the choice among the faults of the first
/// faulty location.
pub fn reports_are_unique()
    ensures { ReportsAreUnique }
{}
