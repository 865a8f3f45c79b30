//! Laws over the definitions, each the contract of a function that does nothing.
ghost use Rattle.shader_uniformity.specs.Together.{EmptyCallsRun, EntryPointsStayTogether, FunctionsStayTogether};
ghost use Rattle.shader_uniformity.specs.Traces.{MarksHaveTraces, TracesAreMarks};

/// States that in every finite lockstep execution of an entry point that isn't at fault, all invocations execute together each statement
/// that needs all of them, whatever the expressions mean. `I` is the type of the invocations, and `V` that of the values.
pub fn entry_points_stay_together<I, V>()
    ensures { EntryPointsStayTogether I V }
{}

/// States the same of every call of a function, if no violated need follows from the facts with which the call begins.
pub fn functions_stay_together<I, V>()
    ensures { FunctionsStayTogether I V }
{}

/// States that a call of a function without statements has a lockstep execution, whatever is passed. No statement of that execution needs
/// uniform control flow.
pub fn empty_calls_run<I, V>()
    ensures { EmptyCallsRun I V }
{}

/// States that a fact with a trace from another fact follows from it.
#[tactic(auto, using(crate::proofs::TraceLemmas::traces_mark))]
pub fn traces_mark()
    ensures { TracesAreMarks }
{}

/// States that a fact that follows from another fact has a trace from it.
#[tactic(auto, using(crate::proofs::TraceLemmas::marks_have_traces))]
pub fn marks_have_traces()
    ensures { MarksHaveTraces }
{}
