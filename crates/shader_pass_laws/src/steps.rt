//! Laws: what the passes over one function compute is what its step equation requires. Each is the contract of a function that does
//! nothing.
ghost use Rattle.shader_pass_laws.specs.OfTheStep.{ExpressionNeedsAreOfTheStep, KillsAreOfTheStep, NeedsAreOfTheStep};
ghost use Rattle.shader_passes.specs.ComputedOrigins.{OriginsAreOfTheStep};
ghost use Rattle.shader_pass_laws.specs.OfTheStep.{PairsAreOfTheStep, ResultsAreOfTheStep, UsesAreOfTheStep};

/// States that the origins of the expressions meet their step equation.
pub fn origins_are_of_the_step()
    ensures { OriginsAreOfTheStep }
{}

/// States that the origin of the function's result meets its step equation.
pub fn results_are_of_the_step()
    ensures { ResultsAreOfTheStep }
{}

/// States that the collected pairs of an image and a sampler meet their step equation.
pub fn pairs_are_of_the_step()
    ensures { PairsAreOfTheStep }
{}

/// States that the needs of each expression meet their step equation.
pub fn expression_needs_are_of_the_step()
    ensures { ExpressionNeedsAreOfTheStep }
{}

/// States that the needs of the function meet their step equation.
pub fn needs_are_of_the_step()
    ensures { NeedsAreOfTheStep }
{}

/// States that the pass decides whether the function may end an invocation while others go on, as its step equation does.
pub fn kills_are_of_the_step()
    ensures { KillsAreOfTheStep }
{}

/// States that the uses of each global, joined with those of callees and then of globals that are only named, meet their step equation.
pub fn uses_are_of_the_step()
    ensures { UsesAreOfTheStep }
{}
