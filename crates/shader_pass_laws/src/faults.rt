//! Laws: what the passes over one function refuse is exactly a fault by the infos of its callees. Each is the contract of a function that
//! does nothing.
ghost use Rattle.shader_pass_laws.specs.PairsFit.{CollectedPairsFit, ComputedPairsAreWithin, TypedArgumentsAreWithin};
ghost use Rattle.shader_pass_laws.specs.PairsFit.{TypedFunctionsHaveArguments};
ghost use Rattle.shader_pass_laws.specs.Refused.{FullCountsAreFaults, FlowViolationsAreFaults, MissingResourcesAreFaults};

/// States that an expression for which the pass finds no resource is a fault, and that there is no such fault if the pass finds none.
pub fn missing_resources_are_faults()
    ensures { MissingResourcesAreFaults }
{}

/// States that a reference count that exceeds every `usize` is a fault, and that there is no such fault if the counts of a function's
/// expressions fit and its operands are in range.
pub fn full_counts_are_faults()
    ensures { FullCountsAreFaults }
{}

/// States that an argument that an expression names exists if that expression has a type.
pub fn typed_arguments_are_within()
    ensures { TypedArgumentsAreWithin }
{}

/// States that each argument that a function names exists if all its expressions have types.
pub fn typed_functions_have_arguments()
    ensures { TypedFunctionsHaveArguments }
{}

/// States that each resource of the collected pairs is a global of the module or an argument of the function.
pub fn computed_pairs_are_within()
    ensures { ComputedPairsAreWithin }
{}

/// States that pairs collected in two sets fit the function, in the words of `Fits`.
pub fn collected_pairs_fit()
    ensures { CollectedPairsFit }
{}

/// States that the first violation of uniform control flow, with its disruptor, is a fault, and that there is no such fault if the pass
/// sees none.
pub fn flow_violations_are_faults()
    ensures { FlowViolationsAreFaults }
{}
