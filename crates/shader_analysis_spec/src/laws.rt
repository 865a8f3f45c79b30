//! Laws about the definitions of the analysis. Each law is the contract of a function with an empty body.
ghost use Rattle.shader_analysis_spec.specs.Bits.{NumbersAreSets};
ghost use Rattle.shader_analysis_spec.specs.Disruption.{
  AcceptedWalksAgree,
  DisruptionMeansDivergence,
  InfosDecide,
};
ghost use Rattle.shader_analysis_spec.specs.ExactLaws.{StepIsExact, SummariesEqualCallPaths};
ghost use Rattle.shader_analysis_spec.specs.Earlier.{WellFormedModulesPointBackwards};
ghost use Rattle.shader_analysis_spec.specs.FaultLaws.{DerivedTypesHaveKeys, FaultsAgree, SeveritiesAreUnique, TypesAreUnique};
ghost use Rattle.shader_analysis_spec.specs.Stored.{EntryIsExact, NextIsExact, OperandsGiveOrigins};
ghost use Rattle.shader_analysis_spec.specs.Pairs.{LeadingBackComposes};
ghost use Rattle.shader_analysis_spec.specs.Samples.{ArgumentsVary, BranchesKill, EmittedIsNeeded, FallThroughDisrupts};
ghost use Rattle.shader_analysis_spec.specs.Samples.{NamedIsQueried, PairsAreLedBack, WalksPart};

/// States that one step of the analysis is sound and complete for the interprocedural definitions.
pub fn step_is_exact()
    ensures { StepIsExact }
{}

/// States that the step equations of all functions give exactly the interprocedural results.
pub fn summaries_equal_call_paths()
    ensures { SummariesEqualCallPaths }
{}

/// States that the info of one more function leaves the stored infos exact.
pub fn next_is_exact()
    ensures { NextIsExact }
{}

/// States that the info of an entry point is exact.
pub fn entry_is_exact()
    ensures { EntryIsExact }
{}

/// States that each fault by exact infos of the callees is a fault by the interprocedural definitions, and that for each of those there is
/// one by the infos, which differs at most in the source that it names for disrupted flow.
pub fn faults_agree()
    ensures { FaultsAgree }
{}

/// States that a well-formed module refers to earlier functions and expressions only.
pub fn well_formed_modules_point_backwards()
    ensures { WellFormedModulesPointBackwards }
{}

/// States that an expression has at most one type, and none if its typing rule rejects it.
pub fn types_are_unique()
    ensures { TypesAreUnique }
{}

/// States that the key of an expression's type is the key that typing derives from the keys of its operands.
pub fn derived_types_have_keys()
    ensures { DerivedTypesHaveKeys }
{}

/// States that the filters from a leaf outwards give exactly one severity.
pub fn severities_are_unique()
    ensures { SeveritiesAreUnique }
{}

/// States that a resource leads back along a call path by way of its counterpart at any function on that path.
pub fn leading_back_composes()
    ensures { LeadingBackComposes }
{}

/// States that origins recorded operand by operand are those that the operands lead to.
pub fn operands_give_origins()
    ensures { OperandsGiveOrigins }
{}

/// States noninterference of control flow: two walks that choose alike wherever the choice has no origin pass the same undisrupted path
/// points.
pub fn disruption_means_divergence()
    ensures { DisruptionMeansDivergence }
{}

/// States that in an accepted function two such walks pass the same `Emit`s of expressions that need undisrupted flow.
pub fn accepted_walks_agree()
    ensures { AcceptedWalksAgree }
{}

/// States that an exact info decides which expressions have an origin.
pub fn infos_decide()
    ensures { InfosDecide }
{}

/// States that a number represents a set of labels.
pub fn numbers_are_sets()
    ensures { NumbersAreSets }
{}

/// States, by example, that a global that is only named is queried, and that one that is also written is not.
pub fn named_is_queried()
    ensures { NamedIsQueried }
{}

/// States, by example, that an argument varies, and that one that is the same in the whole work group does not.
pub fn arguments_vary()
    ensures { ArgumentsVary }
{}

/// States, by example, that a `Kill` in a branch on a varying condition kills, and that one that every invocation reaches does not.
pub fn branches_kill()
    ensures { BranchesKill }
{}

/// States, by example, that the needs of an expression count if it is emitted, and only then.
pub fn emitted_is_needed()
    ensures { EmittedIsNeeded }
{}

/// States, by example, that an image and a sampler that are passed to a function are sampled.
pub fn pairs_are_led_back()
    ensures { PairsAreLedBack }
{}

/// States, by example, that a case that is fallen into after a return in a varying branch is disrupted, and that without the fall-through
/// it is not.
pub fn fall_through_disrupts()
    ensures { FallThroughDisrupts }
{}

/// States, by example, that two walks that agree on uniform choices may part where flow is disrupted.
pub fn walks_part()
    ensures { WalksPart }
{}
