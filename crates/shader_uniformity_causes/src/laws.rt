//! Laws over the definitions, each the contract of a function that does nothing.
ghost use Rattle.shader_uniformity_causes.specs.Chains.{ChainsMayHold, MayHoldsHaveChains};
ghost use Rattle.shader_uniformity_causes.specs.Origins.{SameAreEqual};

/// States that a fact with a chain back to a source may be true in a call.
#[tactic(auto, using(crate::proofs::ChainLemmas::chains_may_hold))]
pub fn chains_may_hold()
    ensures { ChainsMayHold }
{}

/// States that a fact that may be true in a call has a chain back to a source.
#[tactic(auto, using(crate::proofs::ChainLemmas::may_holds_have_chains))]
pub fn may_holds_have_chains()
    ensures { MayHoldsHaveChains }
{}

/// States that the comparison by which `origin_of` finds an implication tells whether two are equal.
#[tactic(auto, using(crate::proofs::OriginLemmas::same_are_equal))]
pub fn same_are_equal()
    ensures { SameAreEqual }
{}
