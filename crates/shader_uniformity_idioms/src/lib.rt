//! Pairs of small functions, one of which is at fault by an implication of uniform control flow and the other isn't; and idioms of
//! shaders. Each law is the contract of a function that does nothing.
#![tactic(auto)]

ghost use Rattle.shader_uniformity_idioms.specs.Examples.{calls, flows, jumps, needs, places, values, AreTold};
ghost use Rattle.shader_uniformity_idioms.specs.Idioms.{AreDecided};

/// States of each pair of entry points on non-uniform values that one is at fault and the other isn't.
pub fn values_are_told()
    ensures { AreTold values }
{}

/// States the same of pairs on memory locations.
pub fn places_are_told()
    ensures { AreTold places }
{}

/// States the same of pairs on divergent control flow.
pub fn flows_are_told()
    ensures { AreTold flows }
{}

/// States the same of pairs on jumps out of blocks.
pub fn jumps_are_told()
    ensures { AreTold jumps }
{}

/// States the same of pairs on calls.
pub fn calls_are_told()
    ensures { AreTold calls }
{}

/// States the same of pairs on needs of uniform control flow, and on filters.
pub fn needs_are_told()
    ensures { AreTold needs }
{}

/// States which of the seventeen idioms are at fault.
pub fn idioms_are_decided()
    ensures { AreDecided }
{}
