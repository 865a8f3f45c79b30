//! Causes, and the calls that pass facts on.

use shader_uniformity::{BodyLocation, Rule};
use shader_uniformity_needs::Pass;

/// A cause of a fact: an implication, in the body of which it is one.
#[derive(Clone, Copy)]
pub struct Cause {
    /// The function or entry point that has the implication.
    pub place: BodyLocation,
    pub rule: Rule,
}

/// A call that passes a fact to the called function.
#[derive(Clone, Copy)]
pub struct PassedBy {
    /// The function or entry point that makes the call.
    pub caller: BodyLocation,
    pub pass: Pass,
}
