//! What naga doesn't have: why a value may differ among invocations, and where flow parts that has to be uniform.
pub use shader_uniformity::{
    BodyLocation, Fact, Jump, Place, Rule, Uniformity, find_divergence, trace,
};
pub use shader_uniformity_trace::{FunctionLocation, Link, Reasons, why_non_uniform};
