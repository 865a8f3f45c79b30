//! Explanations of non-uniform values: why the value of an expression, or a function's result, may
//! differ among invocations.
#![tactic(auto)]

pub mod laws;
mod link;
mod reasons;
mod trace;
mod why;

pub use link::{FunctionLocation, Link};
pub use why::{Reasons, why_non_uniform};
