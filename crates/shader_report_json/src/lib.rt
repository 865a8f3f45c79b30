//! The report on a module as JSON, in the shape that serde's derives give naga's results.
#![tactic(auto)]

mod answer;
mod sorted;

pub use answer::write_module;
