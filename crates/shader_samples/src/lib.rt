//! Small modules, each with one property that an analysis has to detect.
#![tactic(auto)]

pub mod builders;
mod calls;
mod counting;
mod derivatives;
mod flow;
pub mod laws;
mod naming;
mod sample;

pub use calls::sampling;
pub use counting::counts;
pub use derivatives::{derivative, derivative_off, derivative_uniform, with_derivatives};
pub use flow::{exit, exit_off, no_fall, over_a_float, with_matrix};
pub use naming::{named, stored};
pub use sample::Sample;
