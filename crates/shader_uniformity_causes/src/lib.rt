//! Causes of violated needs of uniform control flow: chains of implications through callers, back to a source.
#![tactic(auto)]

mod callers;
mod causes;
mod chains;
pub mod laws;
mod origins;
mod ways;

pub use callers::find_callers;
pub use causes::{Cause, PassedBy};
pub use chains::{causes_of, find_causes};
pub use origins::{Origin, origin_of};
