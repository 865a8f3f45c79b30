//! Uniform control flow: finds statements that need all invocations together and that only some of them may execute.
#![tactic(auto)]

mod calls;
mod cells;
mod differs;
mod divergence;
mod effects;
mod facts;
mod filters;
mod known;
pub mod laws;
mod leaves;
pub mod places;
pub mod reach;
pub mod rules;
mod traces;
mod verdict;
mod walk;
mod ways;

pub use calls::{CallSite, add_effect, cause_of};
pub use cells::{cell, holds, moment};
pub use divergence::{Uniformity, find_divergence};
pub use facts::{BodyLocation, Fact, Jump, Place, Rule};
pub use filters::is_severe;
pub use traces::{function_at, rules_at, trace};
pub use ways::shortest_trace;
