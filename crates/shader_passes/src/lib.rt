//! The passes of the analysis over the expressions and the statements of one function: what holds of each expression; one walk for
//! reference counts, calls, control flow and uniformity; the severity of violations; and pairs of image and sampler.
#![tactic(auto)]

pub mod callees;
pub mod counting;
pub mod facts;
pub mod filters;
pub mod flatten;
pub mod flow;
pub mod pairs;
pub mod sources;
pub mod walk;
