//! The diagnostics of a module: what is wrong with it, by what is found of it.
#![tactic(auto)]

mod advice;
mod bodies;
mod call_help;
mod changes;
mod collect;
mod effects;
mod flow;
mod help;
mod indexes;
mod leaving;
mod messages;
mod module_faults;
mod owners;
mod point_help;
mod reasons;
mod refusals;
mod related;
mod results;
mod roots;
mod said;
mod sites;
mod steady;
mod stores;
mod words;

pub use collect::diagnostics_of;
pub use results::{causes_of_result, source_of_result};
