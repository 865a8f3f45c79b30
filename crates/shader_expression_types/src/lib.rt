//! The records of a function's expressions, with their types, and the errors found while they are computed.
#![tactic(auto)]

mod bindings;
mod one;
mod recording;

pub use one::type_of;
pub use recording::{record_expressions, untyped};
