//! The types of a function's expressions, stored while a front end builds it.
#![tactic(auto)]

mod error;
pub mod laws;
mod operands;
mod typifier;

pub use error::TypifyError;
pub use typifier::Typifier;
