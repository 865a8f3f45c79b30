//! The built-in values of naga's IR: their names, those of WGSL, and the numbers of those without a variant.
#![tactic(auto)]

mod laws;
pub mod numbers;
mod table;

pub use table::{built_in_named, flag_named, wgsl_name};
