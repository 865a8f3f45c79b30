//! The analysis of functions and modules, as naga's `valid`: it records of each function what is proved by the specification over all
//! call paths, or returns the first fault.
#![tactic(auto)]

mod valid;

pub use valid::{ModuleInfo, ValidationError, analyze_module, is_fault, validate};
