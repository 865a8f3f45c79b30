//! The model of a report: what is found of a module, computed once, from which all sections are printed.
#![tactic(auto)]

mod analyzed;

pub use analyzed::{Analysis, Analyzed, Sound, analyze};
