//! The report on a module as JSON: its options, its text, and errors of the input. The program `report` and the library for C and Rust use
//! it, so both print the same bytes.
#![tactic(auto)]

pub mod laws;
mod options;
mod policies;
mod progress;
mod reading;
mod reasons;
mod reports;
mod sections;
mod verdict;

pub use options::{BadWord, Flag, FlowCheck, Options};
pub use progress::{Progress, Silent, Stage};
pub use reading::Reading;
pub use reports::{Outcome, Report};
