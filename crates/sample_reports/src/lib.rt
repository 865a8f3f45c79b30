//! Reports on a module: the analysis results for each function, or the first faulty location.
#![tactic(auto)]

mod building;
pub mod laws;
mod report;

pub use building::report_module;
pub use report::{FaultKind, FunctionReport, LocationReport, ModuleReport};
