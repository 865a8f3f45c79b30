//! The type of every expression, and well-formedness of modules.
#![tactic(auto)]

mod context;
mod error;
pub mod laws;
mod resolve;
mod well_formed;

pub use context::ResolveContext;
pub use error::ResolveError;
pub use well_formed::{
    FaultAt, FaultAtReport, MOST_LEVELS, ModuleFault, ModuleFaultReport, ModuleLocation,
    check_module, find_fault, nests_within,
};
