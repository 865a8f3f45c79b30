//! Analysis results and analysis errors, at naga's path `valid`.

mod analyze;
mod analyzer;
mod copies;
mod module_info;
mod next;
mod validation;

pub use analyze::analyze_module;
pub use module_info::ModuleInfo;
pub use validation::{ValidationError, is_fault, validate};
