//! What is wrong with an input that is no module: its diagnostic, and the answer as JSON. Also where the JSON of a module is at fault.
#![tactic(auto)]

mod codes;
mod diagnostic;
mod equal_types;
mod errors;
mod finds;
mod forms;
mod labels;
mod messages;
mod module_places;
mod names;
mod places;
mod spans;
mod steps;
mod walks;

pub use diagnostic::{diagnostic_of, nesting_diagnostic};
pub use errors::{error_object, nesting_object};
pub use module_places::located;
