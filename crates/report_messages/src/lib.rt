//! What is said of errors: messages that name both sides, labels, notes and help.
#![tactic(auto)]

mod absent;
mod access;
mod expression_fields;
mod faults;
mod item_fields;
mod layouts;
mod lists;
mod missing;
mod no_overload;
mod operands;
mod operations;
mod overloads;
mod phrases;
mod resources;
mod search;
mod shown;
mod statement_fields;
mod typed;
mod untyped;
mod wording;

pub use faults::fault_wording;
pub use layouts::layout_wording;
pub use resources::{Misuse, resource_wording};
pub use shown::{expression_text, line_text, result_text};
pub use untyped::type_wording;
pub use wording::Wording;
