//! Diagnostics, with their codes and places, and the head of an answer as JSON.
#![tactic(auto)]

mod body_codes;
mod codes;
mod diagnostic;
mod facts;
mod head;
mod location;
mod members;
mod module_codes;
mod sentences;
mod text;

pub use body_codes::{FlowCode, ResourceCode, TypeCode};
pub use codes::Code;
pub use diagnostic::{Diagnostic, Label, Related, Severity};
pub use facts::{Fact, FactValue, Facts};
pub use head::{VERSION, Verdict, write_head};
pub use location::Location;
pub use members::{OptionalMember, Word};
pub use module_codes::{InputCode, LayoutCode, ModuleCode};
pub use sentences::sentence_of;
pub use text::Text;
