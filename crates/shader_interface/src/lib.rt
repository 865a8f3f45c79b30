//! Looks up in a module's JSON, by handle, its declarations to the host and to other stages that the IR leaves out: groups and bindings,
//! ids of overrides, work group sizes, and the bindings of arguments, results and members.
#![tactic(auto)]

mod binding;
mod bound;
mod interface;
mod values;
mod workgroup;

pub use binding::Binding;
pub use bound::{AttributesText, ResourceBinding};
pub use interface::Interface;
pub use workgroup::{AxisSize, WorkgroupSize};
