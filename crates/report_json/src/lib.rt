//! Values that are written as JSON, each by its tokens, in the shape that serde's derives give naga's.
#![tactic(auto)]

mod flags;
mod functions;
mod infos;
mod layouts;
mod members;
mod names;
mod refusals;
mod types;
mod values;
mod write_json;

pub use functions::FunctionAnswer;
pub use infos::{ResourceKey, resource_key};
pub use members::{Member, WriteMembers, write_fields, write_object};
pub use write_json::{Array, WriteJson, write_list, write_variant};
