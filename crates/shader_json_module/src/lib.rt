//! Reads shader modules from JSON in the shape that serde's derives give naga's modules.
#![tactic(auto)]

mod laws;
mod module;
mod parts;

pub use laws::text_determines_module;
pub use module::{parse_bytes, read_module, read_value};
pub use parts::{ModuleParts, read_parts};
pub use shader_json_reader::{MOST_BYTES, ReadError, Wanted};
