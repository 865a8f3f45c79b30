//! Reads the declarations of modules from JSON: types, globals, constants and filters. The trait `Read`, which all readers implement, is
//! here because its implementations for types of the IR have to be in its crate.
#![tactic(auto)]

mod fields;
mod filters;
mod functions;
mod globals;
mod images;
mod interface;
mod maps;
mod names;
mod scalars;
mod special_types;
mod types;
mod values;

pub use fields::{Data, Fields, Variant};
pub use interface::{Interpolation, ResourceBinding, Sampling};
pub use names::{Spelled, named};
pub use values::{Read, read_item};
