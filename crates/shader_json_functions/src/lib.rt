//! Reads a module's functions and entry points from JSON, with their statements.
#![tactic(auto)]

mod code;
mod functions;
mod next;
mod operations;
mod parts;
mod statements;

pub use functions::{EntryPoints, Functions};
pub use next::ReadNext;
pub use parts::Parts;
