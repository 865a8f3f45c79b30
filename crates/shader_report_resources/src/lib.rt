//! Prints the resources of a module, for reflection, as JSON and as text output: its declarations to the host and to other stages, the
//! layouts of its types, and which globals each entry point uses, and how, at any depth of calls.
#![tactic(auto)]

mod builtins;
mod declared_lines;
mod entries;
mod entry_lines;
mod formats;
mod interfaces;
mod listed;
mod resources;
mod spaces;
mod tables;
mod value_lines;
mod words;
mod written;

pub use resources::{resources_lines, write_resources};
