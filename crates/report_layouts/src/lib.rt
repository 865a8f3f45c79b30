//! Structs as WGSL declares them, with the layouts of their members in columns, and drawings of their bytes.
#![tactic(auto)]

mod columns;
mod declarations;
mod drawings;
mod layouts;
mod members;
mod structs;

pub use structs::structs_text;
