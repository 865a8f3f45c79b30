//! Reads a module's expressions from JSON.
#![tactic(auto)]

mod code;
mod expression_parts;
mod expressions;
mod floats;
mod literal;
mod operators;
mod variants;

pub use expression_parts::Tile;
pub use expressions::{Expressions, read_expression};
