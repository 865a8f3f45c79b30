//! What a front end stands on while it builds a function: the types of the expressions so far.
pub use shader_typifier::{Typifier, TypifyError};
