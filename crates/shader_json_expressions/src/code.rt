//! A wrapper for reading the components of expressions.

/// A value whose type and whose trait `Read` belong to other crates, so that reading it needs a type of this crate.
#[derive(Clone, Copy)]
pub(crate) struct Code<T>(pub T);
