//! Errors of lengths.

use shader_ir::ArraySize;
use shader_ir::proc::ResolveArraySizeError;
use thiserror::Error;

/// The reason why a type has no length with which an index could be compared.
#[derive(Clone, Copy, Debug, PartialEq, Eq, Error)]
pub enum IndexableLengthError {
    /// A computed index selects nothing in the type.
    #[error("Type is not indexable, and has no length (validation error)")]
    TypeNotIndexable,
    /// An override sizes the array, and its value isn't a valid size.
    #[error(transparent)]
    ResolveArraySizeError(ResolveArraySizeError),
    /// An override sizes the array, and its value wasn't read.
    #[error("Array size is still pending")]
    Pending(ArraySize),
}

impl From<ResolveArraySizeError> for IndexableLengthError {
    ghost use Rattle.std.specs.Prelude.{◌≡◌};
    ghost use Rattle.shader_bounds.specs.declared.error.IndexableLengthError.TheVariants as refusal;

    ghost from_gives = { λ error built. built ≡ refusal.ResolveArraySizeError error };

    fn from(error: ResolveArraySizeError) -> IndexableLengthError {
        IndexableLengthError::ResolveArraySizeError(error)
    }
}
