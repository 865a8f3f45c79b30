//! Errors of type resolution.
ghost use Rattle.std.specs.Prelude.{◌≡◌, string_bytes, IfErr, IfOk};
ghost use Rattle.shader_resolve.specs.Outcome.{HasWords, refusal_of, words_of};

use shader_arena::Handle;
use shader_ir::mark;
use shader_overloads::MissingSpecialType;
use std::alloc::{AllocError, AllocFailed, Global};
use thiserror::Error;

/// The reason why an expression has no type. Handles are printed as positions in brackets.
#[derive(Debug, PartialEq, Drop, Error)]
pub enum ResolveError {
    /// A constant index is past the components of a vector, the columns of a matrix or the members of a struct, the base `expr`.
    #[error("Index {index} is out of bounds for expression {expr:?}")]
    OutOfBoundsIndex {
        expr: Handle<mark::Expression>,
        index: u32,
    },
    /// An access into a value that has no such components. `indexed` distinguishes `AccessIndex` from `Access`, here and in
    /// `InvalidSubAccess`.
    #[error("Invalid access into expression {expr:?}, indexed: {indexed}")]
    InvalidAccess {
        expr: Handle<mark::Expression>,
        indexed: bool,
    },
    /// An access through a pointer to `ty`, which has no such components.
    #[error("Invalid sub-access into type {ty:?}, indexed: {indexed}")]
    InvalidSubAccess {
        ty: Handle<mark::Type>,
        indexed: bool,
    },
    /// The operand of a `Splat` isn't a scalar.
    #[error("Invalid scalar {0:?}")]
    InvalidScalar(Handle<mark::Expression>),
    /// The operand of a `Swizzle` isn't a vector.
    #[error("Invalid vector {0:?}")]
    InvalidVector(Handle<mark::Expression>),
    /// The operand of a load isn't a pointer, or for a cooperative matrix it points to a type without a scalar.
    #[error("Invalid pointer {0:?}")]
    InvalidPointer(Handle<mark::Expression>),
    /// The operand of a sample, a texel load or a query isn't an image.
    #[error("Invalid image {0:?}")]
    InvalidImage(Handle<mark::Expression>),
    /// A call names an unknown function. For front ends, which look up functions by name; `resolve` never returns it.
    #[error("Function {name} not defined")]
    FunctionNotDefined {
        name: String,
    },
    /// An expression names the result of a function that returns none.
    #[error("Function without return type")]
    FunctionReturnsVoid,
    /// The operands don't fit the operation: the name of the operator or relational function, or `As`.
    #[error("Incompatible operands: {0}")]
    IncompatibleOperands(String),
    /// The function has no argument at the index.
    #[error("Function argument {0} doesn't exist")]
    FunctionArgumentNotFound(u32),
    /// The module hasn't registered the result type of a ray query, of `frexp` or of `modf`.
    #[error("Special type is not registered within the module")]
    MissingSpecialType,
    /// No rule accepts the arguments of the built-in function of this name.
    #[error("Call to builtin {0} has incorrect or ambiguous arguments")]
    BuiltinArgumentsInvalid(String),
    /// An allocation failed.
    #[error("OutOfMemory")]
    OutOfMemory,
}

impl From<AllocError> for ResolveError {
    ghost use Rattle.std.specs.Prelude.{◌≡◌};
    ghost use Rattle.shader_resolve.specs.declared.error.ResolveError.TheVariants.{OutOfMemory};

    ghost from_gives = { λ _ e. e ≡ OutOfMemory };

    fn from(_error: AllocError) -> ResolveError {
        ResolveError::OutOfMemory
    }
}

impl<T: Drop> From<AllocFailed<T>> for ResolveError {
    ghost use Rattle.std.specs.Prelude.{◌≡◌};
    ghost use Rattle.shader_resolve.specs.declared.error.ResolveError.TheVariants.{OutOfMemory};

    ghost from_gives = { λ _ e. e ≡ OutOfMemory };

    fn from(_failed: AllocFailed<T>) -> ResolveError {
        ResolveError::OutOfMemory
    }
}

impl From<MissingSpecialType> for ResolveError {
    ghost use Rattle.std.specs.Prelude.{◌≡◌};
    ghost use Rattle.shader_resolve.specs.declared.error.ResolveError.TheVariants as errors;

    ghost from_gives = { λ _ e. e ≡ errors.MissingSpecialType };

    fn from(_error: MissingSpecialType) -> ResolveError {
        ResolveError::MissingSpecialType
    }
}

/// Copies a text.
fn copy_text(alloc: Global, text: &str) -> Result<String, AllocError>
    ensures { IfOk result (λ copy. string_bytes copy ≡ text.now) }
{
    text.to_string(alloc)
}

impl ResolveError {
    /// Returns an equal error with the same text. Allocates only if the error has a text.
    pub fn copy(&self, alloc: Global) -> Result<ResolveError, AllocError>
        ensures refusal { IfOk result (λ copy. refusal_of copy ≡ refusal_of self.now) }
        ensures words { IfOk result (λ copy. words_of copy ≡ words_of self.now) }
        ensures memory { IfErr result (λ _. HasWords self.now) }
    {
        Ok(match self {
            ResolveError::FunctionNotDefined { name } => ResolveError::FunctionNotDefined {
                name: copy_text(alloc, name.as_str())?,
            },
            ResolveError::IncompatibleOperands(name) => {
                ResolveError::IncompatibleOperands(copy_text(alloc, name.as_str())?)
            }
            ResolveError::BuiltinArgumentsInvalid(name) => {
                ResolveError::BuiltinArgumentsInvalid(copy_text(alloc, name.as_str())?)
            }
            ResolveError::OutOfBoundsIndex { expr, index } => ResolveError::OutOfBoundsIndex {
                expr: *expr,
                index: *index,
            },
            ResolveError::InvalidAccess { expr, indexed } => ResolveError::InvalidAccess {
                expr: *expr,
                indexed: *indexed,
            },
            ResolveError::InvalidSubAccess { ty, indexed } => ResolveError::InvalidSubAccess {
                ty: *ty,
                indexed: *indexed,
            },
            ResolveError::InvalidScalar(expr) => ResolveError::InvalidScalar(*expr),
            ResolveError::InvalidVector(expr) => ResolveError::InvalidVector(*expr),
            ResolveError::InvalidPointer(expr) => ResolveError::InvalidPointer(*expr),
            ResolveError::InvalidImage(expr) => ResolveError::InvalidImage(*expr),
            ResolveError::FunctionReturnsVoid => ResolveError::FunctionReturnsVoid,
            ResolveError::FunctionArgumentNotFound(index) => {
                ResolveError::FunctionArgumentNotFound(*index)
            }
            ResolveError::MissingSpecialType => ResolveError::MissingSpecialType,
            ResolveError::OutOfMemory => ResolveError::OutOfMemory,
        })
    }
}
