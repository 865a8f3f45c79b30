//! Errors of typing a function under construction.
ghost use Rattle.std.specs.Prelude.{IfErr, IfOk};
ghost use Rattle.shader_typifier.specs.Copied.{HasText, IsCopyOf};

use shader_resolve::ResolveError;
use std::alloc::{AllocError, AllocFailed, Global};
use thiserror::Error;

/// The reason why an expression is given no type.
#[derive(Debug, PartialEq, Drop, Error)]
pub enum TypifyError {
    /// The expression, or an item that it names, names something out of range: a constant, an override, a type, a variable or a function.
    #[error("Something that the expression names isn't there")]
    HandleOutOfRange,
    /// An operand has no stored type yet.
    #[error("An operand of the expression isn't an earlier one")]
    OperandNotEarlier,
    /// The typing rule rejects the expression, or memory ran out.
    #[error(transparent)]
    Resolve(ResolveError),
}

impl From<AllocError> for TypifyError {
    ghost use Rattle.std.specs.Prelude.{◌≡◌};
    ghost use Rattle.shader_resolve.specs.declared.error.ResolveError.TheVariants.{OutOfMemory};
    ghost use Rattle.shader_typifier.specs.declared.error.TypifyError.TheVariants.{Resolve};

    ghost from_gives = { λ _ error. error ≡ Resolve OutOfMemory };

    fn from(_error: AllocError) -> TypifyError {
        TypifyError::Resolve(ResolveError::OutOfMemory)
    }
}

impl<T: Drop> From<AllocFailed<T>> for TypifyError {
    ghost use Rattle.std.specs.Prelude.{◌≡◌};
    ghost use Rattle.shader_resolve.specs.declared.error.ResolveError.TheVariants.{OutOfMemory};
    ghost use Rattle.shader_typifier.specs.declared.error.TypifyError.TheVariants.{Resolve};

    ghost from_gives = { λ _ error. error ≡ Resolve OutOfMemory };

    fn from(_failed: AllocFailed<T>) -> TypifyError {
        TypifyError::Resolve(ResolveError::OutOfMemory)
    }
}

impl TypifyError {
    /// Returns an equal error with the same text. Allocates only if the error has a text.
    pub fn copy(&self, alloc: Global) -> Result<TypifyError, AllocError>
        ensures copy { IfOk result (IsCopyOf self.now) }
        ensures memory { IfErr result (λ _. HasText self.now) }
    {
        match self {
            TypifyError::HandleOutOfRange => Ok(TypifyError::HandleOutOfRange),
            TypifyError::OperandNotEarlier => Ok(TypifyError::OperandNotEarlier),
            TypifyError::Resolve(failure) => Ok(TypifyError::Resolve(failure.copy(alloc)?)),
        }
    }
}
