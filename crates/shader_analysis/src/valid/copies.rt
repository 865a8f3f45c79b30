//! Copies of infos and types, and of errors of `validate`.
ghost use Rattle.std.specs.Prelude.{◌≡◌, IfErr, IfOk};
ghost use Rattle.shader_analysis.specs.Copies.{ReasonHasText, SameInfos, SameValidationError};

use crate::valid::ValidationError;
use shader_info::FunctionInfo;
use shader_ir::proc::TypeResolution;
use std::alloc::{AllocError, Global};

/// Copies infos, in order.
pub fn copy_infos(alloc: Global, infos: &[FunctionInfo]) -> Result<Vec<FunctionInfo>, AllocError>
    ensures { IfOk result (λ copies. SameInfos infos.now copies.items) }
{
    let mut copies = Vec::with_capacity(alloc, infos.len())?;
    for info in infos {
        copies.push(info.copy(alloc)?)?;
    }
    Ok(copies)
}

/// Copies types, in order.
pub fn copy_types(
    alloc: Global,
    types: &[TypeResolution],
) -> Result<Vec<TypeResolution>, AllocError>
    ensures { IfOk result (λ copies. copies.items ≡ types.now) }
{
    let mut copies = Vec::with_capacity(alloc, types.len())?;
    for ty in types {
        copies.push(ty.copy(alloc)?)?;
    }
    Ok(copies)
}

impl ValidationError {
    /// Returns an equal error. Allocates only if the error has a text.
    ///
    /// # Errors
    ///
    /// `AllocError` if allocating the text fails.
    pub fn copy(&self, alloc: Global) -> Result<ValidationError, AllocError>
        ensures copy { IfOk result (SameValidationError self.now) }
        ensures memory { IfErr result (λ _. ReasonHasText self.now) }
    {
        Ok(match self {
            ValidationError::Fault(fault) => ValidationError::Fault(*fault),
            ValidationError::Layout(error) => ValidationError::Layout(*error),
            ValidationError::Analysis(error) => ValidationError::Analysis(error.copy(alloc)?),
            ValidationError::OutOfMemory => ValidationError::OutOfMemory,
        })
    }
}
