//! Copies of errors.
ghost use Rattle.std.specs.Prelude.{IfErr, IfOk};
ghost use Rattle.shader_info.specs.Copies.{ExpressionHasText, HasText, SameAnalysisError, SameExpressionError, SameFunctionError};

use crate::{AnalysisError, ExpressionError, FunctionError};
use std::alloc::{AllocError, Global};

impl ExpressionError {
    /// Returns an equal error. Allocates only if the error has a text.
    ///
    /// # Errors
    ///
    /// `AllocError` if allocating the text fails.
    pub fn copy(&self, alloc: Global) -> Result<ExpressionError, AllocError>
        ensures copy { IfOk result (SameExpressionError self.now) }
        ensures memory { IfErr result (λ _. ExpressionHasText self.now) }
    {
        Ok(match self {
            ExpressionError::Resolve(failure) => ExpressionError::Resolve(failure.copy(alloc)?),
            ExpressionError::MissingCapabilities(capabilities) => {
                ExpressionError::MissingCapabilities(*capabilities)
            }
            ExpressionError::ExpectedGlobalOrArgument => ExpressionError::ExpectedGlobalOrArgument,
            ExpressionError::BindingArrayElement => ExpressionError::BindingArrayElement,
        })
    }
}

impl FunctionError {
    /// Returns an equal error. Allocates only if the error has a text.
    ///
    /// # Errors
    ///
    /// `AllocError` if allocating the text fails.
    pub fn copy(&self, alloc: Global) -> Result<FunctionError, AllocError>
        ensures copy { IfOk result (SameFunctionError self.now) }
        ensures memory { IfErr result (λ _. HasText self.now) }
    {
        Ok(match self {
            FunctionError::Expression { handle, source } => FunctionError::Expression {
                handle: *handle,
                source: source.copy(alloc)?,
            },
            FunctionError::NonUniformControlFlow(requirements, expression, disruptor) => {
                FunctionError::NonUniformControlFlow(*requirements, *expression, *disruptor)
            }
            FunctionError::CountFull(expression) => FunctionError::CountFull(*expression),
            FunctionError::OutOfMemory => FunctionError::OutOfMemory,
        })
    }
}

impl AnalysisError {
    /// Returns an equal error. Allocates only if the cause has a text.
    ///
    /// # Errors
    ///
    /// `AllocError` if allocating the text fails.
    pub fn copy(&self, alloc: Global) -> Result<AnalysisError, AllocError>
        ensures copy { IfOk result (SameAnalysisError self.now) }
        ensures memory { IfErr result (λ _. HasText self.now.cause) }
    {
        Ok(AnalysisError {
            place: self.place,
            cause: self.cause.copy(alloc)?,
        })
    }
}
