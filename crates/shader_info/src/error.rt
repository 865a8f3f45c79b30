//! Errors of the analysis of functions and modules.

use crate::{Capabilities, UniformityRequirements};
use shader_arena::Handle;
use shader_ir::mark;
use shader_resolve::ResolveError;
use std::alloc::{AllocError, AllocFailed};
use thiserror::Error;

/// The cause of non-uniform control flow at a statement: only some of the invocations may reach it.
#[derive(Clone, Copy, Debug, Error)]
pub enum UniformityDisruptor {
    /// A condition or a selector that differs among invocations because this expression does.
    #[error("Expression {0:?} produced non-uniform result, and control flow depends on it")]
    Expression(Handle<mark::Expression>),
    /// An earlier `Return` in non-uniform control flow.
    #[error("There is a Return earlier in the control flow of the function")]
    Return,
    /// An earlier `Kill` in non-uniform control flow, in the function or in a callee.
    #[error("There is a Discard earlier in the entry point across all called functions")]
    Discard,
}

/// The reason why an expression is rejected.
#[derive(Debug, Drop, Error)]
pub enum ExpressionError {
    /// The expression has no type.
    #[error("Resolve")]
    Resolve(ResolveError),
    /// An array of resources is indexed by a value that differs among invocations, without these capabilities of the device.
    #[error("MissingCapabilities")]
    MissingCapabilities(Capabilities),
    /// An image or a sampler comes neither from a global variable nor from an argument.
    #[error("ExpectedGlobalOrArgument")]
    ExpectedGlobalOrArgument,
    /// A binding array of elements other than images and samplers is indexed by value.
    #[error("BindingArrayElement")]
    BindingArrayElement,
}

/// The reason why a function, or a global expression, is rejected.
#[derive(Debug, Drop, Error)]
pub enum FunctionError {
    /// An expression is rejected.
    #[error("Expression")]
    Expression {
        handle: Handle<mark::Expression>,
        source: ExpressionError,
    },
    /// An `Emit` in non-uniform control flow evaluates the expression, which has these requirements.
    #[error("NonUniformControlFlow")]
    NonUniformControlFlow(UniformityRequirements, Handle<mark::Expression>, UniformityDisruptor),
    /// The reference count of the expression overflows a `usize`.
    #[error("CountFull")]
    CountFull(Handle<mark::Expression>),
    /// An allocation failed.
    #[error("OutOfMemory")]
    OutOfMemory,
}

impl<T: Drop> From<AllocFailed<T>> for FunctionError {
    ghost use Rattle.std.specs.Prelude.{◌≡◌};
    ghost use Rattle.shader_info.specs.declared.error.FunctionError.TheVariants.{OutOfMemory};

    ghost from_gives = { λ _ e. e ≡ OutOfMemory };

    fn from(_failed: AllocFailed<T>) -> FunctionError {
        FunctionError::OutOfMemory
    }
}

impl From<AllocError> for FunctionError {
    ghost use Rattle.std.specs.Prelude.{◌≡◌};
    ghost use Rattle.shader_info.specs.declared.error.FunctionError.TheVariants.{OutOfMemory};

    ghost from_gives = { λ _ e. e ≡ OutOfMemory };

    fn from(_error: AllocError) -> FunctionError {
        FunctionError::OutOfMemory
    }
}

/// A location in the analysis of a module.
#[derive(Clone, Copy, Debug)]
pub enum AnalysisLocation {
    /// A global expression.
    ConstExpression(Handle<mark::Expression>),
    /// A function that may be called.
    Function(Handle<mark::Function>),
    /// The entry point at this position in the module's list.
    EntryPoint(usize),
}

/// The reason why the analysis rejects a module, and the location.
#[derive(Debug, Drop, Error)]
#[error("{place:?}: {cause}")]
pub struct AnalysisError {
    pub place: AnalysisLocation,
    pub cause: FunctionError,
}
