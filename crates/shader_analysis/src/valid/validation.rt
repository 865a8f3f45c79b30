//! Validation of a module: whether it is well formed, has a layout for each type, and passes the analysis.
ghost use Rattle.std.specs.Prelude.{◌≡◌, ◌≢◌, IfErr, IfOk, IsTrue, OnOk, false};
ghost use Rattle.shader_analysis.specs.Validity.{IsLaidOut, IsReason, IsValidated};
ghost use Rattle.shader_analysis_spec.specs.Faults.{Settings};
ghost use Rattle.shader_info.specs.declared.error.FunctionError.TheVariants.{OutOfMemory};
ghost use Rattle.shader_passes.specs.Causes.{settings_of};
ghost use Rattle.shader_resolve.specs.WellFormed.{IsWellFormed};

use crate::valid::{ModuleInfo, analyze_module};
use shader_info::{AnalysisError, Capabilities, FunctionError, ValidationFlags};
use shader_ir::Module;
use shader_ir::proc::{LayoutError, Layouter, UpdateError};
use shader_resolve::{ModuleFault, check_module};
use std::alloc::{AllocError, AllocFailed, Global};
use thiserror::Error;

/// The reason why a module isn't valid.
#[derive(Debug, Drop, Error)]
pub enum ValidationError {
    /// The module isn't well formed.
    #[error("{0}")]
    Fault(ModuleFault),
    /// A type has no layout.
    #[error("{0}")]
    Layout(LayoutError),
    /// The analysis refuses a global expression, a function or an entry point.
    #[error("{0}")]
    Analysis(AnalysisError),
    /// An allocation failed.
    #[error("Out of memory")]
    OutOfMemory,
}

impl From<AllocError> for ValidationError {
    ghost use Rattle.std.specs.Prelude.{◌≡◌};
    ghost use Rattle.shader_analysis.specs.declared.valid.validation.ValidationError.TheVariants.{OutOfMemory};

    ghost from_gives = { λ _ error. error ≡ OutOfMemory };

    fn from(_error: AllocError) -> ValidationError {
        ValidationError::OutOfMemory
    }
}

impl<T: Drop> From<AllocFailed<T>> for ValidationError {
    ghost use Rattle.std.specs.Prelude.{◌≡◌};
    ghost use Rattle.shader_analysis.specs.declared.valid.validation.ValidationError.TheVariants.{OutOfMemory};

    ghost from_gives = { λ _ error. error ≡ OutOfMemory };

    fn from(_failed: AllocFailed<T>) -> ValidationError {
        ValidationError::OutOfMemory
    }
}

/// Checks that all types have a layout.
fn lay_out(alloc: Global, module: &Module) -> Result<(), ValidationError>
    requires { IsWellFormed «module».now }
    ensures laid_out { OnOk result (IsLaidOut «module».now) }
    ensures refused { IfErr result (λ error. (settings : Settings) → IsReason «module».now settings error) }
{
    let mut layouts = Layouter::new(alloc);
    match layouts.update(module.to_ctx()) {
        Ok(()) => Ok(()),
        Err(UpdateError::Layout(error)) => Err(ValidationError::Layout(error)),
        Err(UpdateError::OutOfMemory) => Err(ValidationError::OutOfMemory),
    }
}

/// Returns whether the analysis refused a function for a fault, and not for an allocation failure.
pub fn is_fault(cause: &FunctionError) -> bool
    ensures fault { IsTrue result → cause.now ≢ OutOfMemory }
    ensures memory { (result ≡ false) → cause.now ≡ OutOfMemory }
{
    match cause {
        FunctionError::Expression { .. } => true,
        FunctionError::NonUniformControlFlow(..) => true,
        FunctionError::CountFull(_) => true,
        FunctionError::OutOfMemory => false,
    }
}

/// Validates a module, as naga's `Validator::validate`: checks that it is well formed, that each type has a layout, and analyses it.
///
/// Assumes nothing of the module's handles. The check and the analysis recurse along nested blocks, so call `nests_within` first on a
/// module from outside.
///
/// # Errors
///
/// The reason why the module isn't valid, the first of the three that occurs: a violation of well-formedness, the first type without a
/// layout, or a fault of the first faulty location. Or an allocation failure, before any type without a layout or any faulty location.
pub fn validate(
    alloc: Global,
    module: &Module,
    flags: ValidationFlags,
    capabilities: Capabilities,
) -> Result<ModuleInfo, ValidationError>
    ensures valid { IfOk result (IsValidated «module».now (settings_of flags capabilities)) }
    ensures refused { IfErr result (IsReason «module».now (settings_of flags capabilities)) }
{
    if let Err(fault) = check_module(module) {
        return Err(ValidationError::Fault(fault));
    }
    lay_out(alloc, module)?;
    let error = match analyze_module(alloc, module, flags, capabilities) {
        Ok(info) => return Ok(info),
        Err(error) => error,
    };
    if is_fault(&error.cause) {
        Err(ValidationError::Analysis(error))
    } else {
        Err(ValidationError::OutOfMemory)
    }
}
