//! A module that is validated.
ghost use Rattle.std.specs.Prelude.{◌≡◌, IfErr, IfOk};
ghost use Rattle.shader_typing.specs.Causes.{settings_of};
ghost use Rattle.shader_typing.specs.Nesting.{NestsWithin};
ghost use Rattle.shader_typing.specs.Validity.{IsReason, IsValidated};
ghost use Rattle.shader_typing.specs.ValidationError.{ValidationError};

use shader_typing::ir::Module;
use shader_typing::valid::{
    Capabilities, MOST_LEVELS, ModuleInfo, ValidationError, ValidationFlags, nests_within, validate,
};
use std::alloc::Global;

/// The reason why a module has no info.
#[derive(Debug, Drop)]
pub enum Invalid {
    /// Its blocks nest too deep to be walked.
    TooDeep,
    /// It isn't well formed, a type has no layout, the analysis refuses it, or an allocation failed.
    Reason(ValidationError),
}

/// Validates a module from any source, and returns what the analysis records of it.
///
/// # Errors
///
/// The reason why it has no info.
pub fn validated(
    alloc: Global,
    module: &Module,
    flags: ValidationFlags,
    capabilities: Capabilities,
) -> Result<ModuleInfo, Invalid>
    ensures valid { IfOk result (IsValidated «module».now (settings_of flags capabilities)) }
    ensures deep { IfErr result (λ invalid. invalid ≡ Invalid.TooDeep →
        ¬ NestsWithin MOST_LEVELS «module».now) }
    ensures reason { IfErr result (λ invalid. (reason : ValidationError) →
        invalid ≡ Invalid.Reason reason →
        IsReason «module».now (settings_of flags capabilities) reason) }
{
    if !nests_within(module, MOST_LEVELS) {
        return Err(Invalid::TooDeep);
    }
    match validate(alloc, module, flags, capabilities) {
        Ok(info) => Ok(info),
        Err(reason) => Err(Invalid::Reason(reason)),
    }
}
