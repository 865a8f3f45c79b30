//! Whether the control flow of a module is uniform wherever it has to be.
ghost use Rattle.std.specs.Prelude.{IfOk, List};
ghost use Rattle.shader_typing.specs.Fault.{AreAllKnown, IsVerdict};
ghost use Rattle.shader_typing.specs.UniformityRule.{Rule};

use shader_typing::ir::Module;
use shader_typing::uniformity::{BodyLocation, find_divergence};
use std::alloc::{AllocError, Global};

/// Returns the first function or entry point in which only some invocations may reach an operation
/// that needs all of them, such as a barrier or a derivative. `None` if there is none.
///
/// # Errors
///
/// `AllocError` if memory can't be allocated, or a function has 2^32 statements.
pub fn first_divergence(alloc: Global, module: &Module) -> Result<Option<BodyLocation>, AllocError>
    ensures { IfOk result (λ first. (known : List (List Rule)) ×
        AreAllKnown «module».now known × IsVerdict «module».now known first) }
{
    let uniformity = find_divergence(alloc, module)?;
    let fault = uniformity.fault;
    drop(uniformity);
    Ok(fault)
}
