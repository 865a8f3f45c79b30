//! Why a call of a built-in function is refused.
ghost use Rattle.std.specs.Prelude.{◌≡◌, ◌≢◌, ◌<◌, ◌+◌, [], None, Some, All, IfOk, length, take};
ghost use Rattle.shader_typing.specs.OverloadsCounts.{arguments_at};
ghost use Rattle.shader_typing.specs.TypeTree.{IsBackward, PointsBelow};
ghost use Rattle.shader_uses.specs.Refused.{overloads_for};

use shader_typing::ir::{MathFunction, Module, TypeInner};
use shader_typing::proc::{MathOverloads, OverloadSet, TypeResolution};
use std::alloc::{AllocError, Global};

/// Why no overload accepts a call.
#[derive(Debug, Drop)]
pub struct Refusal {
    /// The first argument at which no overload is left.
    pub argument: usize,
    /// The types that the overloads take there that accept the arguments before it.
    pub allowed: Vec<TypeResolution>,
}

/// Explains why no overload of a built-in function accepts arguments of these types. `None` if one
/// does.
///
/// # Errors
///
/// `AllocError` if memory can't be allocated.
pub fn refusal_of(
    alloc: Global,
    module: &Module,
    function: MathFunction,
    arguments: &[TypeInner],
) -> Result<Option<Refusal>, AllocError>
    requires backward { IsBackward «module».now.types }
    requires in_range { All (PointsBelow (length «module».now.types)) arguments.now }
    ensures accepted { IfOk result (λ refusal. refusal ≡ None → 0 < length arguments.now →
        overloads_for «module».now.types function arguments.now ≢ []) }
    ensures refused { IfOk result (λ refusal. (why : Refusal) → refusal ≡ Some why →
        overloads_for «module».now.types function (take (why.argument + 1) arguments.now) ≡ []) }
    ensures allowed { IfOk result (λ refusal. (why : Refusal) → refusal ≡ Some why →
        why.allowed.items ≡ arguments_at why.argument
        (overloads_for «module».now.types function (take why.argument arguments.now))) }
{
    let mut left = function.overloads(alloc)?;
    for (i, argument) in arguments.iter().enumerate() {
        let next = left.arg(alloc, i, argument, &module.types)?;
        if next.is_empty() {
            let allowed = left.allowed_args(alloc, i, module.to_ctx())?;
            return Ok(Some(Refusal {
                argument: i,
                allowed,
            }));
        }
        left = next;
    }
    Ok(None)
}
