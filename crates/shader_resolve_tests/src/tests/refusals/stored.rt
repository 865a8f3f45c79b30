//! Types of expressions whose operands' types are stored in a list.
ghost use Rattle.shader_resolve.specs.DerivesByRule.{AnswerInRange};

use shader_arena::{Handle, UniqueArena};
use shader_ir::proc::{TypeResolution, types_backward};
use shader_ir::{Expression, Type, mark};
use shader_resolve::{ResolveContext, ResolveError};
use std::alloc::Global;

/// Returns the stored type of an operand, if it is a type of the module or is built only of those.
fn stored_type<'a>(
    types: &UniqueArena<Type, mark::Type>,
    stored: &'a [TypeResolution],
    operand: Handle<mark::Expression>,
) -> Result<&'a TypeResolution, ResolveError>
    ensures { AnswerInRange types.now result }
{
    match stored.get(operand.index()) {
        Some(resolution) => {
            if resolution.is_in_range(types) {
                Ok(resolution)
            } else {
                Err(ResolveError::FunctionReturnsVoid)
            }
        }
        None => Err(ResolveError::FunctionArgumentNotFound(0)),
    }
}

/// Returns the type of an expression whose operands are positions in `stored`, and `None` where it names something out of range.
pub fn resolve_stored<'a>(
    context: &ResolveContext<'a>,
    alloc: Global,
    stored: &'a [TypeResolution],
    expr: &Expression,
) -> Option<Result<TypeResolution, ResolveError>> {
    if !types_backward(context.types) || !context.names_in_range(expr) {
        return None;
    }
    let types = context.types;
    let resolved = context.resolve(
        alloc,
        expr,
        |operand: Handle<mark::Expression>| -> Result<&TypeResolution, ResolveError>
            ensures { AnswerInRange types.entry.now result }
        { stored_type(types, stored, operand) },
    );
    Some(resolved)
}
