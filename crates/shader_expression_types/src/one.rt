//! The type of one expression, given those of the expressions before it.
ghost use Rattle.std.specs.Prelude.{◌≡◌, ◌<◌, All, List, Some, IfOk, IsOkAnd, length, slice_get};
ghost use Rattle.shader_analysis_spec.specs.Program.{Expression};
ghost use Rattle.shader_expression_types.specs.Typed.{AreOfTheFirst, IsResultOf};
ghost use Rattle.shader_ir.specs.Key.{FitsTypes};
ghost use Rattle.shader_ir.specs.TypeTree.{IsBackward};
ghost use Rattle.shader_passes.specs.Records.{types_in};
ghost use Rattle.shader_resolve.specs.Context.{IsInRange, TypesInRange};
ghost use Rattle.shader_resolve.specs.DerivesByRule.{memory_of};
ghost use Rattle.shader_resolve.specs.Stored.{IsOutcomeOf};
ghost use Rattle.shader_resolve.specs.TypingRules.{typing_rule};
ghost use Rattle.shader_resolve.specs.WellFormed.{OperandsBelow};

use crate::bindings::type_in;
use shader_arena::Handle;
use shader_info::ExpressionInfo;
use shader_ir::proc::TypeResolution;
use shader_ir::{Expression, mark};
use shader_resolve::{ResolveContext, ResolveError};
use std::alloc::Global;

/// Computes the type of the expression whose position is the length of `types`, given the types of the expressions before it. The
/// expression may belong to a function or be a global one.
///
/// # Errors
///
/// The refusal by the expression's typing rule, or an allocation failure of a rule that allocates.
pub fn type_of<'a>(
    alloc: Global,
    context: &ResolveContext<'a>,
    types: &'a [TypeResolution],
    expression: &Expression,
) -> Result<TypeResolution, ResolveError>
    requires backward { IsBackward context.now.types }
    requires names { IsInRange context.now expression.now }
    requires operands { OperandsBelow (length types.now) expression.now }
    requires fit { All (FitsTypes context.now.types) types.now }
    ensures reported { (expressions : List Expression) → slice_get expressions (length types.now) ≡ Some expression.now →
        AreOfTheFirst context.now expressions types.now → IsResultOf context.now expressions (length types.now)
        (memory_of expression.now) result }
    ensures by_rule { IsOutcomeOf types.now (memory_of expression.now) (typing_rule context.now expression.now) result }
    ensures fits { TypesInRange context.now → IfOk result (λ resolution. FitsTypes context.now.types resolution) }
{
    context.resolve(
        alloc,
        expression,
        |operand: Handle<mark::Expression>| -> Result<&TypeResolution, ResolveError>
            requires { operand < length types.now }
            ensures { IsOkAnd result (λ reported. slice_get types.entry.now operand ≡ Some reported.now) }
        { Ok(&types[operand.index()]) },
    )
}

/// Computes the type of the expression whose position is the length of `records`, given those that the records of the expressions before it
/// hold.
///
/// # Errors
///
/// Those of `type_of`.
#[inline(always)]
pub fn type_beside<'a>(
    alloc: Global,
    resolve_context: &ResolveContext<'a>,
    records: &'a [ExpressionInfo],
    expression: &Expression,
) -> Result<TypeResolution, ResolveError>
    requires backward { IsBackward resolve_context.now.types }
    requires names { IsInRange resolve_context.now expression.now }
    requires operands { OperandsBelow (length records.now) expression.now }
    requires fit { All (FitsTypes resolve_context.now.types) (types_in records.now) }
    ensures reported { (expressions : List Expression) → slice_get expressions (length records.now) ≡ Some expression.now →
        AreOfTheFirst resolve_context.now expressions (types_in records.now) →
        IsResultOf resolve_context.now expressions (length records.now) (memory_of expression.now) result }
    ensures fits { TypesInRange resolve_context.now → IfOk result (λ resolution. FitsTypes resolve_context.now.types resolution) }
{
    resolve_context.resolve(
        alloc,
        expression,
        |operand: Handle<mark::Expression>| -> Result<&TypeResolution, ResolveError>
            requires { operand < length records.now }
            ensures { IsOkAnd result (λ reported. slice_get (types_in records.entry.now) operand ≡ Some reported.now) }
        { Ok(type_in(records, operand)) },
    )
}
