//! Checks of expressions.
ghost use Rattle.std.specs.Prelude.{◌≡◌, nat_lt};
ghost use Rattle.shader_resolve.specs.ModuleTests.{check_expression, in_arena, is_below, names_in_range};
ghost use Rattle.shader_resolve.specs.WellFormed.{expression_callee};

use super::operands::expression_operands_below;
use super::{Bounds, ModuleFault};
use shader_arena::{Arena, Handle};
use shader_ir::{Expression, Module, mark};

/// Returns whether a handle is below a bound.
#[inline(always)]
pub fn is_below<T>(handle: Handle<T>, bound: usize) -> bool
    ensures { result ≡ nat_lt handle bound }
{
    handle.index() < bound
}

/// Returns whether a handle, if any, is below a bound.
#[inline(always)]
pub fn is_optional_below<T>(handle: Option<Handle<T>>, bound: usize) -> bool
    ensures { result ≡ is_below bound handle }
{
    match handle {
        Some(handle) => is_below(handle, bound),
        None => true,
    }
}

/// Returns whether everything that an expression names besides its operands is in range.
fn names_in_range(module: &Module, locals: usize, expression: &Expression) -> bool
    ensures { result ≡ names_in_range «module».now locals expression.now }
{
    match expression {
        Expression::Constant(constant) => is_below(*constant, module.constants.len()),
        Expression::Override(override_) => is_below(*override_, module.overrides.len()),
        Expression::ZeroValue(ty)
        | Expression::Compose { ty, .. }
        | Expression::AtomicResult { ty, .. }
        | Expression::WorkGroupUniformLoadResult { ty }
        | Expression::SubgroupOperationResult { ty } => is_below(*ty, module.types.len()),
        Expression::GlobalVariable(variable) => is_below(*variable, module.global_variables.len()),
        Expression::LocalVariable(variable) => is_below(*variable, locals),
        Expression::CallResult(function) => is_below(*function, module.functions.len()),
        Expression::Literal(_)
        | Expression::Access { .. }
        | Expression::AccessIndex { .. }
        | Expression::Splat { .. }
        | Expression::Swizzle { .. }
        | Expression::FunctionArgument(_)
        | Expression::Load { .. }
        | Expression::ImageSample { .. }
        | Expression::ImageLoad { .. }
        | Expression::ImageQuery { .. }
        | Expression::Unary { .. }
        | Expression::Binary { .. }
        | Expression::Select { .. }
        | Expression::Derivative { .. }
        | Expression::Relational { .. }
        | Expression::Math { .. }
        | Expression::As { .. }
        | Expression::ArrayLength(_)
        | Expression::RayQueryVertexPositions { .. }
        | Expression::RayQueryProceedResult
        | Expression::RayQueryGetIntersection { .. }
        | Expression::SubgroupBallotResult
        | Expression::CooperativeLoad { .. }
        | Expression::CooperativeMultiplyAdd { .. } => true,
    }
}

/// Returns the function whose result an expression is.
fn expression_callee(expression: &Expression) -> Option<Handle<mark::Function>>
    ensures { result ≡ expression_callee expression.now }
{
    match expression {
        Expression::CallResult(function) => Some(*function),
        _ => None,
    }
}

/// Returns the first violation of an expression. If its operands are earlier, as is usual, they are visited only once.
#[tactic(auto, using(crate::proofs::BelowLemmas::both_bounds))]
pub fn check_expression(
    module: &Module,
    bounds: Bounds,
    position: usize,
    expression: &Expression,
) -> Result<(), ModuleFault>
    ensures { result ≡ check_expression «module».now bounds position expression.now }
{
    let bound = position.min(bounds.expressions);
    let is_earlier = expression_operands_below(expression, bound);
    if !is_earlier && !expression_operands_below(expression, bounds.expressions) {
        return Err(ModuleFault::HandleOutOfRange);
    }
    if !names_in_range(module, bounds.locals, expression) {
        return Err(ModuleFault::HandleOutOfRange);
    }
    if !is_earlier {
        return Err(ModuleFault::OperandNotEarlier);
    }
    if !is_optional_below(expression_callee(expression), bounds.earlier) {
        return Err(ModuleFault::CalleeNotEarlier);
    }
    Ok(())
}

/// Returns the first violation of expressions within these bounds.
pub fn check_expressions(
    module: &Module,
    bounds: Bounds,
    expressions: &Arena<Expression, mark::Expression>,
) -> Result<(), ModuleFault>
    ensures { result ≡ in_arena (check_expression «module».now bounds) expressions.now }
{
    for (handle, expression) in expressions.iter() {
        check_expression(module, bounds, handle.index(), expression)?;
    }
    Ok(())
}
