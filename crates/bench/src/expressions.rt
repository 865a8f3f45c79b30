//! Resolution of the types of expressions, one after another.

ghost use Rattle.std.specs.Prelude.{IsTrue};
ghost use Rattle.shader_resolve.specs.Context.{IsInRange};
ghost use Rattle.shader_resolve.specs.DerivesByRule.{AnswerInRange};

use shader_arena::{Arena, Handle, UniqueArena};
use shader_ir::proc::{TypeResolution, types_backward};
use shader_ir::{Expression, Module, Type, mark};
use shader_resolve::{ResolveContext, ResolveError};
use std::alloc::{AllocError, Global};

/// Returns whether the expression names nothing besides its operands, as is true of those built here.
fn names_nothing(context: &ResolveContext<'_>, expr: &Expression) -> bool
    ensures { IsTrue result → IsInRange context.now expr.now }
{
    let _ = context;
    match expr {
        Expression::Literal(_)
        | Expression::Splat { .. }
        | Expression::Binary { .. }
        | Expression::Swizzle { .. }
        | Expression::Select { .. }
        | Expression::AccessIndex { .. }
        | Expression::As { .. }
        | Expression::Relational { .. }
        | Expression::Math { .. } => true,
        _ => false,
    }
}

/// Returns the stored type of an operand.
fn stored_type<'a>(
    types: &UniqueArena<Type, mark::Type>,
    stored: &'a [TypeResolution],
    operand: Handle<mark::Expression>,
) -> Result<&'a TypeResolution, ResolveError>
    ensures { AnswerInRange types.now result }
{
    match stored.get(operand.index()) {
        Some(resolution) => {
            if resolution.is_in_range(types) {
                Ok(resolution)
            } else {
                Err(ResolveError::FunctionReturnsVoid)
            }
        }
        None => Err(ResolveError::FunctionArgumentNotFound(0)),
    }
}

/// Returns the type of the next expression, given the stored types of the expressions before it.
fn resolve_next(
    alloc: Global,
    module: &Module,
    stored: &[TypeResolution],
    expr: &Expression,
) -> Result<TypeResolution, ResolveError> {
    let locals = Arena::new(alloc);
    let context = ResolveContext::with_locals(module, &locals, &[]);
    if !types_backward(context.types) || !names_nothing(&context, expr) {
        return Err(ResolveError::FunctionReturnsVoid);
    }
    let types = context.types;
    context.resolve(
        alloc,
        expr,
        |operand: Handle<mark::Expression>| -> Result<&TypeResolution, ResolveError>
            ensures { AnswerInRange types.entry.now result }
        { stored_type(types, stored, operand) },
    )
}

/// Resolves the types of all expressions, up to the first that has none, and returns how many have one.
fn resolve_each(
    alloc: Global,
    module: &Module,
    expressions: &Arena<Expression, mark::Expression>,
) -> Result<usize, AllocError> {
    let mut stored = Vec::with_capacity(alloc, expressions.len())?;
    for (_, expr) in expressions.iter() {
        match resolve_next(alloc, module, stored.as_slice(), expr) {
            Ok(resolution) => stored.push(resolution)?,
            Err(_) => return Ok(stored.len()),
        }
    }
    Ok(stored.len())
}

/// Resolves the types of a module's functions `rounds` times.
pub fn resolve_all(alloc: Global, module: &Module, rounds: usize) -> Result<usize, AllocError> {
    let mut done = 0usize;
    for _ in 0..rounds {
        for (_, function) in module.functions.iter() {
            let one = resolve_each(alloc, module, &function.expressions)?;
            done = done.wrapping_add(one);
        }
    }
    Ok(done)
}
