//! The types of a function that a front end builds.
ghost use Rattle.std.specs.Prelude.{◌<◌, ◌≤◌, ◌+◌, All, IfOk, length};
ghost use Rattle.shader_typing.specs.ArenaPositions.{most_items};
ghost use Rattle.shader_typing.specs.Grown.{Grows};
ghost use Rattle.shader_typing.specs.Key.{FitsTypes};
ghost use Rattle.shader_typing.specs.TypeTree.{IsBackward};

use shader_typing::arena::{Arena, Handle};
use shader_typing::front::{Typifier, TypifyError};
use shader_typing::ir::{BinaryOperator, Expression, Literal, Module, Scalar, mark};
use shader_typing::proc::{ResolveContext, ResolveError};
use std::alloc::Global;

/// Appends an expression to a function under construction, and stores its type.
///
/// # Errors
///
/// The reason why it has none; the expression then stays in the function.
pub fn append(
    alloc: Global,
    context: &ResolveContext<'_>,
    expressions: &mut Arena<Expression, mark::Expression>,
    types: &mut Typifier,
    expression: Expression,
) -> Result<Handle<mark::Expression>, TypifyError>
    requires backward { IsBackward context.now.types }
    requires fit { All (FitsTypes context.now.types) types.old }
    requires room { length expressions.old < most_items }
    ensures typed { IfOk result (λ e. e < length types.new) }
    ensures fit { All (FitsTypes context.now.types) types.new }
    ensures grown { Grows context.now expressions.new types.old types.new }
    ensures added { length expressions.new ≤ length expressions.old + 1 }
{
    let handle = match expressions.append(expression) {
        Ok(handle) => handle,
        Err(_) => return Err(TypifyError::Resolve(ResolveError::OutOfMemory)),
    };
    types.grow(alloc, handle, expressions, context)?;
    Ok(handle)
}

/// Returns the scalar of `a + 1u`, if that is a scalar. `a` is the zero value of a type.
///
/// # Errors
///
/// The reason why an expression has no type.
pub fn scalar_of_sum(
    alloc: Global,
    module: &Module,
    ty: Handle<mark::Type>,
) -> Result<Option<Scalar>, TypifyError>
    requires { IsBackward «module».now.types }
{
    let locals = Arena::new(alloc);
    let context = ResolveContext::with_locals(module, &locals, &[]);
    let mut expressions = Arena::new(alloc);
    let mut types = Typifier::new(alloc);
    let zero = Expression::ZeroValue(ty);
    let left = append(alloc, &context, &mut expressions, &mut types, zero)?;
    let one = Expression::Literal(Literal::U32(1));
    let right = append(alloc, &context, &mut expressions, &mut types, one)?;
    let op = BinaryOperator::Add;
    let sum = Expression::Binary { op, left, right };
    let sum = append(alloc, &context, &mut expressions, &mut types, sum)?;
    Ok(types.get(sum, &module.types).scalar())
}
