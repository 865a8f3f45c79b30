//! An application of the law that equal operand types give equal types.
ghost use Rattle.std.specs.Prelude.{◌<◌, ◌≡◌, length, slice_get, All, IfOk, IsOkAnd, IsTrue, Some};
ghost use Rattle.shader_ir.specs.Key.{FitsTypes};
ghost use Rattle.shader_ir.specs.TypeTree.{IsBackward};
ghost use Rattle.shader_resolve.specs.Context.{TypesInRange};
ghost use Rattle.shader_resolve.specs.CongruenceLaws.{HaveEqualKeys};
ghost use Rattle.shader_resolve.specs.Outcome.{ForNothing};

use shader_arena::{Handle, UniqueArena};
use shader_ir::proc::{TypeResolution, compare_types};
use shader_ir::{Expression, Type, mark};
use shader_resolve::laws::equal_operand_types_give_equal_types;
use shader_resolve::{ResolveContext, ResolveError};
use std::alloc::Global;

type Resolved = Result<TypeResolution, ResolveError>;

/// Returns whether two results are the same type, or both are errors.
fn have_equal_keys(
    types: &UniqueArena<Type, mark::Type>,
    first: &Resolved,
    second: &Resolved,
) -> bool
    requires backward { IsBackward types.now }
    requires first_fits { IfOk first.now (FitsTypes types.now) }
    requires second_fits { IfOk second.now (FitsTypes types.now) }
    ensures { HaveEqualKeys types.now ForNothing first.now second.now → IsTrue result }
{
    match (first, second) {
        (Ok(first), Ok(second)) => compare_types(first, second, types),
        (Err(_), Err(_)) => true,
        _ => false,
    }
}

/// Returns whether a load has the same type, or is an error, for both lists of types of expressions. By the law this is always true if the
/// two types of its pointer are the same.
pub fn loads_have_equal_keys<'a>(
    context: &ResolveContext<'a>,
    alloc: Global,
    stored: &'a [TypeResolution],
    others: &'a [TypeResolution],
    pointer: Handle<mark::Expression>,
) -> bool
    requires backward { IsBackward context.now.types }
    requires types { TypesInRange context.now }
    requires fit { All (FitsTypes context.now.types) stored.now }
    requires others_fit { All (FitsTypes context.now.types) others.now }
    requires there { pointer < length stored.now }
    requires others_there { pointer < length others.now }
    ensures { IsTrue result }
{
    let types = context.types;
    if !compare_types(&stored[pointer.index()], &others[pointer.index()], types) {
        return true;
    }
    let load = Expression::Load { pointer };
    let past = |operand: Handle<mark::Expression>| -> Result<&TypeResolution, ResolveError>
        requires { operand < length stored.now }
        ensures { IsOkAnd result (λ reported. slice_get stored.entry.now operand ≡ Some reported.now) }
    { Ok(&stored[operand.index()]) };
    let other = |operand: Handle<mark::Expression>| -> Result<&TypeResolution, ResolveError>
        requires { operand < length others.now }
        ensures { IsOkAnd result (λ reported. slice_get others.entry.now operand ≡ Some reported.now) }
    { Ok(&others[operand.index()]) };
    equal_operand_types_give_equal_types(&past, &other);
    let first = context.resolve(alloc, &load, past);
    let second = context.resolve(alloc, &load, other);
    let congruence = have_equal_keys(types, &first, &second);
    drop(load);
    drop(first);
    drop(second);
    congruence
}
