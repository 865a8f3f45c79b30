//! Known indexes of expressions.
ghost use Rattle.std.specs.Prelude.{◌≡◌};
ghost use Rattle.shader_ir.specs.KnownNumbers.{initial_index};
ghost use Rattle.shader_bounds.specs.Indexes.{constant_at, known_index_among, override_at};

use shader_arena::{Arena, Handle};
use shader_ir::proc::KnownIndex;
use shader_ir::{Expression, Module, mark};

/// Returns the index given by the literal at the handle.
fn initial_index(
    expressions: &Arena<Expression, mark::Expression>,
    expression: Handle<mark::Expression>,
) -> KnownIndex
    ensures { result ≡ initial_index expressions.now expression }
{
    if !expressions.contains_handle(expression) {
        return KnownIndex::NotInteger;
    }
    match &expressions[expression] {
        Expression::Literal(literal) => literal.index(),
        _ => KnownIndex::NotInteger,
    }
}

/// Returns the index given by the literal value of a constant.
fn constant_at(module: &Module, constant: Handle<mark::Constant>) -> KnownIndex
    ensures { result ≡ constant_at «module».now constant }
{
    if module.constants.contains_handle(constant) {
        initial_index(&module.global_expressions, module.constants[constant].init)
    } else {
        KnownIndex::NotInteger
    }
}

/// Returns the index given by the literal value of an override.
fn override_at(module: &Module, handle: Handle<mark::Override>) -> KnownIndex
    ensures { result ≡ override_at «module».now handle }
{
    if !module.overrides.contains_handle(handle) {
        return KnownIndex::NotInteger;
    }
    match module.overrides[handle].init {
        Some(init) => initial_index(&module.global_expressions, init),
        None => KnownIndex::NotInteger,
    }
}

/// Returns the known index of one of the expressions, looking through at most one constant or override.
///
/// The expressions may be those of a function; the values of constants and overrides are among the module's global expressions. If a handle
/// is out of range nothing is known.
pub fn known_index_among(
    expressions: &Arena<Expression, mark::Expression>,
    expression: Handle<mark::Expression>,
    module: &Module,
) -> KnownIndex
    ensures { result ≡ known_index_among «module».now expressions.now expression }
{
    if !expressions.contains_handle(expression) {
        return KnownIndex::NotInteger;
    }
    match &expressions[expression] {
        Expression::Literal(literal) => literal.index(),
        Expression::Constant(constant) => constant_at(module, *constant),
        Expression::Override(handle) => override_at(module, *handle),
        _ => KnownIndex::NotInteger,
    }
}
