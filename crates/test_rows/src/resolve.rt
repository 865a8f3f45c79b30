//! Questions about types of expressions: `resolve R..`, where an R is `h3`, type 3 of the module by its handle, or `v3`, the equal type
//! outside the arena. It tells
//!
//! - of the first R whether it fits the types, its handle, whether a copy is equal, its type and its length;
//! - whether the first two are equal, and whether they compare as equal;
//! - the type of expression 0 of function 0 if R.. are the types of its operands, or the reason why it has none. An operand past the list
//!   is rejected as a missing argument 0.
ghost use Rattle.shader_resolve.specs.DerivesByRule.{AnswerInRange};

use crate::lengths::tell_length;
use crate::told::Told;
use crate::words::Words;
use shader_arena::{Handle, UniqueArena};
use shader_bounds::base_length;
use shader_ir::proc::{TypeResolution, compare_types, types_backward};
use shader_ir::{Expression, Module, Type, mark};
use shader_resolve::{ResolveContext, ResolveError};
use std::alloc::{AllocError, Global};

/// The types of a module.
type Types = UniqueArena<Type, mark::Type>;

/// Returns the type at a handle as a value, if it is in range.
fn value_at(
    alloc: Global,
    handle: Handle<mark::Type>,
    types: &Types,
) -> Result<Option<TypeResolution>, AllocError> {
    match types.try_get(handle) {
        Some(ty) => match ty.inner.copy(alloc) {
            Ok(inner) => Ok(Some(TypeResolution::Value(inner))),
            Err(AllocError) => Err(AllocError),
        },
        None => Ok(None),
    }
}

/// Returns the type that a word spells: a handle, which may be out of range, or a value.
fn type_from_word(
    alloc: Global,
    word: &str,
    types: &Types,
) -> Result<Option<TypeResolution>, AllocError> {
    let Some((kind, number)) = word.split_at_checked(1) else {
        return Ok(None);
    };
    let Ok(number) = number.parse::<u32>() else {
        return Ok(None);
    };
    match kind {
        "h" => Ok(Some(TypeResolution::Handle(Handle::from_index(number)))),
        "v" => value_at(alloc, Handle::from_index(number), types),
        _ => Ok(None),
    }
}

/// Tells of the type of the first operand.
fn tell_first(told: &mut Told, alloc: Global, first: &TypeResolution, module: &Module) {
    told.show("fits", first.fits(&module.types));
    told.show("handle", first.handle());
    tell_length(told, "length", &base_length(first, module));
    if first.fits(&module.types) {
        told.show("inner", first.inner_with(&module.types));
    }
    match first.copy(alloc) {
        Ok(copy) => told.show("copy", copy == *first),
        Err(AllocError) => told.fail(),
    }
}

/// Tells how the types of the first two operands are related.
fn tell_two(told: &mut Told, first: &TypeResolution, second: &TypeResolution, types: &Types) {
    told.show("equal", first == second);
    if types_backward(types) && first.fits(types) && second.fits(types) {
        told.show("compare", compare_types(first, second, types));
    }
}

/// Returns the type of an operand. An operand without one is rejected as a missing argument 0.
fn type_of_operand<'a>(
    types: &Types,
    operands: &'a [TypeResolution],
    operand: Handle<mark::Expression>,
) -> Result<&'a TypeResolution, ResolveError>
    ensures { AnswerInRange types.now result }
{
    match operands.get(operand.index()) {
        Some(resolution) => {
            if resolution.is_in_range(types) {
                Ok(resolution)
            } else {
                Err(ResolveError::FunctionReturnsVoid)
            }
        }
        None => Err(ResolveError::FunctionArgumentNotFound(0)),
    }
}

/// Tells the type of an expression of a function.
fn tell_type(
    told: &mut Told,
    alloc: Global,
    context: &ResolveContext<'_>,
    expression: &Expression,
    operands: &[TypeResolution],
) {
    let types = context.types;
    if !types_backward(types) || !context.names_in_range(expression) {
        return;
    }
    let resolved = context.resolve(
        alloc,
        expression,
        |operand: Handle<mark::Expression>| -> Result<&TypeResolution, ResolveError>
            ensures { AnswerInRange types.entry.now result }
        { type_of_operand(types, operands, operand) },
    );
    match resolved {
        Ok(resolution) => told.show("type", resolution),
        Err(ResolveError::OutOfMemory) => told.fail(),
        Err(error) => tell_refusal(told, alloc, error),
    }
}

/// Tells why an expression has no type, from a copy of the error.
fn tell_refusal(told: &mut Told, alloc: Global, error: ResolveError) {
    match error.copy(alloc) {
        Ok(copy) => {
            told.show("copied", copy == error);
            told.say("refused", &copy);
            drop(copy);
        }
        Err(AllocError) => told.fail(),
    }
}

/// Tells the type of expression 0 of function 0.
fn tell_resolved(told: &mut Told, alloc: Global, operands: &[TypeResolution], module: &Module) {
    let Some(function) = module.functions.try_get(Handle::from_index(0)) else {
        return;
    };
    if let Some(expression) = function.expressions.try_get(Handle::from_index(0)) {
        let locals = &function.local_variables;
        let context = ResolveContext::with_locals(module, locals, function.arguments.as_slice());
        tell_type(told, alloc, &context, expression, operands);
    }
}

/// Tells all that depends on the types of operands.
fn tell_all(told: &mut Told, alloc: Global, operands: &[TypeResolution], module: &Module) {
    if let Some(first) = operands.first() {
        tell_first(told, alloc, first, module);
        if let Some(second) = operands.get(1) {
            tell_two(told, first, second, &module.types);
        }
    }
    tell_resolved(told, alloc, operands, module);
}

/// Adds the types that the words spell, and returns whether each spells one.
fn add_types(
    alloc: Global,
    operands: &mut Vec<TypeResolution>,
    words: Words<'_>,
    types: &Types,
) -> Result<bool, AllocError> {
    for word in words.rest.split_whitespace() {
        let Some(next) = type_from_word(alloc, word, types)? else {
            return Ok(false);
        };
        operands.push(next)?;
    }
    Ok(true)
}

/// Answers `resolve R..`.
pub fn tell(told: &mut Told, alloc: Global, words: Words<'_>, module: &Module) {
    let mut operands = Vec::new(alloc);
    match add_types(alloc, &mut operands, words, &module.types) {
        Ok(true) => tell_all(told, alloc, operands.as_slice(), module),
        Ok(false) => {}
        Err(AllocError) => told.fail(),
    }
    drop(operands);
}
