//! Resolution of calls of built-in functions.
ghost use Rattle.shader_ir.specs.TypeTree.{IsBackward};

use shader_arena::UniqueArena;
use shader_ir::proc::types_backward;
use shader_ir::{MathFunction, Type, TypeInner, mark};
use shader_overloads::{AnyOverloadSet, MathOverloads, OverloadSet};
use shader_type_text::{Pieces, PlainType, builtin_from_word};
use std::alloc::{AllocError, Global};

/// A call of a built-in function, given by the types of its arguments.
#[derive(Drop)]
pub struct Call {
    function: MathFunction,
    arguments: Vec<TypeInner>,
}

/// Returns the calls given by lines of the form `NAME TYPE..`, up to the first line of another form.
pub fn calls_of(alloc: Global, input: &[u8]) -> Result<Vec<Call>, AllocError> {
    let mut calls = Vec::new(alloc);
    for line in Pieces::new(input, b'\n') {
        let mut words = Pieces::new(line, b' ');
        let Some(function) = words.next().and_then(|name| builtin_from_word(name)) else {
            return Ok(calls);
        };
        let mut arguments = Vec::new(alloc);
        for word in words {
            if let Some(plain) = PlainType::from_word(word) {
                arguments.push(plain.inner())?;
            }
        }
        calls.push(Call {
            function,
            arguments,
        })?;
    }
    Ok(calls)
}

/// Returns the rules of a built-in function that accept these arguments.
fn supply(
    alloc: Global,
    call: &Call,
    types: &UniqueArena<Type, mark::Type>,
) -> Result<AnyOverloadSet, AllocError>
    requires { IsBackward types.now }
{
    let mut left = call.function.overloads(alloc)?;
    for (i, ty) in call.arguments.iter().enumerate() {
        if !ty.is_in_range(types) {
            return Ok(left);
        }
        left = left.arg(alloc, i, ty, types)?;
    }
    Ok(left)
}

/// Returns the number of arguments of a call's preferred rule, or 1 for any rule without `prefers`, and 0 if no rule accepts its arguments.
fn resolve(
    alloc: Global,
    call: &Call,
    types: &UniqueArena<Type, mark::Type>,
    prefers: bool,
) -> Result<usize, AllocError> {
    if !types_backward(types) {
        return Ok(0);
    }
    let left = supply(alloc, call, types)?;
    if left.is_empty() {
        return Ok(0);
    }
    if !prefers {
        return Ok(1);
    }
    let rule = left.most_preferred(alloc)?;
    Ok(rule.arguments.len())
}

/// Resolves the calls in turn, `size` in all; without `prefers` the sets are only narrowed, and no rule is chosen.
pub fn resolve_calls(
    alloc: Global,
    calls: &[Call],
    size: usize,
    prefers: bool,
) -> Result<usize, AllocError> {
    let types = UniqueArena::new(alloc);
    let mut done = 0usize;
    for position in 0..size {
        if calls.is_empty() {
            return Ok(done);
        }
        let arguments = resolve(alloc, &calls[position % calls.len()], &types, prefers)?;
        done = done.wrapping_add(arguments);
    }
    Ok(done)
}

/// Builds the sets of the built-in functions in turn, `size` in all, and returns how many have rules.
pub fn build_sets(alloc: Global, calls: &[Call], size: usize) -> Result<usize, AllocError> {
    let mut done = 0usize;
    for position in 0..size {
        if calls.is_empty() {
            return Ok(done);
        }
        let set = calls[position % calls.len()].function.overloads(alloc)?;
        if !set.is_empty() {
            done = done.wrapping_add(1);
        }
    }
    Ok(done)
}
