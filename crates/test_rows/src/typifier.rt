//! Questions about a table of types of function 0, which is empty at first: `typifier STEP, STEP..`, which tells after each step what the
//! table stores. The steps are
//!
//! - `grow N`, `invalidate N`: grows the table up to expression N, or resolves its type again;
//! - `shape N`: the shape of the type of expression N;
//! - `register N`: the position of that type in an arena, at first of the module's types, and then the number of types;
//! - `reset`: removes all types.
use crate::told::Told;
use crate::words::Words;
use shader_arena::{Handle, UniqueArena};
use shader_ir::proc::types_backward;
use shader_ir::{Function, Module, Type, mark};
use shader_resolve::{ResolveContext, ResolveError};
use shader_typifier::{Typifier, TypifyError};
use std::alloc::{AllocError, Global};

/// Grows the table up to an expression, after removing the types from it on if the step is `invalidate`.
fn grow(
    told: &mut Told,
    alloc: Global,
    table: &mut Typifier,
    step: &str,
    handle: Handle<mark::Expression>,
    module: &Module,
    function: &Function,
) {
    let expressions = &function.expressions;
    if !expressions.contains_handle(handle) || !types_backward(&module.types) {
        return;
    }
    if !table.fits(&module.types) {
        return;
    }
    let locals = &function.local_variables;
    let context = ResolveContext::with_locals(module, locals, function.arguments.as_slice());
    let outcome = if step == "grow" {
        table.grow(alloc, handle, expressions, &context)
    } else {
        table.invalidate(alloc, handle, expressions, &context)
    };
    match outcome {
        Err(TypifyError::Resolve(ResolveError::OutOfMemory)) => told.fail(),
        outcome => told.show("outcome", outcome),
    }
}

/// Tells the shape of the type of an expression.
fn tell_shape(
    told: &mut Told,
    table: &Typifier,
    handle: Handle<mark::Expression>,
    types: &UniqueArena<Type, mark::Type>,
) {
    if handle.index() < table.len() && table.fits(types) {
        told.show("shape", table.get(handle, types));
    }
}

/// Registers the type of an expression.
fn register(
    told: &mut Told,
    alloc: Global,
    table: &Typifier,
    handle: Handle<mark::Expression>,
    types: &mut UniqueArena<Type, mark::Type>,
) {
    if handle.index() < table.len() && !types.is_full() {
        told.show_allocated("registered", table.register_type(alloc, handle, types));
        told.show("of", types.len());
    }
}

/// Tells the stored types.
fn tell_stored(told: &mut Told, table: &Typifier, function: &Function) {
    told.show("stored", table.len());
    for (handle, _) in function.expressions.iter() {
        if handle.index() < table.len() {
            told.show("type", &table[handle]);
        }
    }
}

/// Takes a step at an expression.
fn take(
    told: &mut Told,
    alloc: Global,
    table: &mut Typifier,
    types: &mut UniqueArena<Type, mark::Type>,
    step: &str,
    handle: Handle<mark::Expression>,
    module: &Module,
    function: &Function,
) {
    match step {
        "grow" | "invalidate" => grow(told, alloc, table, step, handle, module, function),
        "shape" => tell_shape(told, table, handle, &module.types),
        "register" => register(told, alloc, table, handle, types),
        "reset" => table.reset(),
        _ => {}
    }
    tell_stored(told, table, function);
}

/// Takes the steps that the words spell.
fn take_all(
    told: &mut Told,
    alloc: Global,
    types: &mut UniqueArena<Type, mark::Type>,
    words: Words<'_>,
    module: &Module,
    function: &Function,
) {
    let mut table = Typifier::new(alloc);
    for step in words.rest.split(", ") {
        let mut words = Words { rest: step };
        let step = words.next_word();
        told.say("step", &step);
        let handle = Handle::from_index(words.number().unwrap_or(u32::MAX));
        take(
            told, alloc, &mut table, types, step, handle, module, function,
        );
    }
    drop(table);
}

/// Answers `typifier STEP, STEP..`.
pub fn tell(told: &mut Told, alloc: Global, words: Words<'_>, module: &Module) {
    let Some(function) = module.functions.try_get(Handle::from_index(0)) else {
        return;
    };
    match module.types.copy(alloc) {
        Ok(mut types) => {
            take_all(told, alloc, &mut types, words, module, function);
            drop(types);
        }
        Err(AllocError) => told.fail(),
    }
}
