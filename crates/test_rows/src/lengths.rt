//! Questions about sizes, lengths and known numbers: `length N`, which tells
//!
//! - whether all handles that determine sizes are in range, and whether all sizes are known;
//! - of type N its size in bytes, and its length: its own, before the overrides have values, and once they have them;
//! - the number of items that override N gives an array;
//! - the index that global expression N is known to be, and expression N of the first function.
use crate::told::Told;
use crate::words::Words;
use shader_arena::Handle;
use shader_bounds::{
    IndexableLength, IndexableLengthError, IndexableLengths, ToIndexableLength, known_index_among,
    sizes_known,
};
use shader_ir::proc::sizes_in_range;
use shader_ir::{GlobalCtx, Module, TypeInner, mark};

/// Tells the size of a type, by both functions that compute it.
fn tell_size(told: &mut Told, inner: &TypeInner, ctx: GlobalCtx<'_>) {
    if inner.is_size_in_range(ctx) {
        match inner.try_size(ctx) {
            Some(_) => told.show("size", Some(inner.size(ctx))),
            None => told.show("size", None::<u32>),
        }
    }
}

/// Tells a length, or in words why there is none.
pub fn tell_length(
    told: &mut Told,
    name: &str,
    length: &Result<IndexableLength, IndexableLengthError>,
) {
    told.show_lent(name, length);
    match length {
        Ok(_) => {}
        Err(error) => told.say("why", error),
    }
}

/// Tells the lengths of a type.
fn tell_lengths(told: &mut Told, inner: &TypeInner, module: &Module) {
    tell_length(told, "own", &inner.indexable_length(module));
    tell_length(told, "pending", &inner.indexable_length_pending(module));
    tell_length(told, "resolved", &inner.indexable_length_resolved(module));
    match inner {
        TypeInner::Array { size, .. } => told.show("given", size.to_indexable_length(module)),
        TypeInner::BindingArray { size, .. } => {
            told.show("given", size.to_indexable_length(module))
        }
        _ => {}
    }
}

/// Tells what is known of an override and of a global expression.
fn tell_global(told: &mut Told, number: u32, ctx: GlobalCtx<'_>) {
    let sizer: Handle<mark::Override> = Handle::from_index(number);
    if ctx.is_size_in_range(sizer) {
        told.show("override", ctx.override_size(sizer));
    }
    let expression: Handle<mark::Expression> = Handle::from_index(number);
    if ctx.is_known_in_range(expression) {
        told.show("global", ctx.known_index(expression));
    }
}

/// Tells the index that an expression is known to be, among the global ones and among those of the first function.
fn tell_known(told: &mut Told, number: u32, module: &Module) {
    let expression = Handle::from_index(number);
    let global = known_index_among(&module.global_expressions, expression, module);
    told.show("among", global);
    if let Some(function) = module.functions.try_get(Handle::from_index(0)) {
        let local = known_index_among(&function.expressions, expression, module);
        told.show("local", local);
    }
}

/// Answers `length N`.
pub fn tell(told: &mut Told, mut words: Words<'_>, module: &Module) {
    let ctx = module.to_ctx();
    told.show("range", sizes_in_range(ctx));
    told.show("known", sizes_known(module));
    let Some(number) = words.number() else {
        return;
    };
    if let Some(ty) = module.types.try_get(Handle::from_index(number)) {
        tell_size(told, &ty.inner, ctx);
        tell_lengths(told, &ty.inner, module);
    }
    tell_global(told, number, ctx);
    tell_known(told, number, module);
}
