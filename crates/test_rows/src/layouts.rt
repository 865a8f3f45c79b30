//! Questions about layouts: `layouts STEP..`, which tells what a layouter contains after each step. The steps are
//!
//! - `update`: lays out all types;
//! - `clear`: removes all layouts;
//! - `added`: adds copies of the types to an arena of their own, and lays out each at once.
ghost use Rattle.shader_ir.specs.Layout.{HasStride};
ghost use Rattle.shader_ir.specs.Sizes.{AreTypeSizesInRange};

use crate::told::Told;
use crate::words::Words;
use shader_arena::UniqueArena;
use shader_ir::proc::{Layouter, TypeLayout, UpdateError, sizes_in_range, sizes_in_range_from};
use shader_ir::{GlobalCtx, Module, Type, mark};
use std::alloc::{AllocError, Global};

/// Tells the outcome of an update that stopped.
fn tell_outcome(told: &mut Told, outcome: Result<(), UpdateError>) {
    match outcome {
        Ok(()) => {}
        Err(UpdateError::OutOfMemory) => told.fail(),
        Err(UpdateError::Layout(error)) => {
            told.say("outcome", &UpdateError::Layout(error));
            told.say("reason", &error);
        }
    }
}

/// Tells a layout.
fn tell_layout(told: &mut Told, layout: TypeLayout)
    requires { HasStride layout }
{
    told.show(
        "layout",
        (layout.size, layout.alignment.get(), layout.to_stride()),
    );
}

/// Tells the layouts of the context's types.
fn tell_layouts(told: &mut Told, layouter: &Layouter, ctx: GlobalCtx<'_>) {
    told.show("stored", layouter);
    for (handle, _) in ctx.types.iter() {
        if handle.index() < layouter.len() {
            tell_layout(told, layouter[handle]);
        }
    }
}

/// Adds a copy of a type.
fn add_copy(
    alloc: Global,
    types: &mut UniqueArena<Type, mark::Type>,
    ty: &Type,
) -> Result<(), AllocError> {
    let copy = ty.copy(alloc)?;
    if types.is_full() {
        drop(copy);
        return Err(AllocError);
    }
    types.insert(copy)?;
    Ok(())
}

/// Adds copies of the types to an arena of their own, and lays out each at once.
fn add_each(told: &mut Told, alloc: Global, layouter: &mut Layouter, module: &Module) {
    let mut types = UniqueArena::new(alloc);
    for (_, ty) in module.types.iter() {
        if add_copy(alloc, &mut types, ty).is_err() {
            told.fail();
        }
        let ctx = GlobalCtx {
            types: &types,
            ..module.to_ctx()
        };
        if sizes_in_range_from(ctx, layouter.len()) {
            tell_outcome(told, layouter.update_added(ctx));
        }
    }
    drop(types);
}

/// Takes a step, and tells what the layouter then contains.
fn take(
    told: &mut Told,
    alloc: Global,
    layouter: &mut Layouter,
    step: &str,
    module: &Module,
    ctx: GlobalCtx<'_>,
)
    requires { AreTypeSizesInRange ctx }
{
    match step {
        "clear" => layouter.clear(),
        "added" => add_each(told, alloc, layouter, module),
        _ => tell_outcome(told, layouter.update(ctx)),
    }
    tell_layouts(told, layouter, ctx);
}

/// Answers `layouts STEP..` if the handles that determine sizes are in range.
pub fn tell(told: &mut Told, alloc: Global, words: Words<'_>, module: &Module) {
    let ctx = module.to_ctx();
    if !sizes_in_range(ctx) {
        return;
    }
    let mut layouter = Layouter::new(alloc);
    for step in words.rest.split(' ') {
        take(told, alloc, &mut layouter, step, module, ctx);
    }
    drop(layouter);
}
