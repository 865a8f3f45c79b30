//! Requests for layouts of spelled types.

ghost use Rattle.std.specs.Prelude.{◌≡◌, IfOk, IfSome};
ghost use Rattle.shader_ir.specs.Layout.{HasStride};
ghost use Rattle.typer_answers.specs.Layouts.{layout_of_spelled};

use shader_arena::{Arena, UniqueArena};
use shader_ir::proc::{Layouter, TypeLayout, UpdateError};
use shader_ir::{GlobalCtx, Type};
use shader_type_text::{SpelledType, insert_type};
use std::alloc::{AllocError, Global};

/// Returns the layout of the type, if it has one.
pub fn layout(alloc: Global, spelled: SpelledType) -> Result<Option<TypeLayout>, AllocError>
    ensures layout { IfOk result (λ layout. layout ≡ layout_of_spelled spelled) }
    ensures stride { IfOk result (λ layout. IfSome layout HasStride) }
{
    let mut types = UniqueArena::new(alloc);
    let inner = insert_type(&mut types, spelled)?;
    let handle = types.insert(Type { name: None, inner })?;
    let constants = Arena::new(alloc);
    let overrides = Arena::new(alloc);
    let global_expressions = Arena::new(alloc);
    let ctx = GlobalCtx {
        types: &types,
        constants: &constants,
        overrides: &overrides,
        global_expressions: &global_expressions,
    };
    let mut layouter = Layouter::new(alloc);
    match layouter.update(ctx) {
        Ok(()) => Ok(Some(layouter[handle])),
        Err(UpdateError::Layout(_)) => Ok(None),
        Err(UpdateError::OutOfMemory) => Err(AllocError),
    }
}
