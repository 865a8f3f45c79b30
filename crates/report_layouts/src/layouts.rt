//! Total look-ups of layouts: each accepts every handle.
ghost use Rattle.std.specs.Prelude.{◌≡◌, slice_get};
ghost use Rattle.report_layouts.specs.Declarations.{stride_of};

use shader_arena::Handle;
use shader_ir::proc::{Layouter, TypeLayout};
use shader_ir::{ArraySize, Module, TypeInner, mark};

/// Returns the layout of a type, if it has one.
pub fn layout_at(layouts: &Layouter, ty: Handle<mark::Type>) -> Option<TypeLayout>
    ensures { result ≡ slice_get layouts.now ty }
{
    if layouts.len() <= ty.index() {
        return None;
    }
    Some(layouts[ty])
}

/// Returns the distance of the elements of an array without a fixed length. Another type has none.
pub fn stride_of(module: &Module, ty: Handle<mark::Type>) -> Option<u32>
    ensures { result ≡ stride_of «module».now ty }
{
    let Some(found) = module.types.try_get(ty) else {
        return None;
    };
    match &found.inner {
        TypeInner::Array { size, stride, .. } => match size {
            ArraySize::Dynamic => Some(*stride),
            ArraySize::Constant(_) | ArraySize::Pending(_) => None,
        },
        _ => None,
    }
}
