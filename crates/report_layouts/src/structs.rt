//! The structs of a module.
ghost use Rattle.std.specs.Prelude.{IfOk, length, slice_get, string_bytes};
ghost use Rattle.report_layouts.specs.Structs.{AreStructs, IsOnType, IsStruct};

use crate::declarations::{Struct, declaration_text};
use crate::drawings::drawing_text;
use shader_arena::Handle;
use shader_ir::proc::Layouter;
use shader_ir::{Module, TypeInner, mark};
use std::alloc::{AllocError, Global};

/// Returns a struct as a declaration behind an empty line, with its drawing if that is asked for.
fn struct_text(
    alloc: Global,
    module: &Module,
    layouts: &Layouter,
    found: &Struct<'_>,
    is_drawn: bool,
) -> Result<String, AllocError>
    ensures { IfOk result (λ text. IsStruct «module».now layouts.now is_drawn
        found.now.ty found.now.name.now found.now.members.now found.now.span (string_bytes text)) }
{
    let declaration = declaration_text(alloc, module, layouts, found)?;
    let drawing = if is_drawn {
        drawing_text(alloc, module, layouts, found)?
    } else {
        String::new(alloc)
    };
    format!(in alloc; "\n{declaration}{drawing}")
}

/// Returns the text of a type if it is a struct. One of another type is empty.
fn type_lines(
    alloc: Global,
    module: &Module,
    layouts: &Layouter,
    ty: Handle<mark::Type>,
    is_drawn: bool,
) -> Result<String, AllocError>
    ensures { IfOk result (λ text. IsOnType «module».now layouts.now is_drawn ty (slice_get «module».now.types ty) (string_bytes text)) }
{
    let Some(found) = module.types.try_get(ty) else {
        return Ok(String::new(alloc));
    };
    match &found.inner {
        TypeInner::Struct { members, span } => {
            let found = Struct {
                ty,
                name: &found.name,
                members: members.as_slice(),
                span: *span,
            };
            struct_text(alloc, module, layouts, &found, is_drawn)
        }
        _ => Ok(String::new(alloc)),
    }
}

/// Returns the structs of a module in their order, each as a declaration behind an empty line. A comment in each line has the layout in
/// columns. A line `// padding` is for bytes that no member takes.
///
/// If they are to be drawn, the bytes of each follow in rows of 16, and an order of its members that takes fewer bytes if one is found.
///
/// # Errors
///
/// `AllocError` if an allocation fails.
pub fn structs_text(
    alloc: Global,
    module: &Module,
    layouts: &Layouter,
    is_drawn: bool,
) -> Result<String, AllocError>
    ensures { IfOk result (λ text. AreStructs «module».now layouts.now is_drawn (length «module».now.types) (string_bytes text)) }
{
    let mut text = String::new(alloc);
    for position in 0..module.types.len() {
        let ty = Handle::from_index(position as u32);
        let more = type_lines(alloc, module, layouts, ty, is_drawn)?;
        text.push_str(more.as_str())?;
    }
    Ok(text)
}
