//! The lines of a struct's members and of the padding between them.
ghost use Rattle.std.specs.Prelude.{◌≡◌, ◌++◌, IfOk, None, OnOk, slice_get, string_bytes};
ghost use Rattle.report_layouts.specs.Declarations.{alignment_text, end_of, member_line, member_size, padding, stride_of};

use crate::columns::Line;
use crate::layouts::{layout_at, stride_of};
use report_names::{ItemKind, MOST_NESTED, item_text, type_text};
use shader_arena::Handle;
use shader_ir::proc::Layouter;
use shader_ir::{Module, StructMember, mark};
use std::alloc::{AllocError, Global};

/// Returns the alignment of a type.
pub fn alignment_text(
    alloc: Global,
    layouts: &Layouter,
    ty: Handle<mark::Type>,
) -> Result<String, AllocError>
    ensures { IfOk result (λ text. string_bytes text ≡ alignment_text (slice_get layouts.now ty)) }
{
    match layout_at(layouts, ty) {
        Some(layout) => format!(in alloc; "align {}", layout.alignment.get()),
        None => Ok(String::new(alloc)),
    }
}

/// Returns the size of a type with a fixed length.
fn fixed_size(
    alloc: Global,
    layouts: &Layouter,
    ty: Handle<mark::Type>,
) -> Result<String, AllocError>
    ensures { IfOk result (λ text. string_bytes text ≡ member_size None (slice_get layouts.now ty)) }
{
    match layout_at(layouts, ty) {
        Some(layout) => format!(in alloc; "size {}", layout.size),
        None => String::from_str(alloc, "no layout"),
    }
}

/// Returns the size of a member's type, or the distance of its elements if their number isn't fixed.
fn member_size(
    alloc: Global,
    module: &Module,
    layouts: &Layouter,
    ty: Handle<mark::Type>,
) -> Result<String, AllocError>
    ensures { IfOk result (λ text. string_bytes text ≡ member_size (stride_of «module».now ty) (slice_get layouts.now ty)) }
{
    match stride_of(module, ty) {
        Some(stride) => format!(in alloc; "stride {stride}"),
        None => fixed_size(alloc, layouts, ty),
    }
}

/// Returns the line of the member at an index.
pub fn member_line(
    alloc: Global,
    module: &Module,
    layouts: &Layouter,
    index: usize,
    member: &StructMember,
) -> Result<Line, AllocError>
    ensures { IfOk result (λ line. line ≡ member_line layouts.now «module».now index member.now) }
{
    let name = item_text(alloc, ItemKind::Member, &member.name, index)?;
    let ty = type_text(alloc, module, member.ty, MOST_NESTED)?;
    let declared = format!(in alloc; "  {name}: {ty},")?;
    let offset = format!(in alloc; "offset {}", member.offset)?;
    let alignment = alignment_text(alloc, layouts, member.ty)?;
    let size = member_size(alloc, module, layouts, member.ty)?;
    Ok(Line::new(declared, offset, alignment, size))
}

/// Returns where a member ends. One whose type has no layout takes no bytes.
pub fn end_of(layouts: &Layouter, member: &StructMember) -> u64
    ensures { result ≡ end_of layouts.now member.now }
{
    let start = member.offset as u64;
    match layout_at(layouts, member.ty) {
        Some(layout) => start + layout.size as u64,
        None => start,
    }
}

/// Adds a line for the bytes between two offsets, if there are any.
pub fn add_padding(
    alloc: Global,
    lines: &mut Vec<Line>,
    start: u64,
    end: u64,
) -> Result<(), AllocError>
    ensures { OnOk result (lines.new.items ≡ lines.old.items ++ padding start end) }
{
    if start < end {
        let size = end - start;
        let declared = String::from_str(alloc, "  // padding")?;
        let offset = format!(in alloc; "offset {start}")?;
        let size = format!(in alloc; "size {size}")?;
        lines.push(Line::new(declared, offset, String::new(alloc), size))?;
    }
    Ok(())
}
