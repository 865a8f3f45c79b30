//! A struct as a declaration.
ghost use Rattle.std.specs.Prelude.{◌≡◌, IfOk, slice_get, string_bytes};
ghost use Rattle.report_layouts.specs.Declarations.{declaration_text, head_line, head_size, is_open, struct_lines};

use crate::columns::{Line, aligned_text};
use crate::layouts::{layout_at, stride_of};
use crate::members::{add_padding, alignment_text, end_of, member_line};
use report_names::{ItemKind, item_text};
use shader_arena::Handle;
use shader_ir::proc::Layouter;
use shader_ir::{Module, Name, StructMember, mark};
use std::alloc::{AllocError, Global};

/// A struct type: its handle, name, members, and size in bytes.
#[derive(Clone, Copy)]
pub struct Struct<'a> {
    pub ty: Handle<mark::Type>,
    pub name: &'a Option<Name>,
    pub members: &'a [StructMember],
    pub span: u32,
}

/// Returns whether the last member is an array without a fixed length: its further elements are behind the struct.
pub fn is_open(module: &Module, members: &[StructMember]) -> bool
    ensures { result ≡ is_open «module».now members.now }
{
    match members.last() {
        Some(last) => stride_of(module, last.ty).is_some(),
        None => false,
    }
}

/// Returns the size of a struct.
fn head_size(
    alloc: Global,
    layouts: &Layouter,
    ty: Handle<mark::Type>,
    is_open: bool,
) -> Result<String, AllocError>
    ensures { IfOk result (λ text. string_bytes text ≡ head_size is_open (slice_get layouts.now ty)) }
{
    let Some(layout) = layout_at(layouts, ty) else {
        return String::from_str(alloc, "no layout");
    };
    if is_open {
        format!(in alloc; "size {} with one element", layout.size)
    } else {
        format!(in alloc; "size {}", layout.size)
    }
}

/// Returns the first line of a declaration.
fn head_line(
    alloc: Global,
    layouts: &Layouter,
    found: &Struct<'_>,
    is_open: bool,
) -> Result<Line, AllocError>
    ensures { IfOk result (λ line. line ≡ head_line layouts.now is_open found.now.ty found.now.name.now) }
{
    let name = item_text(alloc, ItemKind::Struct, found.name, found.ty.index())?;
    let declared = format!(in alloc; "struct {name} {{")?;
    let alignment = alignment_text(alloc, layouts, found.ty)?;
    let size = head_size(alloc, layouts, found.ty, is_open)?;
    Ok(Line::new(declared, String::new(alloc), alignment, size))
}

/// Returns the lines of a declaration, except the last one. Bytes behind the last member are padding, unless it has no fixed length.
fn struct_lines(
    alloc: Global,
    module: &Module,
    layouts: &Layouter,
    found: &Struct<'_>,
) -> Result<Vec<Line>, AllocError>
    ensures { IfOk result (λ lines. lines.items
        ≡ struct_lines layouts.now «module».now found.now.ty found.now.name.now found.now.members.now found.now.span) }
{
    let members = found.members;
    let is_open = is_open(module, members);
    let mut lines = Vec::new(alloc);
    lines.push(head_line(alloc, layouts, found, is_open)?)?;
    let mut end = 0;
    for (index, member) in members.iter().enumerate() {
        add_padding(alloc, &mut lines, end, member.offset as u64)?;
        lines.push(member_line(alloc, module, layouts, index, member)?)?;
        end = end_of(layouts, member);
    }
    if !is_open {
        add_padding(alloc, &mut lines, end, found.span as u64)?;
    }
    Ok(lines)
}

/// Returns a struct as a declaration.
pub fn declaration_text(
    alloc: Global,
    module: &Module,
    layouts: &Layouter,
    found: &Struct<'_>,
) -> Result<String, AllocError>
    ensures { IfOk result (λ text. string_bytes text
        ≡ declaration_text layouts.now «module».now found.now.ty found.now.name.now found.now.members.now found.now.span) }
{
    let lines = struct_lines(alloc, module, layouts, found)?;
    let text = aligned_text(alloc, lines.as_slice())?;
    format!(in alloc; "{text}}}\n")
}
