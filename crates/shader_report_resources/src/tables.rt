//! Prints types, globals and overrides as JSON.
ghost use Rattle.std.specs.Prelude.{◌≡◌, OnOk, flat_map, length, slice_get};
ghost use Rattle.std.specs.Option.{option_map};
ghost use Rattle.json.specs.Value.{value_view};
ghost use Rattle.shader_report_resources.specs.Tables.{binding_members, global_tokens, globals_tokens, layout_alignment};
ghost use Rattle.shader_report_resources.specs.Tables.{layout_members, layout_size, member_tokens};
ghost use Rattle.shader_report_resources.specs.Tables.{members_tokens, override_tokens, overrides_tokens, stride_of};
ghost use Rattle.shader_report_resources.specs.Tables.{type_members, type_tokens, types_tokens};
ghost use Rattle.report_json.specs.Tokens.{Adds};

use crate::spaces::{space_word, stated_access};
use crate::words::words;
use crate::written::{write_name, write_number, write_text};
use json::{Value, Writer};
use shader_arena::Handle;
use shader_interface::Interface;
use shader_ir::proc::{Layouter, TypeLayout};
use shader_ir::{GlobalVariable, Module, Override, StructMember, Type, TypeInner, mark};
use std::alloc::{AllocError, Global};

/// Returns the position of a type.
fn position_of(ty: Handle<mark::Type>) -> u32
    ensures { result ≡ ty }
{
    ty.index() as u32
}

/// Writes the position of a type, and its spelling in WGSL.
pub(crate) fn write_type_members(
    writer: &mut Writer,
    alloc: Global,
    module: &Module,
    ty: Handle<mark::Type>,
) -> Result<(), AllocError>
    ensures { OnOk result (Adds writer.old writer.new (type_members «module».now ty)) }
{
    let words = words(alloc, module, ty)?;
    write_number(writer, "ty", Some(position_of(ty)))?;
    write_text(writer, "type", Some(words.as_str()))?;
    Ok(())
}

/// Writes a member of a struct.
#[tactic(auto, unfolding(crate::specs::Tables::member_tokens))]
fn write_member(
    writer: &mut Writer,
    alloc: Global,
    module: &Module,
    member: &StructMember,
) -> Result<(), AllocError>
    ensures { OnOk result (Adds writer.old writer.new (member_tokens «module».now member.now)) }
{
    writer.begin_object()?;
    write_name(writer, "name", &member.name)?;
    write_type_members(writer, alloc, module, member.ty)?;
    write_number(writer, "offset", Some(member.offset))?;
    writer.end_object()?;
    Ok(())
}

/// Writes members of a struct.
fn write_each_member(
    writer: &mut Writer,
    alloc: Global,
    module: &Module,
    members: &[StructMember],
) -> Result<(), AllocError>
    ensures { OnOk result (Adds writer.old writer.new (flat_map (member_tokens «module».now) members.now)) }
{
    for member in members {
        write_member(writer, alloc, module, member)?;
    }
    Ok(())
}

/// Writes the members of a struct, or null for another type.
fn write_members(
    writer: &mut Writer,
    alloc: Global,
    module: &Module,
    inner: &TypeInner,
) -> Result<(), AllocError>
    ensures { OnOk result (Adds writer.old writer.new (members_tokens «module».now inner.now)) }
{
    match inner {
        TypeInner::Struct { members, .. } => {
            writer.begin_array()?;
            write_each_member(writer, alloc, module, members.as_slice())?;
            writer.end_array()
        }
        _ => writer.null(),
    }
}

/// Returns the stride of an array, in bytes.
fn stride_of(inner: &TypeInner) -> Option<u32>
    ensures { result ≡ stride_of inner.now }
{
    match inner {
        TypeInner::Array { stride, .. } => Some(*stride),
        _ => None,
    }
}

/// Returns the layout of a type, if there is such a type.
pub(crate) fn layout_at(
    module: &Module,
    layouter: &Layouter,
    ty: Handle<mark::Type>,
) -> Option<TypeLayout>
    requires { length layouter.now ≡ length «module».now.types }
    ensures { result ≡ slice_get layouter.now ty }
{
    if module.types.contains_handle(ty) {
        Some(layouter[ty])
    } else {
        None
    }
}

/// Returns the size of a layout, if there is one.
fn size_of(layout: &Option<TypeLayout>) -> Option<u32>
    ensures { result ≡ option_map layout_size layout.now }
{
    match layout {
        Some(layout) => Some(layout.size),
        None => None,
    }
}

/// Returns the alignment of a layout, if there is one.
fn alignment_of(layout: &Option<TypeLayout>) -> Option<u32>
    ensures { result ≡ option_map layout_alignment layout.now }
{
    match layout {
        Some(layout) => Some(layout.alignment.get()),
        None => None,
    }
}

/// Writes the size and the alignment of a type, in bytes.
#[tactic(auto, unfolding(crate::specs::Tables::layout_members))]
fn write_layout(writer: &mut Writer, layout: &Option<TypeLayout>) -> Result<(), AllocError>
    ensures { OnOk result (Adds writer.old writer.new (layout_members layout.now)) }
{
    write_number(writer, "size", size_of(layout))?;
    write_number(writer, "alignment", alignment_of(layout))?;
    Ok(())
}

/// Writes a type with its layout.
#[tactic(auto, unfolding(crate::specs::Tables::type_tokens))]
fn write_type(
    writer: &mut Writer,
    alloc: Global,
    module: &Module,
    layouter: &Layouter,
    handle: Handle<mark::Type>,
    ty: &Type,
) -> Result<(), AllocError>
    requires { length layouter.now ≡ length «module».now.types }
    ensures { OnOk result (Adds writer.old writer.new (type_tokens «module».now layouter.now (handle, ty.now))) }
{
    let words = words(alloc, module, handle)?;
    let layout = layout_at(module, layouter, handle);
    writer.begin_object()?;
    write_text(writer, "type", Some(words.as_str()))?;
    write_layout(writer, &layout)?;
    write_number(writer, "stride", stride_of(&ty.inner))?;
    writer.key("members")?;
    write_members(writer, alloc, module, &ty.inner)?;
    writer.end_object()?;
    Ok(())
}

/// Writes all types with their layouts.
pub(crate) fn write_types(
    writer: &mut Writer,
    alloc: Global,
    module: &Module,
    layouter: &Layouter,
) -> Result<(), AllocError>
    requires { length layouter.now ≡ length «module».now.types }
    ensures { OnOk result (Adds writer.old writer.new (types_tokens «module».now layouter.now)) }
{
    for (handle, ty) in module.types.iter() {
        write_type(writer, alloc, module, layouter, handle, ty)?;
    }
    Ok(())
}

/// Writes the bind group of a global and its number there.
#[tactic(auto, unfolding(crate::specs::Tables::binding_members))]
fn write_binding(writer: &mut Writer, root: &Value<'_>, position: usize) -> Result<(), AllocError>
    ensures { OnOk result (Adds writer.old writer.new (binding_members (value_view root.now) position)) }
{
    write_number(writer, "group", Interface(root).group(position))?;
    write_number(writer, "binding", Interface(root).binding(position))?;
    Ok(())
}

/// Writes a global.
#[tactic(auto, unfolding(crate::specs::Tables::global_tokens))]
fn write_global(
    writer: &mut Writer,
    alloc: Global,
    module: &Module,
    root: &Value<'_>,
    handle: Handle<mark::GlobalVariable>,
    global: &GlobalVariable,
) -> Result<(), AllocError>
    ensures { OnOk result (Adds writer.old writer.new (global_tokens (value_view root.now) «module».now (handle, global.now))) }
{
    writer.begin_object()?;
    write_name(writer, "name", &global.name)?;
    write_binding(writer, root, handle.index())?;
    write_text(writer, "space", Some(space_word(global.space)))?;
    write_text(writer, "access", stated_access(global.space))?;
    write_type_members(writer, alloc, module, global.ty)?;
    writer.end_object()?;
    Ok(())
}

/// Writes all globals.
pub(crate) fn write_globals(
    writer: &mut Writer,
    alloc: Global,
    module: &Module,
    root: &Value<'_>,
) -> Result<(), AllocError>
    ensures { OnOk result (Adds writer.old writer.new (globals_tokens (value_view root.now) «module».now)) }
{
    for (handle, global) in module.global_variables.iter() {
        write_global(writer, alloc, module, root, handle, global)?;
    }
    Ok(())
}

/// Writes an override.
#[tactic(auto, unfolding(crate::specs::Tables::override_tokens))]
fn write_override(
    writer: &mut Writer,
    alloc: Global,
    module: &Module,
    root: &Value<'_>,
    handle: Handle<mark::Override>,
    item: &Override,
) -> Result<(), AllocError>
    ensures { OnOk result (Adds writer.old writer.new (override_tokens (value_view root.now) «module».now (handle, item.now))) }
{
    let position = handle.index();
    writer.begin_object()?;
    write_name(writer, "name", &item.name)?;
    write_number(writer, "id", Interface(root).override_id(position))?;
    write_type_members(writer, alloc, module, item.ty)?;
    write_text(
        writer,
        "default",
        Interface(root).override_default(position),
    )?;
    writer.end_object()?;
    Ok(())
}

/// Writes all overrides.
pub(crate) fn write_overrides(
    writer: &mut Writer,
    alloc: Global,
    module: &Module,
    root: &Value<'_>,
) -> Result<(), AllocError>
    ensures { OnOk result (Adds writer.old writer.new (overrides_tokens (value_view root.now) «module».now)) }
{
    for (handle, item) in module.overrides.iter() {
        write_override(writer, alloc, module, root, handle, item)?;
    }
    Ok(())
}
