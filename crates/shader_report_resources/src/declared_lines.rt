//! Prints globals and overrides as text output.
ghost use Rattle.std.specs.Prelude.{◌≡◌, IfOk, length, slice_get, string_bytes};
ghost use Rattle.std.specs.Option.{option_map};
ghost use Rattle.json.specs.Value.{value_view};
ghost use Rattle.shader_report_resources.specs.DeclaredLines.{bound_declaration, element_stride, global_row, global_rows, id_words};
ghost use Rattle.shader_report_resources.specs.DeclaredLines.{override_declaration, override_row, override_rows, room_words, room_of};
ghost use Rattle.shader_report_resources.specs.DeclaredLines.{element_words, size_words, value_words};

use crate::tables::layout_at;
use json::Value;
use report_columns::Row;
use report_names::{ItemKind, MOST_NESTED, declaration_text, item_text, name_text, type_text};
use shader_arena::Handle;
use shader_interface::{AttributesText, Interface};
use shader_ir::proc::{Layouter, TypeLayout};
use shader_ir::{AddressSpace, ArraySize, GlobalVariable, Module, Override, TypeInner, mark};
use std::alloc::{AllocError, Global};

/// Returns the declaration of a global, with its binding.
pub(crate) fn bound_declaration(
    alloc: Global,
    module: &Module,
    root: &Value<'_>,
    position: usize,
    global: &GlobalVariable,
) -> Result<String, AllocError>
    ensures { IfOk result (λ text. string_bytes text ≡ bound_declaration (value_view root.now) «module».now (position, global.now)) }
{
    let attributes = AttributesText(Interface(root).bound(position));
    let declaration = declaration_text(alloc, module, global, position)?;
    format!(in alloc; "{attributes}{declaration}")
}

/// Returns the distance of the elements of an array without a fixed length. Another type has none.
fn element_stride(module: &Module, ty: Handle<mark::Type>) -> Option<u32>
    ensures { result ≡ element_stride (slice_get «module».now.types ty) }
{
    let Some(found) = module.types.try_get(ty) else {
        return None;
    };
    match &found.inner {
        TypeInner::Array { size, stride, .. } => match size {
            ArraySize::Dynamic => Some(*stride),
            ArraySize::Constant(_) | ArraySize::Pending(_) => None,
        },
        _ => None,
    }
}

/// Returns a size and an alignment, both in bytes.
fn size_words(alloc: Global, size: u32, alignment: u32) -> Result<String, AllocError>
    ensures { IfOk result (λ text. string_bytes text ≡ size_words size alignment) }
{
    format!(in alloc; "{size} bytes, align {alignment}")
}

/// Returns the size of an element and an alignment, both in bytes.
fn element_words(alloc: Global, stride: u32, alignment: u32) -> Result<String, AllocError>
    ensures { IfOk result (λ text. string_bytes text ≡ element_words stride alignment) }
{
    format!(in alloc; "{stride} bytes an element, align {alignment}")
}

/// Returns the size and the alignment of a layout. An array without a fixed length has the size of an element.
fn room_of(
    alloc: Global,
    stride: Option<u32>,
    layout: &Option<TypeLayout>,
) -> Result<String, AllocError>
    ensures { IfOk result (λ text. string_bytes text ≡ room_of stride layout.now) }
{
    let Some(layout) = layout else {
        return Ok(String::new(alloc));
    };
    let alignment = layout.alignment.get();
    match stride {
        Some(stride) => element_words(alloc, stride, alignment),
        None => size_words(alloc, layout.size, alignment),
    }
}

/// Returns the size and the alignment of a global, or an empty text for images, samplers and other handles.
fn room_words(
    alloc: Global,
    module: &Module,
    layouter: &Layouter,
    global: &GlobalVariable,
) -> Result<String, AllocError>
    requires { length layouter.now ≡ length «module».now.types }
    ensures { IfOk result (λ text. string_bytes text ≡ room_words «module».now layouter.now global.now.ty global.now.space) }
{
    match global.space {
        AddressSpace::Handle => Ok(String::new(alloc)),
        _ => {
            let stride = element_stride(module, global.ty);
            room_of(alloc, stride, &layout_at(module, layouter, global.ty))
        }
    }
}

/// Returns the line on a global.
fn global_row(
    alloc: Global,
    module: &Module,
    root: &Value<'_>,
    layouter: &Layouter,
    handle: Handle<mark::GlobalVariable>,
    global: &GlobalVariable,
) -> Result<Row, AllocError>
    requires { length layouter.now ≡ length «module».now.types }
    ensures { IfOk result (λ row. row ≡ global_row (value_view root.now) «module».now layouter.now (handle, global.now)) }
{
    let declaration = bound_declaration(alloc, module, root, handle.index(), global)?;
    let room = room_words(alloc, module, layouter, global)?;
    Ok(Row::new(declaration, room))
}

/// Returns a line for each global.
pub(crate) fn global_rows(
    alloc: Global,
    module: &Module,
    root: &Value<'_>,
    layouter: &Layouter,
) -> Result<Vec<Row>, AllocError>
    requires { length layouter.now ≡ length «module».now.types }
    ensures { IfOk result (λ rows. rows.items ≡ global_rows (value_view root.now) «module».now layouter.now) }
{
    let mut rows = Vec::new(alloc);
    for (handle, global) in module.global_variables.iter() {
        let row = global_row(alloc, module, root, layouter, handle, global)?;
        rows.push(row)?;
    }
    Ok(rows)
}

/// Returns the attribute with the id of an override, if it has one.
fn id_words(alloc: Global, id: Option<u32>) -> Result<String, AllocError>
    ensures { IfOk result (λ text. string_bytes text ≡ id_words id) }
{
    match id {
        Some(id) => format!(in alloc; "@id({id}) "),
        None => Ok(String::new(alloc)),
    }
}

/// Returns the value that an override has if the pipeline sets none: a number or a bool as the JSON spells it, and three dots for another
/// one.
fn value_words(
    alloc: Global,
    default: Option<&str>,
    init: Option<Handle<mark::Expression>>,
) -> Result<String, AllocError>
    ensures { IfOk result (λ text. string_bytes text ≡ value_words (option_map (λ text. text.now) default.entry) init) }
{
    match default {
        Some(default) => {
            let default = name_text(alloc, default)?;
            format!(in alloc; " = {default}")
        }
        None => match init {
            Some(_) => String::from_str(alloc, " = ..."),
            None => Ok(String::new(alloc)),
        },
    }
}

/// Returns the declaration of an override whose attribute and value are spelled so.
#[tactic(auto, unfolding(crate::specs::DeclaredLines::override_declaration))]
fn override_declaration(
    alloc: Global,
    id: &str,
    name: &str,
    ty: &str,
    value: &str,
) -> Result<String, AllocError>
    ensures { IfOk result (λ text. string_bytes text ≡ override_declaration id.now name.now ty.now value.now) }
{
    format!(in alloc; "{id}override {name}: {ty}{value}")
}

/// Returns the line on an override.
fn override_row(
    alloc: Global,
    module: &Module,
    root: &Value<'_>,
    handle: Handle<mark::Override>,
    item: &Override,
) -> Result<Row, AllocError>
    ensures { IfOk result (λ row. row ≡ override_row (value_view root.now) «module».now (handle, item.now)) }
{
    let interface = Interface(root);
    let id = id_words(alloc, interface.override_id(handle.index()))?;
    let name = item_text(alloc, ItemKind::Override, &item.name, handle.index())?;
    let ty = type_text(alloc, module, item.ty, MOST_NESTED)?;
    let value = value_words(alloc, interface.override_default(handle.index()), item.init)?;
    let declaration = override_declaration(
        alloc,
        id.as_str(),
        name.as_str(),
        ty.as_str(),
        value.as_str(),
    )?;
    Ok(Row::new(declaration, String::new(alloc)))
}

/// Returns a line for each override.
pub(crate) fn override_rows(
    alloc: Global,
    module: &Module,
    root: &Value<'_>,
) -> Result<Vec<Row>, AllocError>
    ensures { IfOk result (λ rows. rows.items ≡ override_rows (value_view root.now) «module».now) }
{
    let mut rows = Vec::new(alloc);
    for (handle, item) in module.overrides.iter() {
        let row = override_row(alloc, module, root, handle, item)?;
        rows.push(row)?;
    }
    Ok(rows)
}
