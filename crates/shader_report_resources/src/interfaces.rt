//! Prints the inputs and outputs of entry points as JSON.
ghost use Rattle.std.specs.Prelude.{◌≡◌, OnOk, flat_map, slice_get};
ghost use Rattle.std.specs.List.{enumerate_from};
ghost use Rattle.json.specs.Value.{value_view};
ghost use Rattle.shader_interface.specs.Interface.{seen};
ghost use Rattle.shader_report_resources.specs.Interfaces.{bound_tokens, input_tokens, inputs_tokens, location_members};
ghost use Rattle.shader_report_resources.specs.Interfaces.{member_value, outputs_tokens, value_tokens};
ghost use Rattle.report_json.specs.Tokens.{Adds};

use crate::tables::write_type_members;
use crate::written::{write_name, write_number, write_text};
use json::{Value, Writer};
use shader_arena::Handle;
use shader_interface::{Binding, Interface};
use shader_ir::{Function, FunctionArgument, Module, Name, StructMember, TypeInner, mark};
use std::alloc::{AllocError, Global};

/// Writes the number and the blend source of a location, and how its value is interpolated.
#[tactic(auto, unfolding(crate::specs::Interfaces::location_members))]
fn write_location(writer: &mut Writer, binding: Binding<'_, '_>) -> Result<(), AllocError>
    ensures { OnOk result (Adds writer.old writer.new (location_members (seen binding.entry.0))) }
{
    write_number(writer, "location", binding.location())?;
    write_number(writer, "blend_src", binding.blend_source())?;
    write_text(writer, "interpolation", binding.interpolation())?;
    write_text(writer, "sampling", binding.sampling())?;
    Ok(())
}

/// Writes a value that is bound.
#[tactic(auto, unfolding(crate::specs::Interfaces::value_tokens))]
fn write_value(
    writer: &mut Writer,
    alloc: Global,
    module: &Module,
    name: &Option<Name>,
    ty: Handle<mark::Type>,
    binding: Binding<'_, '_>,
) -> Result<(), AllocError>
    ensures { OnOk result (Adds writer.old writer.new (value_tokens «module».now name.now ty (seen binding.entry.0))) }
{
    writer.begin_object()?;
    write_name(writer, "name", name)?;
    write_type_members(writer, alloc, module, ty)?;
    write_text(writer, "builtin", binding.builtin())?;
    write_location(writer, binding)?;
    writer.end_object()?;
    Ok(())
}

/// Writes the members of a struct as values, each with its own binding.
fn write_member_values(
    writer: &mut Writer,
    alloc: Global,
    module: &Module,
    root: &Value<'_>,
    ty: Handle<mark::Type>,
    members: &[StructMember],
) -> Result<(), AllocError>
    ensures { OnOk result (Adds writer.old writer.new
        (flat_map (member_value (value_view root.now) «module».now ty) (enumerate_from 0 members.now))) }
{
    let mut index: usize = 0;
    for member in members {
        let binding = Interface(root).member(ty.index(), index);
        write_value(writer, alloc, module, &member.name, member.ty, binding)?;
        index += 1;
    }
    Ok(())
}

/// Writes a value, or the members of a struct.
fn write_bound(
    writer: &mut Writer,
    alloc: Global,
    module: &Module,
    root: &Value<'_>,
    name: &Option<Name>,
    ty: Handle<mark::Type>,
    binding: Binding<'_, '_>,
) -> Result<(), AllocError>
    ensures { OnOk result (Adds writer.old writer.new
        (bound_tokens (value_view root.now) «module».now name.now ty (seen binding.entry.0) (slice_get «module».now.types ty))) }
{
    let Some(found) = module.types.try_get(ty) else {
        return write_value(writer, alloc, module, name, ty, binding);
    };
    match &found.inner {
        TypeInner::Struct { members, .. } => {
            write_member_values(writer, alloc, module, root, ty, members.as_slice())
        }
        _ => write_value(writer, alloc, module, name, ty, binding),
    }
}

/// Writes an argument of an entry point.
fn write_input(
    writer: &mut Writer,
    alloc: Global,
    module: &Module,
    root: &Value<'_>,
    place: usize,
    index: usize,
    argument: &FunctionArgument,
) -> Result<(), AllocError>
    ensures { OnOk result (Adds writer.old writer.new (input_tokens (value_view root.now) «module».now place (index, argument.now))) }
{
    let binding = Interface(root).argument(place, index);
    write_bound(
        writer,
        alloc,
        module,
        root,
        &argument.name,
        argument.ty,
        binding,
    )
}

/// Writes the inputs of the entry point at a position.
pub(crate) fn write_inputs(
    writer: &mut Writer,
    alloc: Global,
    module: &Module,
    root: &Value<'_>,
    place: usize,
    function: &Function,
) -> Result<(), AllocError>
    ensures { OnOk result (Adds writer.old writer.new (inputs_tokens (value_view root.now) «module».now place function.now)) }
{
    let mut index: usize = 0;
    for argument in function.arguments.as_slice() {
        write_input(writer, alloc, module, root, place, index, argument)?;
        index += 1;
    }
    Ok(())
}

/// Writes the outputs of the entry point at a position.
pub(crate) fn write_outputs(
    writer: &mut Writer,
    alloc: Global,
    module: &Module,
    root: &Value<'_>,
    place: usize,
    function: &Function,
) -> Result<(), AllocError>
    ensures { OnOk result (Adds writer.old writer.new (outputs_tokens (value_view root.now) «module».now place function.now)) }
{
    let Some(result) = &function.result else {
        return Ok(());
    };
    let binding = Interface(root).result(place);
    write_bound(writer, alloc, module, root, &None, result.ty, binding)
}
