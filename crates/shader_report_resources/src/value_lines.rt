//! Prints the inputs and outputs of entry points as text output.
ghost use Rattle.std.specs.Prelude.{◌≡◌, ◌++◌, ◌∷◌, [], IfOk, OnOk, map, slice_get, string_bytes};
ghost use Rattle.std.specs.List.{enumerate_from};
ghost use Rattle.std.specs.Option.{option_map};
ghost use Rattle.json.specs.Value.{value_view};
ghost use Rattle.shader_interface.specs.Interface.{seen};
ghost use Rattle.shader_report_resources.specs.ValueLines.{attribute_words, bound_rows, builtin_words, flow_words, input_rows};
ghost use Rattle.shader_report_resources.specs.ValueLines.{inputs_rows, member_row, name_part, number_words, output_rows};
ghost use Rattle.shader_report_resources.specs.ValueLines.{value_row, value_rows};

use crate::builtins::{builtin_text, flow_text};
use json::Value;
use report_columns::Row;
use report_names::{ItemKind, MOST_NESTED, item_text, type_text};
use shader_arena::Handle;
use shader_interface::{Binding, Interface};
use shader_ir::{Function, FunctionArgument, Module, Name, StructMember, TypeInner, mark};
use std::alloc::{AllocError, Global};

/// Returns the attribute of a built-in value, if the binding is one.
fn builtin_words(alloc: Global, builtin: Option<&str>) -> Result<String, AllocError>
    ensures { IfOk result (λ text. string_bytes text ≡ builtin_words (option_map (λ name. name.now) builtin.entry)) }
{
    match builtin {
        Some(builtin) => {
            let word = builtin_text(alloc, builtin)?;
            format!(in alloc; "@builtin({word}) ")
        }
        None => Ok(String::new(alloc)),
    }
}

/// Returns an attribute with a number, if there is one.
fn number_words(alloc: Global, attribute: &str, number: Option<u32>) -> Result<String, AllocError>
    ensures { IfOk result (λ text. string_bytes text ≡ number_words attribute.now number) }
{
    match number {
        Some(number) => format!(in alloc; "@{attribute}({number}) "),
        None => Ok(String::new(alloc)),
    }
}

/// Returns the attributes by which a value is bound, each with a blank behind it.
#[tactic(auto, unfolding(crate::specs::ValueLines::attribute_words))]
fn attribute_words(alloc: Global, binding: Binding<'_, '_>) -> Result<String, AllocError>
    ensures { IfOk result (λ text. string_bytes text ≡ attribute_words (seen binding.entry.0)) }
{
    let builtin = builtin_words(alloc, binding.builtin())?;
    let location = number_words(alloc, "location", binding.location())?;
    let blend_source = number_words(alloc, "blend_src", binding.blend_source())?;
    format!(in alloc; "{builtin}{location}{blend_source}")
}

/// Returns how and where in a pixel a value is interpolated, as far as the module says it.
fn flow_words(
    alloc: Global,
    interpolation: Option<&str>,
    sampling: Option<&str>,
) -> Result<String, AllocError>
    ensures { IfOk result (λ text. string_bytes text ≡
        flow_words (option_map (λ word. word.now) interpolation.entry) (option_map (λ word. word.now) sampling.entry)) }
{
    let Some(interpolation) = interpolation else {
        return match sampling {
            Some(sampling) => flow_text(alloc, sampling),
            None => Ok(String::new(alloc)),
        };
    };
    let interpolation = flow_text(alloc, interpolation)?;
    match sampling {
        Some(sampling) => {
            let sampling = flow_text(alloc, sampling)?;
            format!(in alloc; "{interpolation}, {sampling}")
        }
        None => Ok(interpolation),
    }
}

/// Returns the name of a value, or its number, in front of its type.
fn name_part(
    alloc: Global,
    kind: ItemKind,
    name: &Option<Name>,
    position: usize,
) -> Result<String, AllocError>
    ensures { IfOk result (λ text. string_bytes text ≡ name_part kind name.now position) }
{
    let name = item_text(alloc, kind, name, position)?;
    format!(in alloc; "{name}: ")
}

/// Adds the line on a value. `way` is `in` or `out`, and `name` what stands in front of the type.
#[tactic(auto, unfolding(crate::specs::ValueLines::value_row))]
fn add_value(
    alloc: Global,
    module: &Module,
    rows: &mut Vec<Row>,
    way: &str,
    name: &str,
    ty: Handle<mark::Type>,
    binding: Binding<'_, '_>,
) -> Result<(), AllocError>
    ensures { OnOk result (rows.new.items ≡ rows.old.items
        ++ value_row «module».now way.now name.now ty (seen binding.entry.0) ∷ []) }
{
    let attributes = attribute_words(alloc, binding)?;
    let ty = type_text(alloc, module, ty, MOST_NESTED)?;
    let value = format!(in alloc; "{attributes}{name}{ty}")?;
    let first = format!(in alloc; "{way} {value}")?;
    let second = flow_words(alloc, binding.interpolation(), binding.sampling())?;
    rows.push(Row::new(first, second))?;
    Ok(())
}

/// Adds the lines on the members of a struct, each with its own binding.
fn add_members(
    alloc: Global,
    module: &Module,
    root: &Value<'_>,
    rows: &mut Vec<Row>,
    way: &str,
    ty: Handle<mark::Type>,
    members: &[StructMember],
) -> Result<(), AllocError>
    ensures { OnOk result (rows.new.items ≡ rows.old.items
        ++ map (member_row (value_view root.now) «module».now way.now ty) (enumerate_from 0 members.now)) }
{
    let mut index: usize = 0;
    for member in members {
        let binding = Interface(root).member(ty.index(), index);
        let name = name_part(alloc, ItemKind::Member, &member.name, index)?;
        add_value(alloc, module, rows, way, name.as_str(), member.ty, binding)?;
        index += 1;
    }
    Ok(())
}

/// Adds the line on a value, or the lines on the members of a struct.
fn add_bound(
    alloc: Global,
    module: &Module,
    root: &Value<'_>,
    rows: &mut Vec<Row>,
    way: &str,
    name: &str,
    ty: Handle<mark::Type>,
    binding: Binding<'_, '_>,
) -> Result<(), AllocError>
    ensures { OnOk result (rows.new.items ≡ rows.old.items ++ bound_rows (value_view root.now) «module».now way.now name.now ty
        (seen binding.entry.0) (slice_get «module».now.types ty)) }
{
    let Some(found) = module.types.try_get(ty) else {
        return add_value(alloc, module, rows, way, name, ty, binding);
    };
    match &found.inner {
        TypeInner::Struct { members, .. } => {
            add_members(alloc, module, root, rows, way, ty, members.as_slice())
        }
        _ => add_value(alloc, module, rows, way, name, ty, binding),
    }
}

/// Adds the lines on an argument of an entry point.
fn add_input(
    alloc: Global,
    module: &Module,
    root: &Value<'_>,
    rows: &mut Vec<Row>,
    place: usize,
    index: usize,
    argument: &FunctionArgument,
) -> Result<(), AllocError>
    ensures { OnOk result (rows.new.items ≡ rows.old.items
        ++ input_rows (value_view root.now) «module».now place (index, argument.now)) }
{
    let binding = Interface(root).argument(place, index);
    let name = name_part(alloc, ItemKind::Argument, &argument.name, index)?;
    let name = name.as_str();
    add_bound(alloc, module, root, rows, "in ", name, argument.ty, binding)
}

/// Adds the lines on the inputs of the entry point at a position.
fn add_inputs(
    alloc: Global,
    module: &Module,
    root: &Value<'_>,
    rows: &mut Vec<Row>,
    place: usize,
    arguments: &[FunctionArgument],
) -> Result<(), AllocError>
    ensures { OnOk result (rows.new.items ≡ rows.old.items
        ++ inputs_rows (value_view root.now) «module».now place arguments.now) }
{
    let mut index: usize = 0;
    for argument in arguments {
        add_input(alloc, module, root, rows, place, index, argument)?;
        index += 1;
    }
    Ok(())
}

/// Adds the lines on the result of the entry point at a position.
fn add_output(
    alloc: Global,
    module: &Module,
    root: &Value<'_>,
    rows: &mut Vec<Row>,
    place: usize,
    function: &Function,
) -> Result<(), AllocError>
    ensures { OnOk result (rows.new.items ≡ rows.old.items
        ++ output_rows (value_view root.now) «module».now place function.now.result) }
{
    let Some(result) = &function.result else {
        return Ok(());
    };
    let binding = Interface(root).result(place);
    add_bound(alloc, module, root, rows, "out", "", result.ty, binding)
}

/// Returns the lines on the inputs and the outputs of the entry point at a position.
pub(crate) fn value_rows(
    alloc: Global,
    module: &Module,
    root: &Value<'_>,
    place: usize,
    function: &Function,
) -> Result<Vec<Row>, AllocError>
    ensures { IfOk result (λ rows. rows.items ≡ value_rows (value_view root.now) «module».now place function.now) }
{
    let mut rows = Vec::new(alloc);
    add_inputs(
        alloc,
        module,
        root,
        &mut rows,
        place,
        function.arguments.as_slice(),
    )?;
    add_output(alloc, module, root, &mut rows, place, function)?;
    Ok(rows)
}
