//! The first line of a block: an entry point with the size of its work groups, or a function.
ghost use Rattle.std.specs.Prelude.{◌≡◌, IfOk, string_bytes};
ghost use Rattle.report_summary.specs.Headings.{axis_text, expression_text, group_part, group_text, has_groups, heading};
ghost use Rattle.report_summary.specs.Headings.{is_axis_known, is_known};

use report_names::{ItemKind, number_text, override_text};
use report_places::{body_text, place_of_body};
use shader_arena::Handle;
use shader_interface::{AxisSize, WorkgroupSize};
use shader_ir::{Expression, Module, ShaderStage, mark};
use shader_uniformity::BodyLocation;
use std::alloc::{AllocError, Global};

/// Returns a global expression that is a size: an override, or another one by its number.
fn expression_text(
    alloc: Global,
    module: &Module,
    handle: Handle<mark::Expression>,
) -> Result<String, AllocError>
    ensures { IfOk result (λ text. string_bytes text ≡ expression_text «module».now handle) }
{
    match module.global_expressions.try_get(handle) {
        Some(Expression::Override(found)) => override_text(alloc, module, *found),
        _ => number_text(alloc, ItemKind::Expression, handle.index()),
    }
}

/// Returns the number of a work group's invocations along an axis.
fn axis_text(alloc: Global, module: &Module, axis: AxisSize) -> Result<String, AllocError>
    ensures { IfOk result (λ text. string_bytes text ≡ axis_text «module».now axis) }
{
    match axis {
        AxisSize::Count(count) => format!(in alloc; "{count}"),
        AxisSize::Expression(expression) => {
            expression_text(alloc, module, Handle::from_index(expression))
        }
        AxisSize::Unknown => String::from_str(alloc, "?"),
    }
}

/// Returns the size of work groups, behind a comma.
fn group_text(alloc: Global, module: &Module, group: WorkgroupSize) -> Result<String, AllocError>
    ensures { IfOk result (λ text. string_bytes text ≡ group_text «module».now group) }
{
    let x = axis_text(alloc, module, group.x)?;
    let y = axis_text(alloc, module, group.y)?;
    let z = axis_text(alloc, module, group.z)?;
    format!(in alloc; ", workgroups of {x} x {y} x {z}")
}

/// Returns whether the invocations of a stage are in work groups.
fn has_groups(stage: ShaderStage) -> bool
    ensures { result ≡ has_groups stage }
{
    match stage {
        ShaderStage::Vertex | ShaderStage::Fragment => false,
        ShaderStage::Compute | ShaderStage::Mesh | ShaderStage::Task => true,
    }
}

/// Returns whether the number along an axis is known.
fn is_axis_known(axis: AxisSize) -> bool
    ensures { result ≡ is_axis_known axis }
{
    match axis {
        AxisSize::Count(_) | AxisSize::Expression(_) => true,
        AxisSize::Unknown => false,
    }
}

/// Returns whether the numbers along all axes are known.
fn is_known(group: WorkgroupSize) -> bool
    ensures { result ≡ is_known group }
{
    is_axis_known(group.x) && is_axis_known(group.y) && is_axis_known(group.z)
}

/// Returns the size of the work groups of an entry point, behind a comma, or an empty text if it has none or the size isn't known.
fn group_part(
    alloc: Global,
    module: &Module,
    groups: &[WorkgroupSize],
    location: BodyLocation,
) -> Result<String, AllocError>
    ensures { IfOk result (λ text. string_bytes text ≡ group_part «module».now groups.now location) }
{
    let BodyLocation::EntryPoint(index) = location else {
        return Ok(String::new(alloc));
    };
    let Some(point) = module.entry_points.as_slice().get(index) else {
        return Ok(String::new(alloc));
    };
    let Some(group) = groups.get(index) else {
        return Ok(String::new(alloc));
    };
    if has_groups(point.stage) && is_known(*group) {
        group_text(alloc, module, *group)
    } else {
        Ok(String::new(alloc))
    }
}

/// Returns the line that names a function or an entry point. `groups` has the sizes of the work groups of the first entry points.
pub fn heading(
    alloc: Global,
    module: &Module,
    groups: &[WorkgroupSize],
    location: BodyLocation,
) -> Result<String, AllocError>
    ensures { IfOk result (λ text. string_bytes text ≡ heading «module».now groups.now location) }
{
    let place = place_of_body(location);
    let body = body_text(alloc, module, &place)?;
    let group = group_part(alloc, module, groups, location)?;
    format!(in alloc; "{body}{group}\n")
}
