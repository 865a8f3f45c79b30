//! Prints entry points, and the globals that they use, as JSON.
ghost use Rattle.std.specs.Prelude.{◌≡◌, IfOk, OnOk, flat_map, length, [], ◌∷◌};
ghost use Rattle.std.specs.List.{enumerate_from, list_any};
ghost use Rattle.json.specs.Value.{value_view};
ghost use Rattle.shader_report_resources.specs.Entries.{AddsUses, AreUses, access_members, all_idle_tokens, axes_tokens, bound_members};
ghost use Rattle.shader_report_resources.specs.Entries.{entries_tokens, entry_tokens, is_idle, is_used, is_used_by, pair_tokens};
ghost use Rattle.shader_report_resources.specs.Entries.{size_members, stage_word, use_tokens, used_tokens, uses_members};
ghost use Rattle.report_json.specs.Tokens.{Adds};
ghost use Rattle.shader_report_resources.specs.Written.{number_or_null};

use crate::interfaces::{write_inputs, write_outputs};
use crate::written::write_text;
use json::{Value, Writer};
use shader_analysis::ModuleInfo;
use shader_info::{FunctionInfo, GlobalUse};
use shader_interface::Interface;
use shader_ir::{EntryPoint, Items, Module, ShaderStage};
use std::alloc::{AllocError, Global};

/// An entry point, its info, and the pairs of images and samplers that it samples together, ascending.
#[derive(Drop)]
pub(crate) struct EntryUses<'a> {
    pub entry: &'a EntryPoint,
    pub info: &'a FunctionInfo,
    pub pairs: Items<(usize, usize)>,
}

/// Adds the uses of an entry point.
fn add_uses<'a>(
    alloc: Global,
    entry: &'a EntryPoint,
    info: &'a FunctionInfo,
    uses: &mut Vec<EntryUses<'a>>,
) -> Result<(), AllocError>
    ensures { OnOk result (AddsUses entry.now info.now uses.old.items uses.new.items) }
{
    let pairs = info.sorted_pairs(alloc)?;
    uses.push(EntryUses { entry, info, pairs })?;
    Ok(())
}

/// Returns the uses of all entry points.
pub(crate) fn uses_of<'a>(
    alloc: Global,
    module: &'a Module,
    infos: &'a ModuleInfo,
) -> Result<Vec<EntryUses<'a>>, AllocError>
    requires { length infos.now.entry_points ≡ length «module».now.entry_points }
    ensures { IfOk result (λ uses. AreUses «module».now.entry_points infos.now.entry_points uses.items) }
{
    let mut uses = Vec::new(alloc);
    for index in 0..module.entry_points.len() {
        let entry = &module.entry_points[index];
        add_uses(alloc, entry, infos.get_entry_point(index), &mut uses)?;
    }
    Ok(uses)
}

/// Returns whether a global is used in some way.
fn is_used(uses: GlobalUse) -> bool
    ensures { result ≡ is_used uses }
{
    uses.0 != 0
}

/// Writes in which ways a global is used.
#[tactic(auto, unfolding(crate::specs::Entries::access_members))]
fn write_access(writer: &mut Writer, uses: GlobalUse) -> Result<(), AllocError>
    ensures { OnOk result (Adds writer.old writer.new (access_members uses)) }
{
    let bits = uses.0;
    writer.key("read")?;
    writer.boolean(bits & 1 == 1)?;
    writer.key("write")?;
    writer.boolean(bits & 2 == 2)?;
    writer.key("query")?;
    writer.boolean(bits & 4 == 4)?;
    writer.key("atomic")?;
    writer.boolean(bits & 8 == 8)?;
    Ok(())
}

/// Writes the use of the global at a position.
#[tactic(auto, unfolding(crate::specs::Entries::used_tokens))]
fn write_used(writer: &mut Writer, position: usize, uses: GlobalUse) -> Result<(), AllocError>
    ensures { OnOk result (Adds writer.old writer.new (used_tokens position uses)) }
{
    writer.begin_object()?;
    writer.key("global")?;
    writer.u64(position as u64)?;
    write_access(writer, uses)?;
    writer.end_object()?;
    Ok(())
}

/// Writes the use of the global at a position, if it is used.
fn write_use(writer: &mut Writer, position: usize, uses: GlobalUse) -> Result<(), AllocError>
    ensures { OnOk result (Adds writer.old writer.new (use_tokens (position, uses))) }
{
    if is_used(uses) {
        write_used(writer, position, uses)
    } else {
        Ok(())
    }
}

/// Writes the uses of the globals that are used.
fn write_each_use(writer: &mut Writer, uses: &[GlobalUse]) -> Result<(), AllocError>
    ensures { OnOk result (Adds writer.old writer.new (flat_map use_tokens (enumerate_from 0 uses.now))) }
{
    let mut index: usize = 0;
    for used in uses {
        write_use(writer, index, *used)?;
        index += 1;
    }
    Ok(())
}

/// Writes an image and a sampler with which it is sampled.
#[tactic(auto, unfolding(crate::specs::Entries::pair_tokens))]
fn write_pair(writer: &mut Writer, pair: (usize, usize)) -> Result<(), AllocError>
    ensures { OnOk result (Adds writer.old writer.new (pair_tokens pair)) }
{
    writer.begin_object()?;
    writer.key("image")?;
    writer.u64(pair.0 as u64)?;
    writer.key("sampler")?;
    writer.u64(pair.1 as u64)?;
    writer.end_object()?;
    Ok(())
}

/// Writes images and samplers with which they are sampled.
fn write_pairs(writer: &mut Writer, pairs: &[(usize, usize)]) -> Result<(), AllocError>
    ensures { OnOk result (Adds writer.old writer.new (flat_map pair_tokens pairs.now)) }
{
    for pair in pairs {
        write_pair(writer, *pair)?;
    }
    Ok(())
}

/// Writes the globals that an entry point uses, and those that it samples together.
#[tactic(auto, unfolding(crate::specs::Entries::uses_members))]
fn write_uses(writer: &mut Writer, uses: &EntryUses<'_>) -> Result<(), AllocError>
    ensures { OnOk result (Adds writer.old writer.new (uses_members uses.now)) }
{
    writer.key("uses")?;
    writer.begin_array()?;
    write_each_use(writer, uses.info.global_uses.as_slice())?;
    writer.end_array()?;
    writer.key("sampled")?;
    writer.begin_array()?;
    write_pairs(writer, uses.pairs.as_slice())?;
    writer.end_array()?;
    Ok(())
}

/// Returns the name of a stage.
fn stage_word(stage: ShaderStage) -> &'static str
    ensures { result.now ≡ stage_word stage }
{
    match stage {
        ShaderStage::Vertex => "vertex",
        ShaderStage::Fragment => "fragment",
        ShaderStage::Compute => "compute",
        ShaderStage::Mesh => "mesh",
        ShaderStage::Task => "task",
    }
}

/// Writes a number, or null.
fn write_optional(writer: &mut Writer, number: Option<u32>) -> Result<(), AllocError>
    ensures { OnOk result (Adds writer.old writer.new (number_or_null number ∷ [])) }
{
    match number {
        Some(number) => writer.u64(number as u64),
        None => writer.null(),
    }
}

/// Writes a number along each of the three axes.
#[tactic(auto, unfolding(crate::specs::Entries::axes_tokens))]
fn write_axes(
    writer: &mut Writer,
    name: &str,
    x: Option<u32>,
    y: Option<u32>,
    z: Option<u32>,
) -> Result<(), AllocError>
    ensures { OnOk result (Adds writer.old writer.new (axes_tokens name.now x y z)) }
{
    writer.key(name)?;
    writer.begin_array()?;
    write_optional(writer, x)?;
    write_optional(writer, y)?;
    write_optional(writer, z)?;
    writer.end_array()?;
    Ok(())
}

/// Writes the size of an entry point's work groups, and which global expressions give it.
#[tactic(auto, unfolding(crate::specs::Entries::size_members))]
fn write_size(writer: &mut Writer, root: &Value<'_>, place: usize) -> Result<(), AllocError>
    ensures { OnOk result (Adds writer.old writer.new (size_members (value_view root.now) place)) }
{
    let interface = Interface(root);
    let x = interface.workgroup_size(place, 0);
    let y = interface.workgroup_size(place, 1);
    let z = interface.workgroup_size(place, 2);
    write_axes(writer, "workgroup_size", x, y, z)?;
    let x = interface.workgroup_override(place, 0);
    let y = interface.workgroup_override(place, 1);
    let z = interface.workgroup_override(place, 2);
    write_axes(writer, "workgroup_overrides", x, y, z)?;
    Ok(())
}

/// Writes the inputs and outputs of an entry point.
#[tactic(auto, unfolding(crate::specs::Entries::bound_members))]
fn write_bound_members(
    writer: &mut Writer,
    alloc: Global,
    module: &Module,
    root: &Value<'_>,
    place: usize,
    entry: &EntryPoint,
) -> Result<(), AllocError>
    ensures { OnOk result (Adds writer.old writer.new (bound_members (value_view root.now) «module».now place entry.now)) }
{
    writer.key("inputs")?;
    writer.begin_array()?;
    write_inputs(writer, alloc, module, root, place, &entry.function)?;
    writer.end_array()?;
    writer.key("outputs")?;
    writer.begin_array()?;
    write_outputs(writer, alloc, module, root, place, &entry.function)?;
    writer.end_array()?;
    Ok(())
}

/// Writes the entry point at a position in the list of all.
#[tactic(auto, unfolding(crate::specs::Entries::entry_tokens))]
fn write_entry(
    writer: &mut Writer,
    alloc: Global,
    module: &Module,
    root: &Value<'_>,
    place: usize,
    uses: &EntryUses<'_>,
) -> Result<(), AllocError>
    ensures { OnOk result (Adds writer.old writer.new (entry_tokens (value_view root.now) «module».now (place, uses.now))) }
{
    writer.begin_object()?;
    write_text(writer, "name", Some(uses.entry.name.as_str()))?;
    write_text(writer, "stage", Some(stage_word(uses.entry.stage)))?;
    write_size(writer, root, place)?;
    write_uses(writer, uses)?;
    write_bound_members(writer, alloc, module, root, place, uses.entry)?;
    writer.end_object()?;
    Ok(())
}

/// Writes all entry points.
pub(crate) fn write_entries(
    writer: &mut Writer,
    alloc: Global,
    module: &Module,
    root: &Value<'_>,
    uses: &[EntryUses<'_>],
) -> Result<(), AllocError>
    ensures { OnOk result (Adds writer.old writer.new (entries_tokens (value_view root.now) «module».now uses.now)) }
{
    let mut place: usize = 0;
    for of in uses {
        write_entry(writer, alloc, module, root, place, of)?;
        place += 1;
    }
    Ok(())
}

/// Returns whether an entry point uses the global at a position.
fn is_used_by(position: usize, uses: &EntryUses<'_>) -> bool
    ensures { result ≡ is_used_by position uses.now }
{
    match uses.info.global_uses.as_slice().get(position) {
        Some(used) => is_used(*used),
        None => false,
    }
}

/// Returns whether some entry point uses the global at a position.
fn is_used_by_any(position: usize, uses: &[EntryUses<'_>]) -> bool
    ensures { result ≡ list_any (is_used_by position) uses.now }
{
    uses.iter().any(|of| is_used_by(position, of))
}

/// Returns whether the global at a position has a bind group, and no entry point uses it.
pub(crate) fn is_idle(root: &Value<'_>, position: usize, uses: &[EntryUses<'_>]) -> bool
    ensures { result ≡ is_idle (value_view root.now) uses.now position }
{
    let is_bound = Interface(root).group(position).is_some();
    is_bound && !is_used_by_any(position, uses)
}

/// Writes the positions of the globals that have a bind group and that no entry point uses.
pub(crate) fn write_idle(
    writer: &mut Writer,
    module: &Module,
    root: &Value<'_>,
    uses: &[EntryUses<'_>],
) -> Result<(), AllocError>
    ensures { OnOk result (Adds writer.old writer.new
        (all_idle_tokens (value_view root.now) uses.now «module».now.global_variables)) }
{
    for (handle, _) in module.global_variables.iter() {
        if is_idle(root, handle.index(), uses) {
            writer.u64(handle.index() as u64)?;
        }
    }
    Ok(())
}
