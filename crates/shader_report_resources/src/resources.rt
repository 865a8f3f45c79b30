//! The resources of a module.
ghost use Rattle.std.specs.Prelude.{◌≡◌, ◌++◌, List, IfOk, OnOk, length, string_bytes};
ghost use Rattle.json.specs.Token.{Token};
ghost use Rattle.json.specs.Value.{value_view};
ghost use Rattle.report_model.specs.Fitting.{HasInfos};
ghost use Rattle.shader_report_resources.specs.Entries.{AreUses, all_idle_tokens, entries_tokens};
ghost use Rattle.shader_report_resources.specs.Resources.{AreResources, AreResourcesLines, declared_lines, declared_tokens, idle_lines};
ghost use Rattle.shader_report_resources.specs.Resources.{used_lines};
ghost use Rattle.shader_report_resources.specs.Resources.{resources_lines, resources_tokens, used_tokens};
ghost use Rattle.shader_report_resources.specs.Tables.{globals_tokens, overrides_tokens, types_tokens};
ghost use Rattle.report_json.specs.Tokens.{Adds};

use crate::declared_lines::{global_rows, override_rows};
use crate::entries::{EntryUses, uses_of, write_entries, write_idle};
use crate::entry_lines::{all_entry_lines, idle_rows};
use crate::listed::listed;
use crate::tables::{write_globals, write_overrides, write_types};
use json::{Value, Writer};
use shader_analysis::ModuleInfo;
use shader_ir::Module;
use shader_ir::proc::Layouter;
use std::alloc::{AllocError, Global};

/// Writes the types, the globals and the overrides.
#[tactic(auto, unfolding(crate::specs::Resources::declared_tokens))]
fn write_declared(
    writer: &mut Writer,
    alloc: Global,
    module: &Module,
    root: &Value<'_>,
    layouter: &Layouter,
) -> Result<(), AllocError>
    requires { length layouter.now ≡ length «module».now.types }
    ensures { OnOk result (Adds writer.old writer.new (declared_tokens (value_view root.now) «module».now layouter.now)) }
{
    writer.key("types")?;
    writer.begin_array()?;
    write_types(writer, alloc, module, layouter)?;
    writer.end_array()?;
    writer.key("globals")?;
    writer.begin_array()?;
    write_globals(writer, alloc, module, root)?;
    writer.end_array()?;
    writer.key("overrides")?;
    writer.begin_array()?;
    write_overrides(writer, alloc, module, root)?;
    writer.end_array()?;
    Ok(())
}

/// Writes the entry points, and the resources that none of them uses.
#[tactic(auto, unfolding(crate::specs::Resources::used_tokens))]
fn write_used(
    writer: &mut Writer,
    alloc: Global,
    module: &Module,
    root: &Value<'_>,
    uses: &[EntryUses<'_>],
) -> Result<(), AllocError>
    ensures { OnOk result (Adds writer.old writer.new (used_tokens (value_view root.now) «module».now uses.now)) }
{
    writer.key("entry_points")?;
    writer.begin_array()?;
    write_entries(writer, alloc, module, root, uses)?;
    writer.end_array()?;
    writer.key("unused")?;
    writer.begin_array()?;
    write_idle(writer, module, root, uses)?;
    writer.end_array()?;
    Ok(())
}

/// Writes the resources by the uses of globals.
#[tactic(auto, unfolding(crate::specs::Resources::resources_tokens))]
fn write_object(
    writer: &mut Writer,
    alloc: Global,
    module: &Module,
    root: &Value<'_>,
    layouter: &Layouter,
    uses: &[EntryUses<'_>],
) -> Result<(), AllocError>
    requires { length layouter.now ≡ length «module».now.types }
    ensures { OnOk result (Adds writer.old writer.new
        (resources_tokens (value_view root.now) «module».now layouter.now uses.now)) }
{
    writer.begin_object()?;
    write_declared(writer, alloc, module, root, layouter)?;
    write_used(writer, alloc, module, root, uses)?;
    writer.end_object()?;
    Ok(())
}

/// Returns two texts, one behind the other.
fn joined(alloc: Global, first: &str, second: &str) -> Result<String, AllocError>
    ensures { IfOk result (λ text. string_bytes text ≡ first.now ++ second.now) }
{
    format!(in alloc; "{first}{second}")
}

/// Returns the lists of globals and of overrides.
#[tactic(auto, unfolding(crate::specs::Resources::declared_lines))]
fn declared_lines(
    alloc: Global,
    module: &Module,
    root: &Value<'_>,
    layouter: &Layouter,
) -> Result<String, AllocError>
    requires { length layouter.now ≡ length «module».now.types }
    ensures { IfOk result (λ text. string_bytes text ≡ declared_lines (value_view root.now) «module».now layouter.now) }
{
    let globals = global_rows(alloc, module, root, layouter)?;
    let globals = listed(alloc, "global variables", globals.as_slice())?;
    let overrides = override_rows(alloc, module, root)?;
    let overrides = listed(alloc, "overrides", overrides.as_slice())?;
    joined(alloc, globals.as_str(), overrides.as_str())
}

/// Returns the list of globals that no entry point uses.
#[tactic(auto, unfolding(crate::specs::Resources::idle_lines))]
fn idle_lines(
    alloc: Global,
    module: &Module,
    root: &Value<'_>,
    uses: &[EntryUses<'_>],
) -> Result<String, AllocError>
    ensures { IfOk result (λ text. string_bytes text ≡ idle_lines (value_view root.now) «module».now uses.now) }
{
    let idle = idle_rows(alloc, module, root, uses)?;
    listed(alloc, "used by no entry point", idle.as_slice())
}

/// Returns the lists of inputs and outputs of entry points, and of globals that no entry point uses.
#[tactic(auto, unfolding(crate::specs::Resources::used_lines))]
fn used_lines(
    alloc: Global,
    module: &Module,
    root: &Value<'_>,
    uses: &[EntryUses<'_>],
) -> Result<String, AllocError>
    ensures { IfOk result (λ text. string_bytes text ≡ used_lines (value_view root.now) «module».now uses.now) }
{
    let entries = all_entry_lines(alloc, module, root, module.entry_points.as_slice())?;
    let idle = idle_lines(alloc, module, root, uses)?;
    joined(alloc, entries.as_str(), idle.as_str())
}

/// Returns all lists.
#[tactic(auto, unfolding(crate::specs::Resources::resources_lines))]
fn lines_by(
    alloc: Global,
    module: &Module,
    root: &Value<'_>,
    layouter: &Layouter,
    uses: &[EntryUses<'_>],
) -> Result<String, AllocError>
    requires { length layouter.now ≡ length «module».now.types }
    ensures { IfOk result (λ text. string_bytes text ≡ resources_lines (value_view root.now) «module».now layouter.now uses.now) }
{
    let declared = declared_lines(alloc, module, root, layouter)?;
    let used = used_lines(alloc, module, root, uses)?;
    joined(alloc, declared.as_str(), used.as_str())
}

/// Writes the resources of a module as a JSON object, by its layouts and infos.
///
/// `root` is the JSON of the module, which has declarations that the IR leaves out.
///
/// # Errors
///
/// `AllocError` if an allocation fails.
pub fn write_resources(
    writer: &mut Writer,
    alloc: Global,
    module: &Module,
    root: &Value<'_>,
    layouter: &Layouter,
    infos: &ModuleInfo,
) -> Result<(), AllocError>
    requires layouts { length layouter.now ≡ length «module».now.types }
    requires infos { HasInfos «module».now infos.now }
    ensures { OnOk result ((tokens : List Token)
        × AreResources (value_view root.now) «module».now layouter.now infos.now tokens × Adds writer.old writer.new tokens) }
{
    let uses = uses_of(alloc, module, infos)?;
    write_object(writer, alloc, module, root, layouter, uses.as_slice())
}

/// Returns the resources of a module as lists for text output, by its layouts and infos. An empty line and a title stand before each.
///
/// `root` is the JSON of the module.
///
/// # Errors
///
/// `AllocError` if an allocation fails.
pub fn resources_lines(
    alloc: Global,
    module: &Module,
    root: &Value<'_>,
    layouter: &Layouter,
    infos: &ModuleInfo,
) -> Result<String, AllocError>
    requires layouts { length layouter.now ≡ length «module».now.types }
    requires infos { HasInfos «module».now infos.now }
    ensures { IfOk result (λ text.
        AreResourcesLines (value_view root.now) «module».now layouter.now infos.now (string_bytes text)) }
{
    let uses = uses_of(alloc, module, infos)?;
    lines_by(alloc, module, root, layouter, uses.as_slice())
}
