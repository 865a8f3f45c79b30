//! Prints inputs and outputs of each entry point, and the globals that no entry point uses, as text output.
ghost use Rattle.std.specs.Prelude.{◌≡◌, ◌++◌, IfOk, OnOk, flat_map, string_bytes};
ghost use Rattle.std.specs.List.{enumerate_from};
ghost use Rattle.json.specs.Value.{value_view};
ghost use Rattle.report_places.specs.Words.{body_text};
ghost use Rattle.shader_report_resources.specs.EntryLines.{all_entry_lines, entry_lines, entry_title, idle_row, idle_rows};

use crate::declared_lines::bound_declaration;
use crate::entries::{EntryUses, is_idle};
use crate::listed::listed;
use crate::value_lines::value_rows;
use json::Value;
use report_columns::Row;
use report_places::{BodyPlace, body_text};
use shader_arena::Handle;
use shader_ir::{EntryPoint, GlobalVariable, Module, mark};
use std::alloc::{AllocError, Global};

/// Returns the title of the list on the entry point at a position.
fn entry_title(alloc: Global, module: &Module, place: usize) -> Result<String, AllocError>
    ensures { IfOk result (λ text. string_bytes text ≡ entry_title «module».now place) }
{
    let body = body_text(alloc, module, &BodyPlace::EntryPoint(place))?;
    format!(in alloc; "inputs and outputs of {body}")
}

/// Returns the list on the entry point at a position.
fn entry_lines(
    alloc: Global,
    module: &Module,
    root: &Value<'_>,
    place: usize,
    entry: &EntryPoint,
) -> Result<String, AllocError>
    ensures { IfOk result (λ text. string_bytes text ≡ entry_lines (value_view root.now) «module».now (place, entry.now)) }
{
    let title = entry_title(alloc, module, place)?;
    let rows = value_rows(alloc, module, root, place, &entry.function)?;
    listed(alloc, title.as_str(), rows.as_slice())
}

/// Returns a list for each entry point that has inputs or outputs.
pub(crate) fn all_entry_lines(
    alloc: Global,
    module: &Module,
    root: &Value<'_>,
    entries: &[EntryPoint],
) -> Result<String, AllocError>
    ensures { IfOk result (λ text. string_bytes text ≡ all_entry_lines (value_view root.now) «module».now entries.now) }
{
    let mut text = String::new(alloc);
    let mut place: usize = 0;
    for entry in entries {
        let lines = entry_lines(alloc, module, root, place, entry)?;
        text.push_str(lines.as_str())?;
        place += 1;
    }
    Ok(text)
}

/// Adds the line on a global, if it has a bind group and no entry point uses it.
fn add_idle(
    alloc: Global,
    module: &Module,
    root: &Value<'_>,
    uses: &[EntryUses<'_>],
    rows: &mut Vec<Row>,
    handle: Handle<mark::GlobalVariable>,
    global: &GlobalVariable,
) -> Result<(), AllocError>
    ensures { OnOk result (rows.new.items ≡ rows.old.items
        ++ idle_row (value_view root.now) «module».now uses.now (handle, global.now)) }
{
    if is_idle(root, handle.index(), uses) {
        let declaration = bound_declaration(alloc, module, root, handle.index(), global)?;
        rows.push(Row::new(declaration, String::new(alloc)))?;
    }
    Ok(())
}

/// Returns a line for each global that has a bind group and that no entry point uses.
pub(crate) fn idle_rows(
    alloc: Global,
    module: &Module,
    root: &Value<'_>,
    uses: &[EntryUses<'_>],
) -> Result<Vec<Row>, AllocError>
    ensures { IfOk result (λ rows. rows.items ≡ idle_rows (value_view root.now) «module».now uses.now) }
{
    let mut rows = Vec::new(alloc);
    for (handle, global) in module.global_variables.iter() {
        add_idle(alloc, module, root, uses, &mut rows, handle, global)?;
    }
    Ok(rows)
}
