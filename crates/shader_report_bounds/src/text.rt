//! Bounds checks as text output.
ghost use Rattle.std.specs.Prelude.{◌≡◌, IfOk, string_bytes};
ghost use Rattle.std.specs.Option.{option_copied};
ghost use Rattle.shader_report_bounds.specs.Texts.{AreBlocks, IsBlock, IsBoundsText, IsOnFunction, IsOnPlace, is_free};
ghost use Rattle.shader_report_bounds.specs.Texts.{place_of, policies_line, policies_words, unsized_lines, unsized_words};

use crate::checks::check_rows;
use crate::function::FunctionBounds;
use crate::listed::{checked_line, locals_line};
use crate::module_bounds::ModuleBounds;
use crate::written::policy_name;
use report_columns::rows_text;
use report_expressions::Makers;
use report_names::override_text;
use report_places::{BodyPlace, body_text, function_of};
use shader_arena::Handle;
use shader_bounds::BoundsCheckPolicies;
use shader_ir::{Function, Module, mark};
use std::alloc::{AllocError, Global};

/// Returns the first line, behind an empty line, given the names of the policies.
#[tactic(auto, unfolding(crate::specs::Texts::policies_words))]
fn policies_words(
    alloc: Global,
    index: &str,
    buffer: &str,
    image_load: &str,
    binding_array: &str,
) -> Result<String, AllocError>
    ensures { IfOk result (λ text. string_bytes text ≡ policies_words index.now buffer.now image_load.now binding_array.now) }
{
    format!(in alloc;
        "\nbounds checks: index {index}, buffer {buffer}, image_load {image_load}, binding_array {binding_array}\n"
    )
}

/// Returns the first line, behind an empty line: the policies.
fn policies_line(alloc: Global, policies: BoundsCheckPolicies) -> Result<String, AllocError>
    ensures { IfOk result (λ text. string_bytes text ≡ policies_line policies) }
{
    policies_words(
        alloc,
        policy_name(policies.index),
        policy_name(policies.buffer),
        policy_name(policies.image_load),
        policy_name(policies.binding_array),
    )
}

/// Returns the lines on an override that is to be given a value before lengths are known, by its name.
#[tactic(auto, unfolding(crate::specs::Texts::unsized_words))]
fn unsized_words(alloc: Global, name: &str) -> Result<String, AllocError>
    ensures { IfOk result (λ text. string_bytes text ≡ unsized_words name.now) }
{
    format!(in alloc;
        "  unknown: `{name}` sizes an array and has no value above 0 that is known here\n  help: give `{name}` a literal value above 0\n"
    )
}

/// Returns the lines on an override that is to be given a value before lengths are known.
fn unsized_lines(
    alloc: Global,
    module: &Module,
    handle: Handle<mark::Override>,
) -> Result<String, AllocError>
    ensures { IfOk result (λ text. string_bytes text ≡ unsized_lines «module».now handle) }
{
    let name = override_text(alloc, module, handle)?;
    unsized_words(alloc, name.as_str())
}

/// Returns whether there is nothing to say of a function.
fn is_free(bounds: &FunctionBounds) -> bool
    ensures { result ≡ is_free bounds.now }
{
    bounds.accesses.is_empty() && bounds.checked_indexes.is_empty() && bounds.local_types.is_empty()
}

/// Returns the block on a function that has checks.
fn block_of<'a>(
    alloc: Global,
    module: &'a Module,
    place: &BodyPlace,
    function: &'a Function,
    bounds: &FunctionBounds,
) -> Result<String, AllocError>
    ensures { IfOk result (λ text. IsBlock «module».now place.now function.now bounds.now (string_bytes text)) }
{
    let heading = body_text(alloc, module, place)?;
    let makers = Makers::of(alloc, function)?;
    let rows = check_rows(alloc, module, function, &makers, bounds.accesses.as_slice())?;
    let lines = rows_text(alloc, rows.as_slice())?;
    let positions = bounds.checked_indexes.as_slice();
    let checked = checked_line(alloc, module, function, &makers, positions)?;
    let locals = locals_line(alloc, module, bounds.local_types.as_slice())?;
    format!(in alloc; "\n{heading}\n{lines}{checked}{locals}")
}

/// Returns the block on a function, or an empty text if it has no checks.
fn on_function<'a>(
    alloc: Global,
    module: &'a Module,
    place: &BodyPlace,
    function: Option<&'a Function>,
    bounds: Option<&FunctionBounds>,
) -> Result<String, AllocError>
    ensures { IfOk result (λ text. IsOnFunction «module».now place.now (option_copied function.entry) (option_copied bounds.entry)
        (string_bytes text)) }
{
    let Some(function) = function else {
        return Ok(String::new(alloc));
    };
    let Some(bounds) = bounds else {
        return Ok(String::new(alloc));
    };
    if is_free(bounds) {
        return Ok(String::new(alloc));
    }
    block_of(alloc, module, place, function, bounds)
}

/// Returns the entry point, or the function, of a number.
fn place_of(is_entry_point: bool, index: usize) -> BodyPlace
    ensures { result ≡ place_of is_entry_point index }
{
    if is_entry_point {
        BodyPlace::EntryPoint(index)
    } else {
        BodyPlace::Function(index)
    }
}

/// Returns the block on the entry point, or the function, of a number.
fn on_place(
    alloc: Global,
    module: &Module,
    is_entry_point: bool,
    bounds: &[FunctionBounds],
    index: usize,
) -> Result<String, AllocError>
    ensures { IfOk result (λ text. IsOnPlace «module».now is_entry_point bounds.now index (string_bytes text)) }
{
    let place = place_of(is_entry_point, index);
    let function = function_of(module, &place);
    on_function(alloc, module, &place, function, bounds.get(index))
}

/// Returns a block for each of the entry points, or of the functions, that have checks.
fn blocks_of(
    alloc: Global,
    module: &Module,
    is_entry_point: bool,
    bounds: &[FunctionBounds],
) -> Result<String, AllocError>
    ensures { IfOk result (λ text. AreBlocks «module».now is_entry_point bounds.now (string_bytes text)) }
{
    let mut text = String::new(alloc);
    for index in 0..bounds.len() {
        let block = on_place(alloc, module, is_entry_point, bounds, index)?;
        text.push_str(block.as_str())?;
    }
    Ok(text)
}

/// Returns the checks of a module as text output: the policies, and a block for each function and each entry point that has any; or the
/// override that is to be given a value first. An empty line stands before the policies, and before each block.
///
/// # Errors
///
/// `AllocError` if an allocation fails.
pub fn bounds_text(
    alloc: Global,
    module: &Module,
    policies: BoundsCheckPolicies,
    bounds: &ModuleBounds,
) -> Result<String, AllocError>
    ensures { IfOk result (λ text. IsBoundsText «module».now policies bounds.now (string_bytes text)) }
{
    let head = policies_line(alloc, policies)?;
    match bounds {
        ModuleBounds::Unsized(handle) => {
            let lines = unsized_lines(alloc, module, *handle)?;
            format!(in alloc; "{head}{lines}")
        }
        ModuleBounds::Found(functions, entry_points) => {
            let functions = blocks_of(alloc, module, false, functions.as_slice())?;
            let entry_points = blocks_of(alloc, module, true, entry_points.as_slice())?;
            format!(in alloc; "{head}{functions}{entry_points}")
        }
    }
}
