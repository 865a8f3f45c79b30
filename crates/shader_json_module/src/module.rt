//! Reads modules.
ghost use Rattle.std.specs.Prelude.{◌≡◌, ◌<◌, ◌↔◌, length, Err, IfErr, IfOk, IsSome, OnOk, Some};
ghost use Rattle.std.specs.Str.{IsUtf8};
ghost use Rattle.json.specs.Json.{document};
ghost use Rattle.json.specs.Value.{members_view, value_view};
ghost use Rattle.shader_json_module.specs.Modules.{HasBesideCode, HasCode, HasDeclarations, IsErrorOf, IsModule, IsOfValue, IsTextOf};
ghost use Rattle.shader_json_reader.specs.Answers.{Accepts};
ghost use Rattle.shader_json_reader.specs.Errors.{IsAccurate, IsOfModule, most_text_bytes};

use crate::parts::read_parts;
use json::{Scratch, Value};
use shader_ir::Module;
use shader_json_declarations::Fields;
use shader_json_expressions::Expressions;
use shader_json_functions::{EntryPoints, Functions};
use shader_json_reader::{Context, Failure, MOST_BYTES, ReadError, parse, refusal};
use std::alloc::Global;
use std::str;

/// Fills an empty module from these fields, in a fixed order. A field that can't be read hides the errors of those after it.
fn fill(context: Context, fields: Fields<'_, '_>, module: &mut Module) -> Result<(), Failure>
    ensures code { OnOk result (HasCode (members_view fields.entry.members.now) «module».new) }
    ensures declarations { OnOk result (HasDeclarations (members_view fields.entry.members.now) «module».new) }
    ensures accepts { Accepts (λ m. HasCode (members_view fields.entry.members.now) m
        × HasDeclarations (members_view fields.entry.members.now) m) result }
{
    let types = fields.needed(context, "types")?;
    let Expressions(global_expressions) = fields.needed(context, "global_expressions")?;
    let Functions(functions) = fields.needed(context, "functions")?;
    let EntryPoints(entry_points) = fields.needed(context, "entry_points")?;
    fill_declarations(context, fields, module)?;
    module.types = types;
    module.global_expressions = global_expressions;
    module.functions = functions;
    module.entry_points = entry_points;
    Ok(())
}

/// Fills an empty module with special types, constants, overrides, global variables and diagnostic filters.
fn fill_declarations(
    context: Context,
    fields: Fields<'_, '_>,
    module: &mut Module,
) -> Result<(), Failure>
    ensures reads { OnOk result (HasDeclarations (members_view fields.entry.members.now) «module».new) }
    ensures accepts { Accepts (λ m. HasDeclarations (members_view fields.entry.members.now) m) result }
{
    module.special_types = fields.needed(context, "special_types")?;
    module.constants = fields.needed(context, "constants")?;
    module.overrides = fields.needed(context, "overrides")?;
    module.global_variables = fields.needed(context, "global_variables")?;
    module.diagnostic_filters = fields.needed(context, "diagnostic_filters")?;
    Ok(())
}

/// Fills an empty module with all that these fields have except functions and entry points.
pub(crate) fn fill_beside_code(
    context: Context,
    fields: Fields<'_, '_>,
    module: &mut Module,
) -> Result<(), Failure>
    ensures { OnOk result (HasBesideCode (members_view fields.entry.members.now) «module».new) }
{
    let types = fields.needed(context, "types")?;
    let Expressions(global_expressions) = fields.needed(context, "global_expressions")?;
    fill_declarations(context, fields, module)?;
    module.types = types;
    module.global_expressions = global_expressions;
    Ok(())
}

/// Reads a module from a JSON value.
fn module(context: Context, value: &Value<'_>) -> Result<Module, Failure>
    ensures reads { IfOk result (λ m. IsModule (value_view value.now) m) }
    ensures accepts { Accepts (IsModule (value_view value.now)) result }
{
    let fields = Fields::of(context, value)?;
    let mut module = Module::new(context.alloc);
    fill(context, fields, &mut module)?;
    Ok(module)
}

/// Parses bytes as a JSON value, as `read_module` does if `read_parts` returns `None`.
///
/// # Errors
///
/// A text that is too long, is no JSON or nests too deep; or an allocation failure.
#[tactic(auto, using(shader_json_reader::proofs::StopLemmas::accurate_before, shader_json_reader::proofs::StopLemmas::none_of_module))]
pub fn parse_bytes<'a>(
    alloc: Global,
    text: &'a [u8],
    scratch: &'a mut Scratch,
) -> Result<Value<'a>, ReadError>
    ensures utf8 { OnOk result (IsUtf8 text.now) }
    ensures value { IfOk result (λ root. document text.now ≡ Some (value_view root)) }
    ensures err { IfErr result (IsAccurate text.now) }
    ensures no_json { IfErr result (λ error. IsOfModule error → ⊥) }
    ensures too_long { (result ≡ Err ReadError.TooLong) ↔ (most_text_bytes < length text.now) }
{
    if text.len() > MOST_BYTES {
        return Err(ReadError::TooLong);
    }
    match str::from_utf8(text) {
        Ok(text) => parse(alloc, text, scratch),
        Err(error) => Err(refusal(alloc, &text[..error.valid_up_to()])),
    }
}

/// Reads a module from the JSON value of a text, as `read_module` does after `parse_bytes`. The value is borrowed, so a caller can look up
/// members in it that the IR lacks.
///
/// # Errors
///
/// A value that is no module; or an allocation failure.
#[tactic(auto, using(crate::proofs::AccurateLemmas::of_value))]
pub fn read_value(alloc: Global, root: &Value<'_>) -> Result<Module, ReadError>
    ensures ok { IfOk result (λ m. IsModule (value_view root.now) m) }
    ensures err { IfErr result (IsOfValue (value_view root.now)) }
{
    match module(Context::new(alloc), root) {
        Ok(module) => Ok(module),
        Err(failure) => Err(failure.into_read_error(alloc, root)),
    }
}

/// Reads a module from a JSON text as `serde_json` prints naga's.
///
/// Fields that this module type lacks are ignored, and values of another form are rejected with their path. A handle may be out of range,
/// which `check_module` of `shader_resolve` tests.
///
/// # Errors
///
/// A text that is too long, is no JSON or is no module; or an allocation failure.
#[tactic(auto, using(crate::proofs::AccurateLemmas::of_json, crate::proofs::AccurateLemmas::of_text, crate::proofs::PartsLemmas::text_of_parts))]
pub fn read_module(alloc: Global, text: &[u8]) -> Result<Module, ReadError>
    ensures ok { OnOk result (IsUtf8 text.now × IsSome (document text.now)) }
    ensures text { IfOk result (λ m. IsTextOf text.now m) }
    ensures err { IfErr result (IsErrorOf text.now) }
    ensures too_long { (result ≡ Err ReadError.TooLong) ↔ (most_text_bytes < length text.now) }
{
    if MOST_BYTES < text.len() {
        return Err(ReadError::TooLong);
    }
    let mut scratch = Scratch::new(alloc);
    if let Some(parts) = read_parts(alloc, text, &mut scratch)? {
        return Ok(parts.module);
    }
    let mut scratch = Scratch::new(alloc);
    let root = parse_bytes(alloc, text, &mut scratch)?;
    read_value(alloc, &root)
}
