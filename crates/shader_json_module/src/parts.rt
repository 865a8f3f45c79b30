//! Reads a module from a text and decodes its functions and entry points, which may be large, while reading.
ghost use Rattle.std.specs.Prelude.{◌≡◌, IfOk, IfSome, codes};
ghost use Rattle.json.specs.Json.{max_depth};
ghost use Rattle.json.specs.Token as token;
ghost use Rattle.json.specs.Value.{value_view};
ghost use Rattle.shader_json_module.specs.Parts.{AreModuleParts, IsNextModule};

use crate::module::fill_beside_code;
use json::{MAX_DEPTH, Reader, Scratch, Value};
use shader_arena::Arena;
use shader_ir::{EntryPoint, Function, Items, Module, mark};
use shader_json_declarations::Fields;
use shader_json_functions::Parts;
use shader_json_reader::{Context, Failure, MOST_BYTES};
use std::alloc::{AllocError, Global};
use std::str;

/// A module that was read from a text, with the rest of the text's JSON, which may have members that the IR lacks.
#[derive(Drop)]
pub struct ModuleParts<'a> {
    /// The module.
    pub module: Module,
    /// The JSON object of the module, without its members `functions` and `entry_points`.
    pub rest: Value<'a>,
}

/// Reads the module that is next in a text.
#[tactic(auto, using(crate::proofs::PartsLemmas::next_module))]
fn next_module<'a>(context: Context, reader: &mut Reader<'a>) -> Result<ModuleParts<'a>, Failure>
    ensures { IfOk result (λ parts. IsNextModule reader.old reader.new parts.module (value_view parts.rest)) }
{
    let parts: Parts<'a, Arena<Function, mark::Function>, Items<EntryPoint>> = Parts::read_next(
        context,
        reader,
        MAX_DEPTH,
        "functions",
        "entry_points",
    )?;
    let Parts {
        first,
        second,
        rest,
    } = parts;
    let fields = Fields::of(context, &rest)?;
    let mut module = Module::new(context.alloc);
    fill_beside_code(context, fields, &mut module)?;
    module.functions = first;
    module.entry_points = second;
    Ok(ModuleParts { module, rest })
}

/// Reads a module from a text one expression or statement at a time, which takes less memory than one JSON value of the whole text.
///
/// Returns `None` if that isn't possible: then `parse_bytes` and `read_value` return the reason, unless they read the module.
///
/// # Errors
///
/// `AllocError` if an allocation fails.
#[tactic(auto, using(crate::proofs::PartsLemmas::parts_of_text))]
pub fn read_parts<'a>(
    alloc: Global,
    text: &'a [u8],
    scratch: &'a mut Scratch,
) -> Result<Option<ModuleParts<'a>>, AllocError>
    ensures { IfOk result (λ read. IfSome read (λ parts. AreModuleParts text.now parts.module (value_view parts.rest))) }
{
    if text.len() > MOST_BYTES {
        return Ok(None);
    }
    let Ok(text) = str::from_utf8(text) else {
        return Ok(None);
    };
    let mut reader = Reader::new(text, scratch)?;
    match next_module(Context::new(alloc), &mut reader) {
        Ok(parts) => {
            if reader.next().is_some() {
                return Ok(None);
            }
            Ok(Some(parts))
        }
        Err(Failure::OutOfMemory) => Err(AllocError),
        Err(Failure::Refused(_)) => Ok(None),
    }
}
