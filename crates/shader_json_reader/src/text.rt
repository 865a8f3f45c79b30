//! Parses a text as a JSON value.
ghost use Rattle.std.specs.Prelude.{◌≡◌, ◌⊎◌, None, Some, IfOk, IfErr};
ghost use Rattle.json.specs.Json.{document};
ghost use Rattle.json.specs.Value.{value_view};
ghost use Rattle.shader_json_reader.specs.declared.error.ReadError.TheVariants.{OutOfMemory};
ghost use Rattle.shader_json_reader.specs.Errors.{IsAccurate, IsOfModule, IsStoppedAt};
ghost use Rattle.shader_json_reader.specs.Grammar.{stop_of};

use crate::error::ReadError;
use crate::grammar::Stop;
use json::{Error, MAX_DEPTH, Reader, Scratch, Value};
use std::alloc::Global;

/// Parses a text as a JSON value.
///
/// # Errors
///
/// A text that is no JSON or nests more than 128 deep, with the byte at which that shows; or an allocation failure.
pub fn parse<'a>(
    alloc: Global,
    text: &'a str,
    scratch: &'a mut Scratch,
) -> Result<Value<'a>, ReadError>
    ensures ok { IfOk result (λ value. document text.now ≡ Some (value_view value)) }
    ensures err { IfErr result (IsAccurate text.now) }
    ensures no_json { IfErr result (λ error. IsOfModule error → ⊥) }
{
    let mut reader = Reader::new(text, scratch)?;
    let value = match Value::read(alloc, &mut reader, MAX_DEPTH) {
        Ok(value) => value,
        Err(Error::OutOfMemory) => return Err(ReadError::OutOfMemory),
        Err(_) => return Err(refused(alloc, text)),
    };
    if reader.next().is_some() {
        return Err(refused(alloc, text));
    }
    Ok(value)
}

/// Returns the error for a text that is no JSON or nests too deep. This allocates.
#[tactic(auto, using(crate::proofs::StopLemmas::accurate, crate::proofs::StopLemmas::none_of_module))]
fn refused(alloc: Global, text: &str) -> ReadError
    requires { document text.now ≡ None }
    ensures err { IsAccurate text.now result }
    ensures no_json { IsOfModule result → ⊥ }
{
    refusal(alloc, text.as_bytes())
}

/// Returns the error for bytes that spell no JSON, at the byte at which they stop being the start of some. This allocates.
pub fn refusal(alloc: Global, text: &[u8]) -> ReadError
    ensures { (result ≡ OutOfMemory) ⊎ IsStoppedAt (stop_of text.now) result }
{
    match Stop::of(alloc, text) {
        Ok(Stop::NotJson(byte)) => ReadError::NotJson { byte },
        Ok(Stop::TooDeep(byte)) => ReadError::TooDeep { byte },
        Err(_) => ReadError::OutOfMemory,
    }
}
