//! The codes of inputs that are no module.
ghost use Rattle.std.specs.Prelude.{◌≡◌, ◌↔◌, MatchOption, false};
ghost use Rattle.std.specs.Str.{IsValidUpTo};
ghost use Rattle.report_input.specs.Codes.{HasCode, code_of_form, code_of_wanted, code_of_words, is_name, is_of_later_stage};
ghost use Rattle.report_input.specs.Codes.{stands_twice, tells_names};
ghost use Rattle.shader_json_reader.specs.declared.error.ReadError.TheVariants.{OutOfMemory};

use crate::forms::Form;
use report_diagnostics::InputCode;
use shader_json_module::{ReadError, Wanted};

/// Returns whether a requirement lists names, which are in backquotes.
fn tells_names(wanted: &str) -> bool
    ensures { result ≡ tells_names wanted.now }
{
    wanted.as_bytes().contains(&b'`')
}

/// Returns whether a value may be a name: a string, or an object with one field.
fn is_name(found: &str) -> bool
    ensures { result ≡ is_name found.now }
{
    found.as_bytes().starts_with(b"\"")
        || found
            .as_bytes()
            .starts_with(b"an object with the one field ")
}

/// Returns whether a value names a stage of ray tracing pipelines.
fn is_of_later_stage(found: &str) -> bool
    ensures { result ≡ is_of_later_stage found.now }
{
    found == "\"RayGeneration\""
        || found == "\"Miss\""
        || found == "\"AnyHit\""
        || found == "\"ClosestHit\""
}

/// Returns whether a requirement is that a field or a key stands once.
fn stands_twice(wanted: &str) -> bool
    ensures { result ≡ stands_twice wanted.now }
{
    wanted == "a field that stands once" || wanted == "a key that stands once"
}

/// Returns the code of a value that doesn't meet a requirement in words.
fn code_of_words(wanted: &str, found: &str) -> InputCode
    ensures { result ≡ code_of_words wanted.now found.now }
{
    if stands_twice(wanted) {
        InputCode::RepeatedField
    } else if wanted == "a type that stands once" {
        InputCode::RepeatedType
    } else if wanted == "blocks that nest less deeply" {
        InputCode::NestsTooDeep
    } else if wanted == "a handle: an atomic operation without a result can't be held" {
        InputCode::Unsupported
    } else if wanted.as_bytes().starts_with(b"`Vertex`") && is_of_later_stage(found) {
        InputCode::Unsupported
    } else if tells_names(wanted) && is_name(found) {
        InputCode::UnknownName
    } else {
        InputCode::WrongValue
    }
}

/// Returns the code of a text that isn't JSON, by the format that it seems to have, and by whether the byte is UTF-8.
fn code_of_form(form: Form, is_utf8: bool) -> InputCode
    ensures { result ≡ code_of_form form is_utf8 }
{
    match form {
        Form::Blank => InputCode::EmptyInput,
        Form::Utf16 => InputCode::NotUtf8,
        Form::SpirV | Form::Glsl | Form::Wgsl | Form::Ron => InputCode::NotAModule,
        Form::ByteOrderMark | Form::Comment | Form::CutOff | Form::Other => if is_utf8 {
            InputCode::InvalidJson
        } else {
            InputCode::NotUtf8
        },
    }
}

/// Returns the code of a value that doesn't meet a requirement.
fn code_of_wanted(wanted: &Wanted, found: &str) -> InputCode
    ensures { result ≡ code_of_wanted wanted.now found.now }
{
    match wanted {
        Wanted::Field(_) => InputCode::MissingField,
        Wanted::Integer(_, _) => InputCode::WrongValue,
        Wanted::Value(words) => code_of_words(words, found),
    }
}

/// Returns whether a byte isn't the first that isn't UTF-8.
#[tactic(auto, using(crate::proofs::CodeLemmas::here))]
fn is_utf8_at(input: &[u8], byte: usize) -> bool
    ensures { (result ≡ false) ↔ IsValidUpTo input.now byte }
{
    match str::from_utf8(input) {
        Ok(_) => true,
        Err(error) => if error.valid_up_to() == byte {
            false
        } else {
            true
        },
    }
}

/// Returns the code of the error on an input. `None` if memory ran out, which is no error of the input.
pub fn code_of(input: &[u8], error: &ReadError) -> Option<InputCode>
    ensures { MatchOption result (error.now ≡ OutOfMemory) (HasCode input.now error.now) }
{
    match error {
        ReadError::OutOfMemory => None,
        ReadError::TooLong => Some(InputCode::TooLong),
        ReadError::TooDeep { .. } => Some(InputCode::NestsTooDeep),
        ReadError::NotJson { byte } => {
            let form = Form::of(input, *byte);
            Some(code_of_form(form, is_utf8_at(input, *byte)))
        }
        ReadError::NotModule { wanted, found, .. } => Some(code_of_wanted(wanted, found.as_str())),
    }
}
