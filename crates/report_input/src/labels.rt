//! What is said of the marked part of an input. Contracts don't speak of it.

use crate::forms::Form;
use crate::messages::wanted_words;
use crate::names::has_many_names;
use report_diagnostics::{InputCode, Label, Text};
use shader_json_module::{ReadError, Wanted};
use std::alloc::{AllocError, Global};

/// Returns what is said of the byte from which on a text isn't JSON.
fn form_label(form: Form, code: InputCode) -> &'static str {
    match form {
        Form::CutOff => "something is missing here",
        Form::Comment => "a comment",
        _ => match code {
            InputCode::NotUtf8 => "not part of a character",
            _ => "not expected here",
        },
    }
}

/// Returns what is expected in place of a value: what is wanted, or the kind of that if it lists many names.
fn expected_label(alloc: Global, code: InputCode, wanted: &str) -> Result<String, AllocError> {
    if has_many_names(wanted) {
        return match wanted.split_once(':') {
            Some((kind, _)) => format!(in alloc; "expected {kind}"),
            None => format!(in alloc; "expected {wanted}"),
        };
    }
    match wanted.split_once(": ") {
        Some((_, names)) if code == InputCode::UnknownName => {
            format!(in alloc; "expected {names}")
        }
        _ => format!(in alloc; "expected {wanted}"),
    }
}

/// Returns what is said of a value that doesn't meet a requirement in words. Of an unknown name of many, help or a note tells more.
fn words_label(
    alloc: Global,
    code: InputCode,
    wanted: &str,
    found: &str,
) -> Result<Option<String>, AllocError> {
    let words = match code {
        InputCode::RepeatedField => "the second one",
        InputCode::RepeatedType => "naga has each type once",
        InputCode::Unsupported if found == "null" => "an expression is wanted",
        InputCode::UnknownName if has_many_names(wanted) => return Ok(None),
        _ => return Ok(Some(expected_label(alloc, code, wanted)?)),
    };
    Ok(Some(words.to_string(alloc)?))
}

/// Returns what is said of a value that isn't that of a module.
fn value_label(
    alloc: Global,
    code: InputCode,
    wanted: &Wanted,
    found: &str,
) -> Result<Option<String>, AllocError> {
    match wanted {
        Wanted::Field(name) => Ok(Some(format!(in alloc; "has no `{name}`")?)),
        Wanted::Integer(..) => {
            let words = wanted_words(alloc, wanted)?;
            Ok(Some(format!(in alloc; "expected {}", words.as_str())?))
        }
        Wanted::Value(words) => words_label(alloc, code, words, found),
    }
}

/// Returns what is said of the marked part of the input that an error is about.
///
/// # Errors
///
/// `AllocError` if an allocation fails.
pub fn label_of(
    alloc: Global,
    input: &[u8],
    error: &ReadError,
    code: InputCode,
) -> Result<Option<Label>, AllocError> {
    let words = match error {
        ReadError::OutOfMemory | ReadError::TooLong => None,
        ReadError::NotJson { byte } => {
            Some(form_label(Form::of(input, *byte), code).to_string(alloc)?)
        }
        ReadError::TooDeep { .. } => Some("this bracket is one too many".to_string(alloc)?),
        ReadError::NotModule { wanted, found, .. } => {
            value_label(alloc, code, wanted, found.as_str())?
        }
    };
    match words {
        Some(words) => {
            Ok(Some(Label {
                operand: None,
                words: Text::from(words),
            }))
        }
        None => Ok(None),
    }
}
