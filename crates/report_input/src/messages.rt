//! The wording of what is wrong with an input: messages, notes and help. Contracts don't speak of it.

use crate::equal_types::equal_types;
use crate::errors::WantedText;
use crate::forms::Form;
use crate::names::{known_names, name_in, suggestion};
use crate::steps::last_step;
use report_diagnostics::{InputCode, Text};
use shader_json_module::{ReadError, Wanted};
use std::alloc::{AllocError, Global};

/// How to get what is read.
const HELP: &str =
    "`report` reads a naga 30 module as JSON: print it by `serde_json::to_string(&module)`, with naga's feature `serialize`";

/// Returns a text that is known before the program runs.
pub fn text(alloc: Global, words: &str) -> Result<Text, AllocError> {
    Ok(Text::from(words.to_string(alloc)?))
}

/// Returns what a text that isn't JSON seems to be, or what is wrong with it.
fn form_words(form: Form) -> &'static str {
    match form {
        Form::Blank => "the input is empty",
        Form::ByteOrderMark => "the input begins with a byte order mark, which JSON has not",
        Form::Utf16 => "the input is UTF-16, and JSON is UTF-8",
        Form::SpirV => "the input is a SPIR-V module",
        Form::Glsl => "the input is a GLSL shader",
        Form::Wgsl => "the input is a WGSL shader",
        Form::Ron => "the input is RON, and JSON is wanted",
        Form::Comment => "JSON has no comments",
        Form::CutOff => "the input ends before the JSON does",
        Form::Other => "this isn't JSON",
    }
}

/// Returns what a list of names is of, as `storage format`, or an empty text.
fn kind_in(wanted: &str) -> &str {
    match wanted.split_once(": ") {
        Some((kind, _)) => kind
            .strip_prefix("a ")
            .or(kind.strip_prefix("an "))
            .or(kind.strip_prefix("the "))
            .unwrap_or(kind),
        None => if wanted.starts_with("`Vertex`") {
            "shader stage"
        } else {
            "name"
        },
    }
}

/// Returns the message on a text that isn't JSON from a byte on.
fn text_message(
    alloc: Global,
    input: &[u8],
    byte: usize,
    code: InputCode,
) -> Result<String, AllocError> {
    let form = Form::of(input, byte);
    match (code, form, input.get(byte)) {
        (InputCode::NotUtf8, Form::Utf16, _) => form_words(form).to_string(alloc),
        (InputCode::NotUtf8, _, Some(wrong)) => {
            format!(in alloc; "a byte 0x{:x} isn't UTF-8, and JSON is", *wrong)
        }
        _ => form_words(form).to_string(alloc),
    }
}

/// Returns the message on a type that is equal to an earlier one.
fn type_message(alloc: Global, input: &[u8], path: &str) -> Result<String, AllocError> {
    match equal_types(alloc, input, path)? {
        Some((index, earlier)) => format!(in alloc; "type {index} is equal to type {earlier}"),
        None => format!(in alloc; "`{path}` is equal to an earlier type"),
    }
}

/// Returns the message on a value that doesn't meet a requirement in words.
fn words_message(
    alloc: Global,
    input: &[u8],
    code: InputCode,
    path: &str,
    wanted: &str,
    found: &str,
) -> Result<String, AllocError> {
    let step = last_step(path);
    match code {
        InputCode::RepeatedField => format!(in alloc; "`{step}` stands twice"),
        InputCode::RepeatedType => type_message(alloc, input, path),
        InputCode::UnknownName if found.starts_with('"') => {
            format!(in alloc; "unknown {} `{}`", kind_in(wanted), name_in(found))
        }
        InputCode::UnknownName => {
            format!(in alloc;
                "`{}` in this form is no {}",
                name_in(found),
                kind_in(wanted)
            )
        }
        InputCode::Unsupported if found == "null" => {
            "an atomic operation without a result isn't supported".to_string(alloc)
        }
        InputCode::Unsupported => {
            format!(in alloc; "the stage `{}` isn't supported", name_in(found))
        }
        _ if step.is_empty() => format!(in alloc; "the input is {found}"),
        _ => format!(in alloc; "`{step}` is {found}"),
    }
}

/// Returns the message on a value that isn't that of a module.
fn value_message(
    alloc: Global,
    input: &[u8],
    code: InputCode,
    path: &str,
    wanted: &Wanted,
    found: &str,
) -> Result<String, AllocError> {
    match wanted {
        Wanted::Field(name) => format!(in alloc; "the field `{name}` is missing"),
        Wanted::Integer(_, _) => words_message(alloc, input, code, path, "", found),
        Wanted::Value(words) => words_message(alloc, input, code, path, words, found),
    }
}

/// Returns the message on an error.
///
/// # Errors
///
/// `AllocError` if an allocation fails, or if that is the error.
pub fn message_of(
    alloc: Global,
    input: &[u8],
    error: &ReadError,
    code: InputCode,
) -> Result<Text, AllocError> {
    let message = match error {
        ReadError::OutOfMemory => return Err(AllocError),
        ReadError::TooLong => "the input has more than 268,435,456 bytes".to_string(alloc)?,
        ReadError::NotJson { byte } => text_message(alloc, input, *byte, code)?,
        ReadError::TooDeep { .. } => {
            "arrays and objects nest more than 128 deep".to_string(alloc)?
        }
        ReadError::NotModule {
            path,
            wanted,
            found,
        } => value_message(alloc, input, code, path.as_str(), wanted, found.as_str())?,
    };
    Ok(Text::from(message))
}

/// Returns what is wanted of a value, in words.
///
/// # Errors
///
/// `AllocError` if an allocation fails.
pub fn wanted_words(alloc: Global, wanted: &Wanted) -> Result<Text, AllocError> {
    let words = format!(in alloc; "{}", WantedText(wanted))?;
    Ok(Text::from(words))
}

/// Returns what is wanted of a name that isn't known, and that name.
fn unknown_name(error: &ReadError, code: InputCode) -> Option<(&'static str, &str)> {
    match error {
        ReadError::NotModule {
            wanted: Wanted::Value(words),
            found,
            ..
        } if code == InputCode::UnknownName => Some((*words, name_in(found.as_str()))),
        _ => None,
    }
}

/// Returns a fact that an author may not know, beside the message.
fn note_of(input: &[u8], error: &ReadError, code: InputCode) -> Option<&'static str> {
    match error {
        ReadError::NotJson { byte } => match Form::of(input, *byte) {
            Form::Wgsl => Some("naga's `front::wgsl::parse_str` reads WGSL"),
            _ => None,
        },
        ReadError::NotModule { found, .. } => {
            if code == InputCode::Unsupported && found.as_str() == "null" {
                Some("naga writes null where a 64-bit minimum or maximum returns nothing")
            } else {
                None
            }
        }
        _ => None,
    }
}

/// Returns facts that an author may not know, beside the message.
///
/// # Errors
///
/// `AllocError` if an allocation fails.
pub fn notes_of(
    alloc: Global,
    input: &[u8],
    error: &ReadError,
    code: InputCode,
    explains: bool,
) -> Result<Vec<Text>, AllocError> {
    let mut notes = Vec::new(alloc);
    if let Some(note) = note_of(input, error, code) {
        notes.push(text(alloc, note)?)?;
    }
    if let Some((wanted, name)) = unknown_name(error, code) {
        if let Some(note) = known_names(alloc, wanted, name, explains)? {
            notes.push(Text::from(note))?;
        }
    }
    Ok(notes)
}

/// Returns whether an input has another format than JSON, or none.
fn is_other_format(input: &[u8], error: &ReadError) -> bool {
    match error {
        ReadError::NotJson { byte } => matches!(
            Form::of(input, *byte),
            Form::Blank | Form::Utf16 | Form::SpirV | Form::Glsl | Form::Wgsl | Form::Ron
        ),
        _ => false,
    }
}

/// Returns what to do about an error.
///
/// # Errors
///
/// `AllocError` if an allocation fails.
pub fn help_of(
    alloc: Global,
    input: &[u8],
    error: &ReadError,
    code: InputCode,
) -> Result<Vec<Text>, AllocError> {
    let mut help = Vec::new(alloc);
    if is_other_format(input, error) {
        help.push(text(alloc, HELP)?)?;
    }
    if let Some((wanted, name)) = unknown_name(error, code) {
        if let Some(question) = suggestion(alloc, wanted, name)? {
            help.push(Text::from(question))?;
        }
    }
    Ok(help)
}
