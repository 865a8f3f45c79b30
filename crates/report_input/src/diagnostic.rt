//! The diagnostic of an input that is no module.
ghost use Rattle.std.specs.Prelude.{◌≡◌, IfOk, None, Some};
ghost use Rattle.report_input.specs.Errors.{IsOfNesting};
ghost use Rattle.report_input.specs.Finds.{IsLookedUp, begin_of, end_of, pointer_of};
ghost use Rattle.report_input.specs.Inputs.{IsByteOf, IsOfError, IsPlacedAt, part_of, path_of, place_of};

use crate::codes::code_of;
use crate::finds::{Found, Part, find};
use crate::forms::Form;
use crate::labels::label_of;
use crate::messages::{help_of, message_of, notes_of, text, wanted_words};
use crate::places::Place;
use crate::steps::pointer_text;
use report_diagnostics::{Code, Diagnostic, FactValue, Facts, InputCode, Location, Severity, Text};
use shader_json_module::{MOST_BYTES, ReadError};
use std::alloc::{AllocError, Global};

/// The bytes that a diagnostic is about, with the way to them in the JSON.
#[derive(Drop)]
struct At {
    path: Option<Text>,
    pointer: Option<Text>,
    begin: Option<usize>,
    /// The byte behind what an excerpt marks, if there is one.
    end: Option<usize>,
}

/// Returns the byte behind what an excerpt marks of a text that isn't JSON from a byte on. One of another format has no excerpt.
fn end_of_mark(form: Form, byte: usize) -> Option<usize> {
    match form {
        Form::Blank | Form::Utf16 | Form::SpirV | Form::Glsl | Form::Wgsl | Form::Ron => None,
        Form::CutOff => Some(byte),
        Form::Comment => Some(byte.saturating_add(2)),
        Form::ByteOrderMark | Form::Other => Some(byte.saturating_add(1)),
    }
}

/// Returns which part of a value an error is about.
fn part_of(code: InputCode) -> Part
    ensures { result ≡ part_of code }
{
    match code {
        InputCode::RepeatedField => Part::SecondKey,
        _ => Part::Value,
    }
}

/// Returns the pointer to a value that was looked up.
fn pointer_to(alloc: Global, found: &Option<Found>) -> Result<Option<Text>, AllocError>
    ensures { IfOk result (λ pointer. pointer ≡ pointer_of found.now) }
{
    match found {
        Some(found) => Ok(Some(pointer_text(alloc, found.steps.as_slice())?)),
        None => Ok(None),
    }
}

/// Returns the first byte of what was looked up, and the one behind it.
fn ends_of(found: &Option<Found>) -> (Option<usize>, Option<usize>)
    ensures begin { result.0 ≡ begin_of found.now }
    ensures end { result.1 ≡ end_of found.now }
{
    match found {
        Some(found) => match found.span {
            Some(span) => (Some(span.begin), Some(span.end)),
            None => (None, None),
        },
        None => (None, None),
    }
}

/// Returns the place of the value at a path.
fn at_path(alloc: Global, input: &[u8], path: &str, code: InputCode) -> Result<At, AllocError>
    ensures path { IfOk result (λ at. at.path ≡ Some path.now) }
    ensures found { IfOk result (λ at. IsLookedUp (part_of code) input.now path.now at.pointer at.begin at.end) }
{
    let found = find(alloc, input, part_of(code), path)?;
    let (begin, end) = ends_of(&found);
    Ok(At {
        path: Some(Text::from(path.to_string(alloc)?)),
        pointer: pointer_to(alloc, &found)?,
        begin,
        end,
    })
}

/// Returns a place that is known by its byte alone.
fn at_byte(begin: usize, end: Option<usize>) -> At
    ensures { result ≡ record { path = None; pointer = None; begin = Some begin; end = end } }
{
    At {
        path: None,
        pointer: None,
        begin: Some(begin),
        end,
    }
}

/// Returns the bytes of the input that an error is about.
fn at_error(
    alloc: Global,
    input: &[u8],
    error: &ReadError,
    code: InputCode,
) -> Result<At, AllocError>
    ensures path { IfOk result (λ at. at.path ≡ path_of error.now) }
    ensures byte { IfOk result (λ at. IsByteOf code input.now error.now at.pointer at.begin at.end) }
{
    match error {
        ReadError::OutOfMemory => Err(AllocError),
        ReadError::TooLong => Ok(at_byte(MOST_BYTES, None)),
        ReadError::NotJson { byte } => {
            Ok(at_byte(*byte, end_of_mark(Form::of(input, *byte), *byte)))
        }
        ReadError::TooDeep { byte } => Ok(at_byte(*byte, Some(byte.saturating_add(1)))),
        ReadError::NotModule { path, .. } => at_path(alloc, input, path.as_str(), code),
    }
}

/// Returns the text position of the byte that an error is about. Of an input that is too long, not all may be at hand.
fn place_of(input: &[u8], error: &ReadError, byte: Option<usize>) -> Option<Place>
    ensures { result ≡ place_of input.now error.now byte }
{
    match error {
        ReadError::TooLong => None,
        _ => match byte {
            Some(byte) => Some(Place::of(input, byte)),
            None => None,
        },
    }
}

/// Returns the place of an error in the input, given its bytes.
fn location_at(
    input: &[u8],
    error: &ReadError,
    path: Option<Text>,
    pointer: Option<Text>,
    byte: Option<usize>,
) -> Location
    ensures { IsPlacedAt input.now error.now path pointer byte result }
{
    let (line, column) = match place_of(input, error, byte) {
        Some(place) => (Some(place.line), Some(place.column)),
        None => (None, None),
    };
    Location {
        body: None,
        name: None,
        statement: None,
        expression: None,
        argument: None,
        ty: None,
        pointer: None,
        path,
        input_pointer: pointer,
        line,
        column,
        byte,
    }
}

/// Adds what is wanted of a value, and what is there.
fn add_facts(alloc: Global, facts: &mut Facts, error: &ReadError) -> Result<(), AllocError> {
    if let ReadError::NotModule { wanted, found, .. } = error {
        let expected = wanted_words(alloc, wanted)?;
        facts.add(text(alloc, "expected")?, FactValue::Word(expected))?;
        let found = text(alloc, found.as_str())?;
        facts.add(text(alloc, "found")?, FactValue::Word(found))?;
    }
    Ok(())
}

/// Returns the diagnostic of an input from which no module was read. If it explains itself, a note lists all names that are known, however
/// many there are.
///
/// # Errors
///
/// `AllocError` if an allocation fails, or if that is the reason.
pub fn diagnostic_of(
    alloc: Global,
    input: &[u8],
    error: &ReadError,
    explains: bool,
) -> Result<Diagnostic, AllocError>
    ensures { IfOk result (IsOfError input.now error.now) }
{
    let Some(code) = code_of(input, error) else {
        return Err(AllocError);
    };
    let message = message_of(alloc, input, error, code)?;
    let At {
        path,
        pointer,
        begin,
        end,
    } = at_error(alloc, input, error, code)?;
    let location = location_at(input, error, path, pointer, begin);
    let label = label_of(alloc, input, error, code)?;
    let notes = notes_of(alloc, input, error, code, explains)?;
    let help = help_of(alloc, input, error, code)?;
    let mut data = Facts::none(alloc);
    add_facts(alloc, &mut data, error)?;
    Ok(Diagnostic {
        code: Code::Input(code),
        severity: Severity::Error,
        message,
        location,
        text: None,
        end,
        label,
        field: None,
        data,
        related: Vec::new(alloc),
        omitted: 0,
        notes,
        help,
    })
}

/// Returns the diagnostic of a module whose blocks nest too deep to be checked.
///
/// # Errors
///
/// `AllocError` if an allocation fails.
pub fn nesting_diagnostic(alloc: Global) -> Result<Diagnostic, AllocError>
    ensures { IfOk result IsOfNesting }
{
    let message = text(alloc, "blocks nest more than 4,000 deep")?;
    let root = Text::from(String::new(alloc));
    let pointer = Text::from(String::new(alloc));
    let location = Location {
        body: None,
        name: None,
        statement: None,
        expression: None,
        argument: None,
        ty: None,
        pointer: None,
        path: Some(root),
        input_pointer: Some(pointer),
        line: None,
        column: None,
        byte: None,
    };
    let code = Code::Input(InputCode::NestsTooDeep);
    Ok(Diagnostic::error(alloc, code, message, location))
}
