//! Errors of the input as answers in JSON.
ghost use Rattle.std.specs.Prelude.{IfOk, OnOk, Some};
ghost use Rattle.report_json.specs.Tokens.{Adds};
ghost use Rattle.report_input.specs.Errors.{IsAnswerText, IsAnswerWith, IsNestingObject, IsObjectText, byte_tokens, error_members};
ghost use Rattle.report_input.specs.Errors.{path_tokens, place_tokens, wanted_text};

use crate::diagnostic::{diagnostic_of, nesting_diagnostic};
use json::Writer;
use report_diagnostics::{Diagnostic, Verdict, Word, write_head};
use report_json::{Member, WriteJson, WriteMembers, write_object};
use shader_json_module::{MOST_BYTES, ReadError, Wanted};
use std::alloc::{AllocError, Global};
use std::fmt;
use std::fmt::{Display, Formatter};

/// Where an error of the input is, and what is wanted there, as JSON.
#[derive(Clone, Copy)]
struct ErrorAt<'a, T> {
    /// The name of the member that tells where it is.
    kind: &'a str,
    location: &'a T,
    wanted: &'a str,
}

impl<T: WriteJson> WriteJson for ErrorAt<'_, T> {
    ghost tokens = { λ error. place_tokens error.kind.now (T.tokens error.location.now) error.wanted.now };

    fn write_json(&self, alloc: Global, writer: &mut Writer) -> Result<(), AllocError> {
        let wanted = Word(self.wanted);
        let members = (Member(self.kind, self.location), Member("wanted", &wanted));
        write_object(alloc, writer, &members)
    }
}

/// Writes the members of the answer to an input with an error: the head with its diagnostic, and where the error is.
fn write_answer<T: WriteJson>(
    alloc: Global,
    writer: &mut Writer,
    diagnostic: Diagnostic,
    error: &ErrorAt<'_, T>,
) -> Result<(), AllocError>
    ensures { OnOk result (Adds writer.old writer.new (error_members diagnostic
        (place_tokens error.now.kind.now (T.tokens error.now.location.now) error.now.wanted.now))) }
{
    let mut diagnostics = Vec::new(alloc);
    diagnostics.push(diagnostic)?;
    write_head(alloc, writer, Verdict::InvalidInput, &diagnostics)?;
    Member("error", error).write_members(alloc, writer)
}

/// Returns the answer as JSON to an input with an error: its diagnostic, where it is, and what is wanted there.
fn answer<T: WriteJson>(
    alloc: Global,
    diagnostic: Diagnostic,
    error: ErrorAt<'_, T>,
) -> Result<Vec<u8>, AllocError>
    ensures { IfOk result (λ text. IsAnswerText diagnostic
        (place_tokens error.entry.kind.now (T.tokens error.entry.location.now) error.entry.wanted.now) text.items) }
{
    let mut writer = Writer::new(Vec::new(alloc));
    writer.begin_object()?;
    write_answer(alloc, &mut writer, diagnostic, &error)?;
    writer.end_object()?;
    let mut text = writer.into_inner();
    text.push(b'\n')?;
    Ok(text)
}

/// Returns the answer on the value at a path, which isn't that of a module.
fn at_path(
    alloc: Global,
    diagnostic: Diagnostic,
    path: &str,
    wanted: &str,
) -> Result<Vec<u8>, AllocError>
    ensures { IfOk result (λ text. IsAnswerText diagnostic (path_tokens path.now wanted.now) text.items) }
{
    let error = ErrorAt {
        kind: "path",
        location: &Word(path),
        wanted,
    };
    answer(alloc, diagnostic, error)
}

/// Returns the answer on a byte that isn't allowed there.
fn at_byte(
    alloc: Global,
    diagnostic: Diagnostic,
    byte: usize,
    wanted: &str,
) -> Result<Vec<u8>, AllocError>
    ensures { IfOk result (λ text. IsAnswerText diagnostic (byte_tokens byte wanted.now) text.items) }
{
    let error = ErrorAt {
        kind: "byte",
        location: &byte,
        wanted,
    };
    answer(alloc, diagnostic, error)
}

/// The kind of value that is wanted, in words.
#[derive(Clone, Copy)]
pub struct WantedText<'a>(pub &'a Wanted);

impl Display for WantedText<'_> {
    ghost output = { λ text. Some (wanted_text text.0.now) };

    fn fmt<W: fmt::Write>(&self, f: &mut Formatter<W>) -> fmt::Result {
        match self.0 {
            Wanted::Value(words) => f.write_str(words),
            Wanted::Integer(least, most) => write!(f, "an integer from {least} to {most}"),
            Wanted::Field(name) => write!(f, "an object with the field `{name}`"),
        }
    }
}

/// Returns the answer as JSON to an input from which no module was read.
///
/// # Errors
///
/// `AllocError` if an allocation fails, or if that is the reason.
pub fn error_object(alloc: Global, input: &[u8], error: &ReadError) -> Result<Vec<u8>, AllocError>
    ensures { IfOk result (λ text. IsObjectText input.now error.now text.items) }
{
    let diagnostic = diagnostic_of(alloc, input, error, false)?;
    answer_with(alloc, diagnostic, error)
}

/// Returns the answer with this diagnostic of an error.
fn answer_with(
    alloc: Global,
    diagnostic: Diagnostic,
    error: &ReadError,
) -> Result<Vec<u8>, AllocError>
    ensures { IfOk result (λ text. IsAnswerWith diagnostic error.now text.items) }
{
    match error {
        ReadError::OutOfMemory => Err(AllocError),
        ReadError::TooLong => at_byte(alloc, diagnostic, MOST_BYTES, "the end of the text"),
        ReadError::NotJson { byte } => at_byte(alloc, diagnostic, *byte, "JSON"),
        ReadError::TooDeep { byte } => {
            let wanted = "at most 128 arrays and objects in one another";
            at_byte(alloc, diagnostic, *byte, wanted)
        }
        ReadError::NotModule { path, wanted, .. } => {
            let wanted = format!(in alloc; "{}", WantedText(wanted))?;
            at_path(alloc, diagnostic, path.as_str(), wanted.as_str())
        }
    }
}

/// Returns the answer as JSON to a module whose blocks nest too deep to be checked.
///
/// # Errors
///
/// `AllocError` if an allocation fails.
pub fn nesting_object(alloc: Global) -> Result<Vec<u8>, AllocError>
    ensures { IfOk result (λ text. IsNestingObject text.items) }
{
    let diagnostic = nesting_diagnostic(alloc)?;
    at_path(alloc, diagnostic, "", "blocks that nest at most 4,000 deep")
}
