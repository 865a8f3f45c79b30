//! Names as diagnostics show them: plain, or quoted and escaped, and of bounded length.
ghost use Rattle.std.specs.Prelude.{◌≡◌, ◌++◌, IfOk, string_bytes, take};
ghost use Rattle.std.specs.List.{list_any};
ghost use Rattle.std.specs.Str.{chars};
ghost use Rattle.report_names.specs.Names.{escape_of, fits, fitting_text, is_escaped, name_text, quoted, shown_character};
ghost use Rattle.report_names.specs.Names.{shown_characters, width_of};

use crate::hidden::is_escaped;
use std::alloc::{AllocError, Global};

/// The most columns that a name takes, besides quotation marks.
pub const MOST_COLUMNS: usize = 40;

/// Returns the escape of a character, as `\u{1b}`.
///
/// # Errors
///
/// `AllocError` if an allocation fails.
pub fn escape_of(alloc: Global, character: char) -> Result<String, AllocError>
    ensures { IfOk result (λ text. string_bytes text ≡ escape_of character) }
{
    match character {
        '\n' => String::from_str(alloc, "\\n"),
        '\r' => String::from_str(alloc, "\\r"),
        '\t' => String::from_str(alloc, "\\t"),
        '"' => String::from_str(alloc, "\\\""),
        '\\' => String::from_str(alloc, "\\\\"),
        _ => format!(in alloc; "\\u{{{:x}}}", character as u32),
    }
}

/// Returns a character of a name as it is shown.
fn shown_character(alloc: Global, character: char) -> Result<String, AllocError>
    ensures { IfOk result (λ text. string_bytes text ≡ shown_character character) }
{
    if is_escaped(character) {
        escape_of(alloc, character)
    } else {
        format!(in alloc; "{character}")
    }
}

/// Returns the columns of a character of a name that is shown so.
fn width_of(character: char, shown: &str) -> usize
    requires { shown.now ≡ shown_character character }
    ensures { result ≡ width_of character }
{
    if is_escaped(character) {
        shown.len()
    } else {
        1
    }
}

/// Returns the first of the characters, as many as fit into so many columns.
fn fitting_text(alloc: Global, characters: &[char], columns: usize) -> Result<String, AllocError>
    ensures { IfOk result (λ text. string_bytes text ≡ fitting_text columns characters.now) }
{
    let mut text = String::new(alloc);
    let mut room = columns;
    for character in characters {
        let shown = shown_character(alloc, *character)?;
        let width = width_of(*character, shown.as_str());
        if room < width {
            return Ok(text);
        }
        text.push_str(shown.as_str())?;
        room -= width;
    }
    Ok(text)
}

/// Returns whether the characters fit into so many columns.
fn fits(alloc: Global, characters: &[char], columns: usize) -> Result<bool, AllocError>
    ensures { IfOk result (λ fit. fit ≡ fits columns characters.now) }
{
    let mut room = columns;
    for character in characters {
        let shown = shown_character(alloc, *character)?;
        let width = width_of(*character, shown.as_str());
        if room < width {
            return Ok(false);
        }
        room -= width;
    }
    Ok(true)
}

/// Returns whether one of the characters is written as an escape.
fn has_escape(characters: &[char]) -> bool
    ensures { result ≡ list_any is_escaped characters.now }
{
    characters.iter().any(|character| is_escaped(*character))
}

/// Returns a text, quoted if one of the characters is written as an escape.
fn quoted(alloc: Global, characters: &[char], text: String) -> Result<String, AllocError>
    ensures { IfOk result (λ all. string_bytes all ≡ quoted characters.now (string_bytes text)) }
{
    if has_escape(characters) {
        format!(in alloc; "\"{text}\"")
    } else {
        Ok(text)
    }
}

/// Returns the characters as they are shown.
fn shown_characters(alloc: Global, characters: &[char]) -> Result<String, AllocError>
    ensures { IfOk result (λ text. string_bytes text ≡ shown_characters characters.now) }
{
    if fits(alloc, characters, MOST_COLUMNS)? {
        let text = fitting_text(alloc, characters, MOST_COLUMNS)?;
        quoted(alloc, characters, text)
    } else {
        let text = fitting_text(alloc, characters, MOST_COLUMNS - 3)?;
        let text = quoted(alloc, characters, text)?;
        format!(in alloc; "{text}...")
    }
}

/// Returns the first characters of a text, at most 41.
fn first_characters(alloc: Global, text: &str) -> Result<Vec<char>, AllocError>
    ensures { IfOk result (λ first. first.items ≡ take 41 (chars text.now)) }
{
    text.chars().take(MOST_COLUMNS + 1).collect(alloc)
}

/// Returns a name as it is shown. A name of which one of the first 41 characters is hidden, or a quotation mark, a backslash or a
/// backquote, is quoted, and those characters are escaped. One that takes more than 40 columns is cut, and ends in three dots.
pub fn name_text(alloc: Global, name: &str) -> Result<String, AllocError>
    ensures { IfOk result (λ text. string_bytes text ≡ name_text name.now) }
{
    let characters = first_characters(alloc, name)?;
    shown_characters(alloc, characters.as_slice())
}
