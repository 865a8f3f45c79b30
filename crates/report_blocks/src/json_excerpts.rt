//! The line of the JSON with what a diagnostic is about.

use report_diagnostics::Diagnostic;
use report_names::{escape_of, is_hidden};
use std::alloc::{AllocError, Global};

/// The most columns of a line that are shown.
const MOST_COLUMNS: usize = 76;

/// The columns before what is marked, unless the line begins or ends near it.
const COLUMNS_BEFORE: usize = 24;

/// The most columns that are marked.
const MOST_MARKED: usize = 40;

/// The most bytes of a character in UTF-8.
const MOST_BYTES: usize = 4;

/// A character of a line, or a byte that is part of none.
#[derive(Clone, Copy)]
struct Piece {
    character: Option<char>,
    bytes: usize,
}

/// Returns the only character of some bytes, if they are one.
fn only_character(bytes: &[u8]) -> Option<char> {
    match str::from_utf8(bytes) {
        Ok(text) => {
            let mut characters = text.chars();
            match (characters.next(), characters.next()) {
                (Some(character), None) => Some(character),
                _ => None,
            }
        }
        Err(_) => None,
    }
}

/// Returns what a text begins with.
fn first_piece(text: &[u8]) -> Piece {
    for bytes in 1..MOST_BYTES + 1 {
        let character = only_character(&text[..bytes.min(text.len())]);
        if character.is_some() {
            return Piece { character, bytes };
        }
    }
    Piece {
        character: None,
        bytes: 1,
    }
}

/// Returns what a text ends with.
fn last_piece(text: &[u8]) -> Piece {
    for bytes in 1..MOST_BYTES + 1 {
        let character = only_character(&text[text.len().saturating_sub(bytes)..]);
        if character.is_some() {
            return Piece { character, bytes };
        }
    }
    Piece {
        character: None,
        bytes: 1,
    }
}

/// Returns how a character is shown, or the byte in place of one. What a reader can't see is escaped, except blanks.
fn shown_piece(alloc: Global, piece: Piece, byte: u8) -> Result<String, AllocError> {
    match piece.character {
        Some(character) => if character != ' ' && is_hidden(character) {
            escape_of(alloc, character)
        } else {
            format!(in alloc; "{character}")
        },
        None => format!(in alloc; "\\x{:x}", byte),
    }
}

/// A part of a line.
#[derive(Drop)]
struct Part {
    text: String,
    columns: usize,
    /// True if the line has no more.
    is_all: bool,
}

/// Checks whether a text begins with the end of a line.
fn ends_line(text: &[u8]) -> bool {
    text.starts_with(b"\n") || text.starts_with(b"\r\n")
}

/// Returns the line with which a text begins, as far as it fits into so many columns.
fn part_from(alloc: Global, text: &[u8], columns: usize) -> Result<Part, AllocError> {
    let mut part = Part {
        text: String::new(alloc),
        columns: 0,
        is_all: false,
    };
    let mut rest = text;
    for _ in 0..text.len() {
        let Some(byte) = rest.first() else {
            break;
        };
        if ends_line(rest) {
            break;
        }
        let piece = first_piece(rest);
        let shown = shown_piece(alloc, piece, *byte)?;
        let behind = part.columns.saturating_add(shown.as_str().chars().count());
        if columns < behind {
            return Ok(part);
        }
        part.text.push_str(shown.as_str())?;
        part.columns = behind;
        rest = &rest[piece.bytes.min(rest.len())..];
    }
    part.is_all = true;
    Ok(part)
}

/// Returns the byte of a text from which on its last line fits into so many columns, and whether that is all of the line.
fn end_of_line(alloc: Global, text: &[u8], columns: usize) -> Result<(usize, bool), AllocError> {
    let mut rest = text;
    let mut taken = 0usize;
    for _ in 0..text.len() {
        let Some(byte) = rest.last() else {
            break;
        };
        if *byte == b'\n' {
            break;
        }
        let piece = last_piece(rest);
        let shown = shown_piece(alloc, piece, *byte)?;
        taken = taken.saturating_add(shown.as_str().chars().count());
        if columns < taken {
            return Ok((rest.len(), false));
        }
        rest = &rest[..rest.len().saturating_sub(piece.bytes)];
    }
    Ok((rest.len(), true))
}

/// Adds a character so many times.
fn add_times(text: &mut String, character: char, times: usize) -> Result<(), AllocError> {
    for _ in 0..times {
        text.push(character)?;
    }
    Ok(())
}

/// Returns where so many marked bytes of a text end. A character that begins among them is marked as a whole.
fn end_of_marked(text: &[u8], bytes: usize) -> usize {
    let mut end = 0usize;
    // Each character takes a column, so further ones can't be marked.
    for _ in 0..MOST_MARKED {
        if bytes <= end {
            break;
        }
        let piece = first_piece(&text[end.min(text.len())..]);
        end = end.saturating_add(piece.bytes);
    }
    end
}

/// A part of a line with marks below it.
#[derive(Drop)]
struct MarkedLine {
    line: String,
    marks: String,
}

/// Returns the line around a byte of a text, with marks from that byte on. Of a long line, a part is shown.
fn with_marks(
    alloc: Global,
    head: &[u8],
    tail: &[u8],
    marked_bytes: usize,
) -> Result<MarkedLine, AllocError> {
    let behind = part_from(alloc, tail, MOST_COLUMNS)?;
    let room = if behind.is_all {
        COLUMNS_BEFORE.max(MOST_COLUMNS.saturating_sub(behind.columns))
    } else {
        COLUMNS_BEFORE
    };
    let (start, begins) = end_of_line(alloc, head, room)?;
    let before = part_from(alloc, &head[start.min(head.len())..], usize::MAX)?;
    let after = part_from(alloc, tail, MOST_COLUMNS.saturating_sub(before.columns))?;
    let end = end_of_marked(tail, marked_bytes);
    let marked = part_from(alloc, &tail[..end.min(tail.len())], MOST_MARKED)?;
    let dots = if begins { "" } else { "..." };
    let more = if after.is_all { "" } else { "..." };
    let (first, second) = (before.text.as_str(), after.text.as_str());
    let line = format!(in alloc; "{dots}{first}{second}{more}")?;
    let mut marks = String::new(alloc);
    add_times(&mut marks, ' ', dots.len().saturating_add(before.columns))?;
    add_times(&mut marks, '^', marked.columns.max(1))?;
    Ok(MarkedLine { line, marks })
}

/// Returns the line of a text with the bytes from one to before another, which are marked, and with what is said of them.
fn excerpt_lines(
    alloc: Global,
    input: &[u8],
    begin: usize,
    end: usize,
    label: &str,
) -> Result<String, AllocError> {
    let (head, tail) = input.split_at(begin.min(input.len()));
    let shown = with_marks(alloc, head, tail, end.saturating_sub(begin))?;
    let (line, marks) = (shown.line.as_str(), shown.marks.as_str());
    if label.is_empty() {
        format!(in alloc; "   | {line}\n   | {marks}\n")
    } else {
        format!(in alloc; "   | {line}\n   | {marks} {label}\n")
    }
}

/// Returns the line of the JSON with what a diagnostic is about, and what is said of it, or nothing if its bytes aren't known.
///
/// # Errors
///
/// `AllocError` if an allocation fails.
pub fn json_excerpt(
    alloc: Global,
    input: &[u8],
    diagnostic: &Diagnostic,
) -> Result<String, AllocError> {
    let label = match &diagnostic.label {
        Some(label) => label.words.as_str(),
        None => "",
    };
    match (diagnostic.location.byte, diagnostic.end) {
        (Some(begin), Some(end)) => excerpt_lines(alloc, input, begin, end, label),
        _ => Ok(String::new(alloc)),
    }
}
