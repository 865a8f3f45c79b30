//! Rows of two columns as aligned lines.
ghost use Rattle.std.specs.Prelude.{◌≡◌, IfOk, string_bytes};
ghost use Rattle.report_columns.specs.Columns.{line_text, lines_text, rows_text, wider, width_of};

use crate::width::{columns_of, padded_text};
use std::alloc::{AllocError, Global};
use std::marker::Model;

/// A line of two columns. If the second one is empty, the line ends behind the first.
#[derive(Drop)]
pub struct Row {
    first: String,
    second: String,
}

impl Model for Row {
    ghost use Rattle.std.specs.Prelude.{string_bytes};
    ghost use Rattle.report_columns.specs.Columns as columns;

    ghost Value = { columns.Row };

    ghost view = { λ row. record {
      first = string_bytes row.first;
      second = string_bytes row.second;
    } };
}

impl Row {
    ghost use Rattle.std.specs.Prelude.{◌≡◌, string_bytes};
    ghost use Rattle.report_columns.specs.Columns.{row};

    /// Returns a line of these texts.
    pub fn new(first: String, second: String) -> Row
        ensures { result ≡ row (string_bytes first) (string_bytes second) }
    {
        Row { first, second }
    }

    /// Returns the text in the first column.
    fn first(&self) -> &str
        ensures { result.now ≡ self.now.first }
    {
        self.first.as_str()
    }

    /// Returns the text in the second column.
    fn second(&self) -> &str
        ensures { result.now ≡ self.now.second }
    {
        self.second.as_str()
    }
}

/// Returns a width that has room for the first column of one more line. A line without a second column needs none.
fn wider(width: usize, row: &Row) -> usize
    ensures { result ≡ wider width row.now }
{
    if row.second().is_empty() {
        width
    } else {
        width.max(columns_of(row.first()))
    }
}

/// Returns the width of the first column of some lines.
fn width_of(rows: &[Row]) -> usize
    ensures { result ≡ width_of rows.now }
{
    let mut width = 0;
    for row in rows {
        width = wider(width, row);
    }
    width
}

/// Returns a line, indented by two blanks.
fn line_text(alloc: Global, row: &Row, width: usize) -> Result<String, AllocError>
    ensures { IfOk result (λ text. string_bytes text ≡ line_text width row.now) }
{
    let (first, second) = (row.first(), row.second());
    if second.is_empty() {
        return format!(in alloc; "  {first}\n");
    }
    let padded = padded_text(alloc, first, width)?;
    format!(in alloc; "  {padded}  {second}\n")
}

/// Returns some lines whose second columns begin behind a width.
fn lines_text(alloc: Global, rows: &[Row], width: usize) -> Result<String, AllocError>
    ensures { IfOk result (λ text. string_bytes text ≡ lines_text width rows.now) }
{
    let mut text = String::new(alloc);
    for row in rows {
        let line = line_text(alloc, row, width)?;
        text.push_str(line.as_str())?;
    }
    Ok(text)
}

/// Returns some lines, each indented by two blanks. The second column is two blanks behind the widest first one, of the lines that have
/// both.
///
/// # Errors
///
/// `AllocError` if an allocation fails.
pub fn rows_text(alloc: Global, rows: &[Row]) -> Result<String, AllocError>
    ensures { IfOk result (λ text. string_bytes text ≡ rows_text rows.now) }
{
    let width = width_of(rows);
    lines_text(alloc, rows, width)
}
