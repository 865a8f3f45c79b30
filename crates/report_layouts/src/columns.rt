//! Lines of a declaration, with the layouts behind them in columns.
ghost use Rattle.std.specs.Prelude.{◌≡◌, IfOk, string_bytes};
ghost use Rattle.report_layouts.specs.Columns.{aligned_text, column_text, line_text, lines_text, wider, widths_of};

use report_columns::{columns_of, padded_text};
use std::alloc::{AllocError, Global};
use std::marker::Model;

/// A line of a declaration: what stands in it, and the columns of the comment behind that.
#[derive(Drop)]
pub struct Line {
    /// What is declared, or what bytes that no member takes are called.
    declared: String,
    /// The offset in the struct. The struct itself has none.
    offset: String,
    /// The alignment. Padding has none.
    alignment: String,
    size: String,
}

impl Model for Line {
    ghost use Rattle.std.specs.Prelude.{string_bytes};
    ghost use Rattle.report_layouts.specs.Columns.{Row};

    ghost Value = { Row };

    ghost view = { λ line. record {
      declared = string_bytes line.declared;
      offset = string_bytes line.offset;
      alignment = string_bytes line.alignment;
      size = string_bytes line.size;
    } };
}

impl Line {
    ghost use Rattle.std.specs.Prelude.{◌≡◌, string_bytes};
    ghost use Rattle.report_layouts.specs.Columns.{row};

    /// Returns a line of these texts.
    pub fn new(declared: String, offset: String, alignment: String, size: String) -> Line
        ensures { result ≡ row (string_bytes declared) (string_bytes offset) (string_bytes alignment) (string_bytes size) }
    {
        Line {
            declared,
            offset,
            alignment,
            size,
        }
    }

    /// Returns what is declared.
    fn declared(&self) -> &str
        ensures { result.now ≡ self.now.declared }
    {
        self.declared.as_str()
    }

    /// Returns the offset.
    fn offset(&self) -> &str
        ensures { result.now ≡ self.now.offset }
    {
        self.offset.as_str()
    }

    /// Returns the alignment.
    fn alignment(&self) -> &str
        ensures { result.now ≡ self.now.alignment }
    {
        self.alignment.as_str()
    }

    /// Returns the size.
    fn size(&self) -> &str
        ensures { result.now ≡ self.now.size }
    {
        self.size.as_str()
    }
}

/// The widths of the columns behind which others stand.
#[derive(Clone, Copy)]
struct Widths {
    declared: usize,
    offset: usize,
    alignment: usize,
}

/// Returns widths that have room for one more line.
fn wider(widths: Widths, line: &Line) -> Widths
    ensures { result ≡ wider widths line.now }
{
    Widths {
        declared: widths.declared.max(columns_of(line.declared())),
        offset: widths.offset.max(columns_of(line.offset())),
        alignment: widths.alignment.max(columns_of(line.alignment())),
    }
}

/// Returns the widths of the columns of some lines.
fn widths_of(lines: &[Line]) -> Widths
    ensures { result ≡ widths_of lines.now }
{
    let mut widths = Widths {
        declared: 0,
        offset: 0,
        alignment: 0,
    };
    for line in lines {
        widths = wider(widths, line);
    }
    widths
}

/// Returns a text as a column behind which another one stands. A column without a width isn't there.
fn column_text(alloc: Global, text: &str, width: usize) -> Result<String, AllocError>
    ensures { IfOk result (λ column. string_bytes column ≡ column_text width text.now) }
{
    if width == 0 {
        return Ok(String::new(alloc));
    }
    let padded = padded_text(alloc, text, width)?;
    format!(in alloc; "{padded}  ")
}

/// Returns a line with its columns.
fn line_text(alloc: Global, line: &Line, widths: Widths) -> Result<String, AllocError>
    ensures { IfOk result (λ text. string_bytes text ≡ line_text widths line.now) }
{
    let declared = padded_text(alloc, line.declared(), widths.declared)?;
    let offset = column_text(alloc, line.offset(), widths.offset)?;
    let alignment = column_text(alloc, line.alignment(), widths.alignment)?;
    let size = line.size();
    format!(in alloc; "{declared}  // {offset}{alignment}{size}\n")
}

/// Returns some lines with their columns.
fn lines_text(alloc: Global, lines: &[Line], widths: Widths) -> Result<String, AllocError>
    ensures { IfOk result (λ text. string_bytes text ≡ lines_text widths lines.now) }
{
    let mut text = String::new(alloc);
    for line in lines {
        let more = line_text(alloc, line, widths)?;
        text.push_str(more.as_str())?;
    }
    Ok(text)
}

/// Returns some lines, with columns that are as wide as their widest texts.
pub fn aligned_text(alloc: Global, lines: &[Line]) -> Result<String, AllocError>
    ensures { IfOk result (λ text. string_bytes text ≡ aligned_text lines.now) }
{
    let widths = widths_of(lines);
    lines_text(alloc, lines, widths)
}
